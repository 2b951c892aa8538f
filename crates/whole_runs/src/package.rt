//! Packages are published, and told.
ghost use Rattle.std.specs.Prelude.{◌≡◌, IfOk, IsTrue};
ghost use Rattle.news_types.specs.Fits.{FitsStory};
ghost use Rattle.news_room.specs.Stands.{SomeBook};
ghost use Rattle.desk_lines.specs.Reading.{IsRead};
ghost use Rattle.package_members.specs.Members.{make_package};
ghost use Rattle.whole_runs.specs.Packaging.{IsPackageRun, IsPackagedTold, IsFaultTold, IsLineTold, IsLine, package_of, package_read};

use crate::output::{tell_stop, tell_text};
use crate::reading::read_whole;
use desk_answers::{bad_text, denial_text, reply_text};
use desk_lines::{Described, LineFault, read_package};
use news_io::{Clock, Keeper, Sink, Source};
use news_room::Room;
use news_types::{Bytes, Memory, Name};
use package_rules::{Package, Packaged, no_readers_text, publish_package};
use run_status::Status;
use std::alloc::Global;

/// The most bytes of an input that are answered.
const LONGEST_INPUT: u64 = 4_294_967_296;

/// Publishes the package that the input is an object of, as this caller's request of this number, at one reading of the clock,
/// and gives the status.
///
/// It is 0 where the answer was written, 4 where the input failed, 5 where the output did, 6 where the keeper did, 8 where
/// an entry would pass the limit, 9 where there was no memory, and 12 where the input is too long. A status other than 0 and
/// 5 is told as a line, and nothing else is.
pub fn package_input<S: Source, O: Sink, K: Keeper, C: Clock>(
    alloc: Global,
    input: &mut S,
    output: &mut O,
    room: &mut Room<K>,
    clock: &mut C,
    caller: Name,
    number: u64,
) -> u8
    requires { SomeBook K.keeper room.old }
    ensures { IsPackageRun K.keeper C.clock S.source O.sink caller number room.old room.new clock.old clock.new input.old input.new output.old output.new result }
{
    let object = match read_whole(alloc, input, LONGEST_INPUT) {
        Ok(object) => object,
        Err(why) => return tell_stop(output, Status::from(why)),
    };
    match described(alloc, &object) {
        Ok(package) => {
            let now = clock.now();
            let packaged = publish_package(alloc, room, now, caller, number, &package);
            drop(package);
            tell_packaged(alloc, output, packaged)
        }
        Err(fault) => tell_fault(alloc, output, fault),
    }
}

/// The package that an object describes.
fn described(alloc: Global, object: &[u8]) -> Result<Package, LineFault>
    ensures { IsRead (package_read object.now) result }
{
    let described = read_package(alloc, object)?;
    Ok(package_made(alloc, described)?)
}

/// The package that is described.
fn package_made(alloc: Global, described: Described) -> Result<Package, Memory>
    requires fits { FitsStory described.story }
    requires make { IsTrue (make_package described.members) }
    ensures { IfOk result (λ made. made ≡ package_of described) }
{
    let Described { story, members } = described;
    match Package::new(alloc, story, members.as_slice())? {
        Some(made) => Ok(made),
        None => unreachable!(),
    }
}

/// Tells why an object describes no package, and gives the status.
fn tell_fault<O: Sink>(alloc: Global, output: &mut O, fault: LineFault) -> u8
    ensures { IsFaultTold O.sink fault output.old output.new result }
{
    match fault {
        LineFault::Bad { property } => tell_line(output, bad_text(alloc, property)),
        LineFault::Memory => tell_stop(output, Status::Memory),
    }
}

/// Tells what became of a package, and gives the status.
fn tell_packaged<O: Sink>(alloc: Global, output: &mut O, packaged: Packaged) -> u8
    ensures { IsPackagedTold O.sink packaged output.old output.new result }
{
    match packaged {
        Packaged::Done(reply) => tell_line(output, reply_text(alloc, &reply, false)),
        Packaged::Repeat(reply) => tell_line(output, reply_text(alloc, &reply, true)),
        Packaged::Denied(denial) => tell_line(output, denial_text(alloc, &denial)),
        Packaged::NoReaders { front } => tell_line(output, no_readers_text(alloc, front)),
        Packaged::Fault => tell_stop(output, Status::Store),
        Packaged::Full { .. } => tell_stop(output, Status::Full),
        Packaged::Memory => tell_stop(output, Status::Memory),
    }
}

/// Tells a text as a line, if there was memory for it, and gives the status.
fn tell_line<O: Sink>(output: &mut O, text: Result<Bytes, Memory>) -> u8
    ensures { IsLineTold O.sink text output.old output.new result }
{
    match with_end(text) {
        Ok(line) => tell_text(output, line.as_slice()),
        Err(Memory) => tell_stop(output, Status::Memory),
    }
}

/// The text with its line end.
fn with_end(text: Result<Bytes, Memory>) -> Result<Bytes, Memory>
    ensures { IsLine text result }
{
    let mut line = text?.into_vec();
    line.push(b'\n')?;
    Ok(Bytes::of(line))
}
