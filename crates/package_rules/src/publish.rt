//! Packages are published to those who have every member.
ghost use Rattle.std.specs.Prelude.{◌≡◌};
ghost use Rattle.news_room.specs.Stands.{SomeBook};
ghost use Rattle.package_rules.specs.Publishing.{packaged_by, passed_by, FlashStep, IsPublished, IfDone};

use crate::package::Package;
use crate::readers::find_readers;
use news_io::Keeper;
use news_room::{Handled, Room, Ticked};
use news_types::{Command, Denial, Name, Reply};
use std::alloc::Global;

/// What the request to publish a package is answered.
#[derive(Drop)]
pub enum Packaged {
    /// It is published, with this reply.
    Done(Reply),
    /// It is the caller's last request once more, with the reply that was given: nothing is kept.
    Repeat(Reply),
    /// It is denied, for the first reason in their order: nothing is kept.
    Denied(Denial),
    /// Nobody has every member: nothing is kept but what the tick released.
    NoReaders {
        /// The number of entries of the list.
        front: u64,
    },
    /// The keeper has failed, and its count of faults has risen. A crash may leave the entry that was tried, the tick's or
    /// the package's, behind the list.
    Fault,
    /// The entry that was tried, the tick's or the package's, would pass the limit: it is not kept.
    Full {
        /// The bytes in use.
        size: u64,
        /// The length of the entry's payload in bytes.
        length: u64,
    },
    /// There is no memory for it: nothing is kept but what the tick released.
    Memory,
}

/// Publishes a package at a reading of the clock, in seconds.
///
/// What waits is released first, as by a tick. Then the package's story is flashed to the subscribers whose feed has every
/// member, in byte order; where there are none, that is the answer, before every denial. A fault or a full keeper of the
/// tick is the answer too.
pub fn publish_package<K: Keeper>(
    alloc: Global,
    room: &mut Room<K>,
    now: u64,
    caller: Name,
    number: u64,
    package: &Package,
) -> Packaged
    requires stands { SomeBook K.keeper room.old }
    ensures published { IsPublished K.keeper room.old room.new now caller number «package».now result }

    // Where it is done, what is promised of packages holds of its publication.
    ensures done { IfDone K.keeper room.old room.new «package».now result }
{
    match passed(room.tick(now)) {
        Ok(()) => flash_package(alloc, room, now, caller, number, package),
        Err(stopped) => stopped,
    }
}

/// What a tick leaves to be answered, where it does not let the package follow.
fn passed(ticked: Ticked) -> Result<(), Packaged>
    ensures { result ≡ passed_by ticked }
{
    match ticked {
        Ticked::Kept { .. } | Ticked::Still => Ok(()),
        Ticked::Fault => Err(Packaged::Fault),
        Ticked::Full { size, length } => Err(Packaged::Full { size, length }),
    }
}

/// Flashes the package's story to its readers, if there are any.
fn flash_package<K: Keeper>(
    alloc: Global,
    room: &mut Room<K>,
    now: u64,
    caller: Name,
    number: u64,
    package: &Package,
) -> Packaged
    requires stands { SomeBook K.keeper room.old }
    ensures step { FlashStep K.keeper room.old room.new now caller number «package».now result }
{
    let Ok(targets) = find_readers(alloc, room, package.members()) else {
        return Packaged::Memory;
    };
    if targets.as_slice().is_empty() {
        return Packaged::NoReaders {
            front: room.front(),
        };
    }
    let Ok(story) = package.story().copy() else {
        return Packaged::Memory;
    };
    flashed(room.request(now, caller, number, Command::Flash { story, targets }))
}

/// The answer to a package's request, by that to its flash.
fn flashed(handled: Handled) -> Packaged
    ensures { result ≡ packaged_by handled }
{
    match handled {
        Handled::Done(reply) => Packaged::Done(reply),
        Handled::Repeat(reply) => Packaged::Repeat(reply),
        Handled::Denied(denial) => Packaged::Denied(denial),
        Handled::Fault => Packaged::Fault,
        Handled::Full { size, length } => Packaged::Full { size, length },
        Handled::Memory => Packaged::Memory,
    }
}
