//! Worked rows over the newsroom itself, without a store, a log or a clock of its own: prints what each line of the input is
//! answered.
//!
//! - `= new` begins a newsroom with no entry, whose store has the identifier `6ba7b810-9dad-11d1-80b4-00c04fd430c8`. It
//!   prints nothing. The input begins with such a newsroom.
//! - `@ M`: from here on the clock shows M, in seconds since 1970-01-01T00:00:00Z. It prints nothing.
//! - `# text` is printed as it is.
//! - A line that begins with `{` is one of a batch: a request, a question or a receipt. A question is asked of the list as it
//!   is: no tick comes before it.
//! - `item PROVIDER {..}` takes a ninjs item of a provider.
//! - `wire PROVIDER TEXT` takes the whole input of a text wire, in which `^` and a letter stand for a control byte (`^A` to `^D`
//!   for SOH, STX, ETX and EOT, `^J` for LF): it prints a line for each story or fault.
//! - `tick` prints `kept E` where an Advance is kept as entry E, and `still` where nothing waits until the clock's moment.
//! - `claim NAME ..` prints `job SUBSCRIBER K LENGTH` where an attempt for entry K of a feed is kept, whose frame has LENGTH
//!   bytes; else `idle M`, where one of the feeds may be ready at M, or `idle`. No tick comes before it.
//! - `frame SUBSCRIBER K` prints the frame of entry K of a feed, as its bytes are, or `none of LENGTH` where the feed has
//!   LENGTH entries and no such one.
//! - `halt` prints `kept E`.
//!
//! Each answer but a frame is one line. An input line of none of these forms ends the run with an error.
#![tactic(auto)]

mod incoming;
mod lines;
mod session;
mod told;
mod words;

use lines::take_line;
use session::Session;
use std::io;

fn main(rt: HostRuntime) -> io::Result<()> {
    let mut session = Session::new(rt.alloc())?;
    for line in rt.lines(rt.alloc()) {
        take_line(&rt, &mut session, line?.as_str())?;
    }
    Ok(())
}
