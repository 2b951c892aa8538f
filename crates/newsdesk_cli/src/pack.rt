//! What is told of a log and its side that are packed.
ghost use Rattle.std.specs.Prelude.{◌≡◌};
ghost use Rattle.newsdesk_cli.specs.Telling.{IsTold};
ghost use Rattle.newsdesk_cli.specs.Packing.{packed_line as line_of_count};

use crate::telling::tell_answer;
use byte_formats::SmallBytes;
use news_io::Sink;

/// The longest line: the words, and a number.
const LINE: usize = 56;

/// The line that says how many entries a list has that was packed.
fn packed_line(count: u64) -> SmallBytes<LINE>
    ensures { result ≡ line_of_count count }
{
    let mut line: SmallBytes<LINE> = SmallBytes::new();
    line.push_slice(b"{\"answer\":\"packed\",\"entries\":");
    line.push_decimal(count);
    line.push_slice(b"}\n");
    line
}

/// Tells how many entries a list has that was packed, and gives the status.
pub(crate) fn tell_packed<O: Sink>(output: &mut O, count: u64) -> u8
    ensures { IsTold O.sink (line_of_count count) output.old output.new result }
{
    tell_answer(output, packed_line(count).as_slice())
}
