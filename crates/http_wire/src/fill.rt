//! Bytes of a source are put behind others.
ghost use Rattle.std.specs.Prelude.{◌≡◌, ◌≤◌, ◌<◌, ◌+◌, ◌++◌, ℕ, List, [], Ok, Err, IfErr, MatchResult, OnOk, OnErr, false, vec_len};
ghost use Rattle.http_wire.specs.declared.stop.Stop.TheVariants.{HeadFault};
ghost use Rattle.http_wire.specs.Limits.{most_held, most_read};
ghost use Rattle.http_wire.specs.Steps.{Adds, Grows, IsUnread, IsCutShort, CountsStop};

use crate::stop::Stop;
use news_io::Source;

/// As many bytes as are asked of the source at once.
const MOST_READ: usize = 4096;

/// Reads once: whether more bytes stand there, or the input has ended. The room for it is made before, so that no byte
/// is lost.
pub(crate) fn fill<S: Source>(bytes: &mut Vec<u8>, source: &mut S) -> Result<bool, Stop>
    ensures input { S.source.tells source.old → bytes.new.items ++ S.source.ahead source.new ≡ bytes.old.items ++ S.source.ahead source.old }
    ensures ended { S.source.tells source.old → result ≡ Ok false → S.source.ahead source.new ≡ [] }
    ensures adds { Adds bytes.old.items bytes.new.items result }
    ensures grows { Grows (vec_len bytes.old) (vec_len bytes.new) result }
    ensures unread { IfErr result IsUnread }
    ensures told { S.source.tells source.old → S.source.tells source.new }
    ensures count { CountsStop (S.source.faults source.old) (S.source.faults source.new) result }
{
    bytes.reserve(MOST_READ)?;
    let mut piece = [0u8; MOST_READ];
    let count = source.read(&mut piece)?;
    if count == 0 {
        return Ok(false);
    }
    if let Err(_) = bytes.extend_from_slice(&piece[..count]) {
        unreachable!();
    }
    Ok(true)
}

/// Reads until so many bytes of a request stand there. It reads only while there are fewer.
pub(crate) fn gather<S: Source>(
    bytes: &mut Vec<u8>,
    source: &mut S,
    until: usize,
) -> Result<(), Stop>
    requires { until + most_read ≤ most_held }
    ensures input { S.source.tells source.old → bytes.new.items ++ S.source.ahead source.new ≡ bytes.old.items ++ S.source.ahead source.old }
    ensures ended { S.source.tells source.old → result ≡ Err HeadFault → S.source.ahead source.new ≡ [] }
    ensures more { (piece : List ℕ) × (bytes.new.items ≡ bytes.old.items ++ piece) }
    ensures reaches { OnOk result (until ≤ vec_len bytes.new) }
    ensures short { OnErr result (vec_len bytes.new < until) }
    ensures cut { IfErr result IsCutShort }
    ensures held { vec_len bytes.old ≤ most_held → vec_len bytes.new ≤ most_held }
    ensures told { S.source.tells source.old → S.source.tells source.new }
    ensures count { CountsStop (S.source.faults source.old) (S.source.faults source.new) result }
{
    while bytes.len() < until {
        if !fill(bytes, source)? {
            return Err(Stop::HeadFault);
        }
    }
    Ok(())
}
