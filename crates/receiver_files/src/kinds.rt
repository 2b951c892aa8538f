//! Whose log a file is, as far as its length and its header tell.
ghost use Rattle.std.specs.Prelude.{◌≡◌, ℕ, List, [], IsTrue, ◌↔◌, IfOk, MatchBool};
ghost use Rattle.news_types.specs.Names.{is_name};
ghost use Rattle.news_io.specs.Faults.{Counts};
ghost use Rattle.news_journal.specs.Opened.{Still};
ghost use Rattle.news_journal.specs.Log.{IsHead};
ghost use Rattle.news_journal.specs.declared.header.Header.TheVariants.{Receiver};
ghost use Rattle.receiver_files.specs.Log.{IsKind};

use news_io::{Disk, Failed};
use news_journal::Header;

/// Whose log a file is.
#[derive(Clone, Copy)]
pub(crate) enum LogKind {
    /// Nobody's yet: the file is empty.
    Empty,
    /// A newsroom's, or another receiver's.
    Other,
    /// This receiver's, or its first bytes are no header.
    Own,
}

/// Whether a file is empty.
fn is_empty<D: Disk>(file: &mut D) -> Result<bool, Failed>
    ensures empty { D.disk.tells file.old → IfOk result (λ none. IsTrue none ↔ (D.disk.seen file.old ≡ [])) }
    ensures still { Still D.disk file.old file.new }
    ensures count { Counts (D.disk.faults file.old) (D.disk.faults file.new) result }
{
    Ok(file.size()? == 0)
}

/// Whether a header is that of the log of the receiver of this name.
fn is_mine(header: Header, name: &[u8]) -> bool
    requires { IsTrue (is_name name.now) }
    ensures { (head : List ℕ) → IsHead header head → MatchBool result (IsHead (Receiver name.now) head) (IsHead (Receiver name.now) head → ⊥) }
{
    match header {
        Header::Receiver { name: other } => other.as_bytes() == name,
        Header::Room { .. } => false,
    }
}

/// Whose log a file is that is not empty.
fn header_kind<D: Disk>(log: &mut D, name: &[u8]) -> Result<LogKind, Failed>
    requires { IsTrue (is_name name.now) }
    ensures kind { D.disk.tells log.old → (D.disk.seen log.old ≡ [] → ⊥) → IfOk result (IsKind name.now (D.disk.seen log.old)) }
    ensures still { Still D.disk log.old log.new }
    ensures count { Counts (D.disk.faults log.old) (D.disk.faults log.new) result }
{
    let Some(header) = Header::read_from(log)? else {
        return Ok(LogKind::Own);
    };
    if is_mine(header, name) {
        Ok(LogKind::Own)
    } else {
        Ok(LogKind::Other)
    }
}

/// Whose log a file is. Nothing but its length and its header is asked.
pub(crate) fn log_kind<D: Disk>(log: &mut D, name: &[u8]) -> Result<LogKind, Failed>
    requires { IsTrue (is_name name.now) }
    ensures kind { D.disk.tells log.old → IfOk result (IsKind name.now (D.disk.seen log.old)) }
    ensures still { Still D.disk log.old log.new }
    ensures count { Counts (D.disk.faults log.old) (D.disk.faults log.new) result }
{
    if is_empty(log)? {
        return Ok(LogKind::Empty);
    }
    header_kind(log, name)
}
