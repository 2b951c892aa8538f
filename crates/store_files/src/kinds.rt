//! Files that are no newsroom's, whatever stands behind their headers.
ghost use Rattle.std.specs.Prelude.{◌≡◌, ◌≢◌, ◌<◌, ℕ, [], Option, IsTrue, ◌↔◌, IfOk, IfErr, OnOk, length};
ghost use Rattle.news_io.specs.Faults.{Counts};
ghost use Rattle.news_journal.specs.Opened.{Still, FaultCounts};
ghost use Rattle.news_journal.specs.declared.log.OpenFault.TheVariants.{Damaged};
ghost use Rattle.store_files.specs.Kinds.{kind_of, IsKind, side_form, IsOtherSide};

use news_io::{Disk, Failed};
use news_journal::{Header, OpenFault, Window};
use std::alloc::Global;
use uuid::Uuid;

/// What a log is for, as far as its length and its header tell.
#[derive(Clone, Copy)]
pub(crate) enum LogKind {
    /// Nothing of a newsroom's: the file is empty, or a receiver's log.
    Other,
    /// The list of the store of this identifier.
    Room(Uuid),
    /// Its first bytes are no header.
    Unknown,
}

/// Whether a file is empty.
pub fn is_empty<D: Disk>(file: &mut D) -> Result<bool, Failed>
    ensures empty { D.disk.tells file.old → IfOk result (λ none. IsTrue none ↔ (D.disk.seen file.old ≡ [])) }
    ensures still { Still D.disk file.old file.new }
    ensures count { Counts (D.disk.faults file.old) (D.disk.faults file.new) result }
{
    Ok(file.size()? == 0)
}

/// What a log is for.
pub(crate) fn log_kind<D: Disk>(log: &mut D) -> Result<LogKind, Failed>
    ensures kind { D.disk.tells log.old → IfOk result (IsKind (D.disk.seen log.old)) }
    ensures still { Still D.disk log.old log.new }
    ensures count { Counts (D.disk.faults log.old) (D.disk.faults log.new) result }
{
    if is_empty(log)? {
        return Ok(LogKind::Other);
    }
    header_kind(log)
}

/// What a log with this header is for.
fn kind_of(header: Header) -> LogKind
    ensures { result ≡ kind_of header }
{
    match header {
        Header::Receiver { .. } => LogKind::Other,
        Header::Room { store } => LogKind::Room(store),
    }
}

/// What a log that is not empty is for.
fn header_kind<D: Disk>(log: &mut D) -> Result<LogKind, Failed>
    ensures kind { D.disk.tells log.old → (D.disk.seen log.old ≡ [] → ⊥) → IfOk result (IsKind (D.disk.seen log.old)) }
    ensures still { Still D.disk log.old log.new }
    ensures count { Counts (D.disk.faults log.old) (D.disk.faults log.new) result }
{
    match Header::read_from(log)? {
        Some(header) => Ok(kind_of(header)),
        None => Ok(LogKind::Unknown),
    }
}

/// The kind of a side.
const SIDE: u8 = 3;

/// A header of the form of a side's.
fn side_header(kind: u8, owner: &[u8]) -> [u8; 64]
    requires { length owner.now ≡ 16 }
    ensures { result ≡ side_form kind owner.now }
{
    let mut head = [0; 64];
    head[..9].copy_from_slice(b"NEWSDESK\x01");
    head[9] = kind;
    head[16..32].copy_from_slice(owner);
    head
}

/// Whether a side of this kind and with this identifier is not that of a store.
fn is_other(kind: u8, owner: &[u8], store: &Uuid) -> bool
    ensures { IsTrue result ↔ (kind ≡ 3 → owner.now ≡ store.now → ⊥) }
{
    kind != SIDE || owner != store.as_bytes().as_slice()
}

/// Whether a file that begins with these bytes, at most 65, is a side of another kind or of another store.
fn has_other_header(bytes: &[u8], store: &Uuid) -> bool
    ensures { IsTrue result ↔ IsOtherSide store.now bytes.now }
{
    if bytes.len() < 65 {
        return false;
    }
    let head = &bytes[..64];
    let kind = head[9];
    let owner = &head[16..32];
    if head != side_header(kind, owner).as_slice() {
        return false;
    }
    is_other(kind, owner, store)
}

/// Whether the header of a side is that of another kind or of another store.
fn reads_other_header<D: Disk>(alloc: Global, side: &mut D, store: &Uuid) -> Result<bool, OpenFault>
    ensures found { D.disk.tells side.old → IfOk result (λ other. IsTrue other ↔ IsOtherSide store.now (D.disk.seen side.old)) }
    ensures damage { IfErr result (λ e. (at : ℕ) (found : Option ℕ) → e ≢ Damaged at found) }
    ensures still { Still D.disk side.old side.new }
    ensures fault { IfErr result (FaultCounts (D.disk.faults side.old) (D.disk.faults side.new)) }
    ensures calm { OnOk result (D.disk.faults side.new ≡ D.disk.faults side.old) }
{
    let mut window = Window::new(alloc);
    window.cover(side, 0, 65)?;
    Ok(has_other_header(window.part(0, 65), store))
}

/// Whether a file has no room for a header and a gate.
fn is_short<D: Disk>(file: &mut D) -> Result<bool, Failed>
    ensures short { D.disk.tells file.old → IfOk result (λ short. IsTrue short → length (D.disk.seen file.old) < 65) }
    ensures still { Still D.disk file.old file.new }
    ensures count { Counts (D.disk.faults file.old) (D.disk.faults file.new) result }
{
    Ok(file.size()? < 65)
}

/// Whether a side is of another kind or of another store. A short one is not read.
pub(crate) fn is_other_side<D: Disk>(
    alloc: Global,
    side: &mut D,
    store: &Uuid,
) -> Result<bool, OpenFault>
    ensures found { D.disk.tells side.old → IfOk result (λ other. IsTrue other ↔ IsOtherSide store.now (D.disk.seen side.old)) }
    ensures damage { IfErr result (λ e. (at : ℕ) (found : Option ℕ) → e ≢ Damaged at found) }
    ensures still { Still D.disk side.old side.new }
    ensures fault { IfErr result (FaultCounts (D.disk.faults side.old) (D.disk.faults side.new)) }
    ensures calm { OnOk result (D.disk.faults side.new ≡ D.disk.faults side.old) }
{
    if is_short(side)? {
        return Ok(false);
    }
    reads_other_header(alloc, side, store)
}
