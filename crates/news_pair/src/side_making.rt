//! Making a side: its first byte is written last, so that a file in the making stands for no segment.
ghost use Rattle.std.specs.Prelude.{◌≡◌, ◌≢◌, ◌++◌, [], ◌∷◌, List, ℕ, length, OnOk};
ghost use Rattle.news_io.specs.Disk.{Only, DiskGains};
ghost use Rattle.news_io.specs.Faults.{Counts};
ghost use Rattle.news_pair.specs.Pair.{side_head, IsBare, IsSideInTheMaking};

use crate::emptying::store_bytes;
use news_io::{Disk, Failed};
use news_journal::write_through;
use uuid::Uuid;

/// What stands behind the first byte of a side without a segment: the rest of its header, and a closed gate.
fn behind_first(store: &Uuid) -> [u8; 64]
    ensures { 78 ∷ result ≡ side_head store.now ++ 0 ∷ [] }
{
    let mut bytes = [0; 64];
    bytes[..9].copy_from_slice(b"EWSDESK\x01\x03");
    bytes[15..31].copy_from_slice(&store_bytes(store));
    bytes
}

/// The header of a store's side.
pub fn side_header(store: &Uuid) -> [u8; 64]
    ensures { result ≡ side_head store.now }
{
    let mut bytes = [0; 64];
    bytes[..10].copy_from_slice(b"NEWSDESK\x01\x03");
    bytes[16..32].copy_from_slice(&store_bytes(store));
    bytes
}

/// Takes the first byte from a file that is too short to show by it that it is none.
fn clear_first<D: Disk>(disk: &mut D) -> Result<(), Failed>
    ensures seen { D.disk.tells disk.old → IsBare (D.disk.seen disk.old) → OnOk result ((first : ℕ) × (rest : List ℕ) × (first ≢ 78) × (D.disk.seen disk.new ≡ first ∷ rest)) }
    ensures durable { D.disk.tells disk.old → Only (D.disk.seen disk.old) (D.disk.may_leave disk.old) → OnOk result (Only (D.disk.seen disk.new) (D.disk.may_leave disk.new)) }
    ensures told { D.disk.tells disk.old → D.disk.tells disk.new }
    ensures crash { D.disk.tells disk.old → Only (D.disk.seen disk.old) (D.disk.may_leave disk.old) → IsBare (D.disk.seen disk.old)
        → DiskGains D.disk disk.old disk.new IsBare }
    ensures count { Counts (D.disk.faults disk.old) (D.disk.faults disk.new) result }
{
    if disk.size()? < 65 {
        write_through(disk, 0, &[0])?;
    }
    Ok(())
}

/// Makes a file that stands for no segment a side without one, whatever bytes it has.
pub fn create_side<D: Disk>(disk: &mut D, store: &Uuid) -> Result<(), Failed>
    ensures seen { D.disk.tells disk.old → IsBare (D.disk.seen disk.old) → OnOk result ((rest : List ℕ) × (D.disk.seen disk.new ≡ side_head store.now ++ 0 ∷ rest)) }
    ensures durable { D.disk.tells disk.old → OnOk result (Only (D.disk.seen disk.new) (D.disk.may_leave disk.new)) }
    ensures told { D.disk.tells disk.old → D.disk.tells disk.new }
    // At each moment of the call a crash leaves a side in the making.
    ensures crash { D.disk.tells disk.old → Only (D.disk.seen disk.old) (D.disk.may_leave disk.old) → IsBare (D.disk.seen disk.old)
        → DiskGains D.disk disk.old disk.new (IsSideInTheMaking store.now) }
    ensures count { Counts (D.disk.faults disk.old) (D.disk.faults disk.new) result }
{
    let behind = behind_first(store);
    clear_first(disk)?;
    write_through(disk, 1, &behind)?;
    write_through(disk, 0, b"N")?;
    Ok(())
}
