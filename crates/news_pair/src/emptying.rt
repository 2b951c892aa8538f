//! Emptying a log: its first gate is closed, and then it is written how many entries stand before its first record.
ghost use Rattle.std.specs.Prelude.{◌≡◌, ◌≢◌, ◌⊎◌, ◌<◌, ◌+◌, ◌^◌, ◌++◌, [], ◌∷◌, List, ℕ, Some, false, length, OnOk, OnErr};
ghost use Rattle.news_types.specs.Names.{Bytes};
ghost use Rattle.news_io.specs.Disk.{Only, DiskGains};
ghost use Rattle.news_io.specs.Faults.{Counts};
ghost use Rattle.news_journal.specs.Calls.{CalledWithin};
ghost use Rattle.news_journal.specs.Log.{room_head, IsEdition, opened, records as log_records, AllFit};
ghost use Rattle.news_journal.specs.Stands.{IsShut};
ghost use Rattle.news_pair.specs.Pair.{six, HasNoRecord};

use news_io::{Disk, Failed};
use news_journal::write_through;
use uuid::Uuid;

/// The lowest six bytes of a number, the highest first.
#[tactic(auto, unfolding(crate::specs::Pair::six))]
fn six_bytes(number: u64) -> [u8; 6]
    ensures { result ≡ six number }
{
    let bytes = number.to_be_bytes();
    [bytes[2], bytes[3], bytes[4], bytes[5], bytes[6], bytes[7]]
}

/// The bytes of an identifier.
pub fn store_bytes(store: &Uuid) -> [u8; 16]
    ensures { result ≡ store.now }
{
    *store.as_bytes()
}

/// This header of a room's log with so many entries before its first record.
pub fn with_base(head: &[u8; 64], base: u64) -> [u8; 64]
    ensures { (edition : ℕ) (b : List ℕ) (store : Bytes) → length b ≡ 6 → head.now ≡ room_head edition b store → result ≡ room_head edition (six base) store }
{
    let mut bytes = *head;
    bytes[10..16].copy_from_slice(&six_bytes(base));
    bytes
}

/// Writes the base of a log without a record.
pub fn write_base<D: Disk>(disk: &mut D, base: u64) -> Result<(), Failed>
    ensures seen { D.disk.tells disk.old → (edition : ℕ) (b : List ℕ) (store : Bytes) (g : ℕ) (tail : List ℕ) → length b ≡ 6 → length store ≡ 16 → D.disk.seen disk.old ≡ room_head edition b store ++ g ∷ tail
        → OnOk result (D.disk.seen disk.new ≡ room_head edition (six base) store ++ g ∷ tail) }
    ensures durable { D.disk.tells disk.old → OnOk result (Only (D.disk.seen disk.new) (D.disk.may_leave disk.new)) }
    ensures told { D.disk.tells disk.old → D.disk.tells disk.new }
    ensures crash { D.disk.tells disk.old → Only (D.disk.seen disk.old) (D.disk.may_leave disk.old) → (edition : ℕ) (b : List ℕ) (store : Bytes) (g : ℕ) (tail : List ℕ) → IsEdition edition → length b ≡ 6 → length store ≡ 16
        → D.disk.seen disk.old ≡ room_head edition b store ++ g ∷ tail → g ≢ 1 → DiskGains D.disk disk.old disk.new (HasNoRecord store) }
    ensures count { Counts (D.disk.faults disk.old) (D.disk.faults disk.new) result }
    ensures calls { CalledWithin 2 (D.disk.calls disk.old) (D.disk.calls disk.new) }
{
    write_through(disk, 10, &six_bytes(base))
}

/// Closes the first gate of a log with records, and then writes its base.
pub fn empty_log<D: Disk>(disk: &mut D, base: u64) -> Result<(), Failed>
    ensures seen { D.disk.tells disk.old → (edition : ℕ) (b : List ℕ) (store : Bytes) (x : Bytes) (q : List Bytes) → length b ≡ 6 → length store ≡ 16
        → IsShut (room_head edition b store ++ log_records (x ∷ q)) (D.disk.seen disk.old) (D.disk.may_leave disk.old)
        → OnOk result ((tail : List ℕ) × (D.disk.seen disk.new ≡ room_head edition (six base) store ++ 0 ∷ tail)) }
    ensures durable { D.disk.tells disk.old → OnOk result (Only (D.disk.seen disk.new) (D.disk.may_leave disk.new)) }
    ensures told { D.disk.tells disk.old → D.disk.tells disk.new }
    // At each moment of the call a crash leaves the log with its records, or without one.
    ensures crash { D.disk.tells disk.old → (edition : ℕ) (b : List ℕ) (store : Bytes) (x : Bytes) (q : List Bytes) → IsEdition edition → length b ≡ 6 → length store ≡ 16 → AllFit (x ∷ q)
        → length (room_head edition b store ++ log_records (x ∷ q)) < 2 ^ 30
        → IsShut (room_head edition b store ++ log_records (x ∷ q)) (D.disk.seen disk.old) (D.disk.may_leave disk.old)
        → DiskGains D.disk disk.old disk.new (λ (c : List ℕ). (opened (room_head edition b store) c ≡ Some (x ∷ q)) ⊎ HasNoRecord store c) }
    ensures count { Counts (D.disk.faults disk.old) (D.disk.faults disk.new) result }
    ensures calls { CalledWithin 4 (D.disk.calls disk.old) (D.disk.calls disk.new) }
{
    write_through(disk, 64, &[0])?;
    write_base(disk, base)
}
