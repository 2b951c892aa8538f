//! One round of a worker.
ghost use Rattle.std.specs.Prelude.{◌≡◌, ◌∷◌, [], true};
ghost use Rattle.news_types.specs.Books.{Book, onto};
ghost use Rattle.news_types.specs.Products.{is_subscriber};
ghost use Rattle.room_lock.specs.Going.{Went};
ghost use Rattle.room_lock.specs.Locks.{front, calls, lock_of, id_of, start_of, base_of};
ghost use Rattle.room_lock.specs.Passes.{IsTurn, found_by, left_by};
ghost use Rattle.room_lock.specs.declared.view.Call.{Call};
ghost use Rattle.news_room.specs.Stands.{Stands, SomeBook};
ghost use Rattle.news_room.specs.declared.answers.Kept.{Kept};
ghost use Rattle.publish_workers.specs.Links.{Passes, Reads, CountsFaults};
ghost use Rattle.publish_workers.specs.Receipts.{IsReceiptFor};
ghost use Rattle.publish_workers.specs.Turns.{word_of_receipt};
ghost use Rattle.shared_workers.specs.Steps.{Took};
ghost use Rattle.shared_workers.specs.Exchanges.{Brought};
ghost use Rattle.shared_workers.specs.Rounds.{Round, answer_of, is_link_lost, deed_readings, deed_frames, deed_replies, deed_passed, round_calls, round_holds};

use crate::exchange::{Receipt, exchange};
use crate::works::{Claiming, Keeping, Step};
use feed_receiver::Line;
use news_io::{Clock, Keeper, Link};
use news_room::{Kept, Room};
use news_types::Name;
use publish_workers::Worked;
use room_lock::{Pass, Shared};
use std::sync::Wait;

/// What a round of a worker came to.
#[derive(Drop)]
pub enum WorkerTurn {
    /// A stop or a halt stands in the list behind those entries with which the lock was made: nothing is claimed.
    Stopping {
        /// Its place in the list.
        place: u64,
    },
    /// There is none, and this came of the worker's turn.
    Worked(Worked),
}

/// One round of a worker over a link: in a turn of the lock it claims the frame that is to be sent next to one of the link's
/// subscribers; outside the lock it sends it and reads the reply; and in another turn it keeps the receipt that the reply is.
///
/// Where the room was stopped or halted since the lock was made, it claims nothing. It sends one frame at the most, and reads
/// the clock once before each turn of the lock, in seconds.
pub fn worker_turn<K: Keeper + Drop, C: Clock, L: Link, R: Wait>(
    rt: &R,
    shared: &Shared<Room<K>>,
    pass: Pass,
    clock: &mut C,
    link: &mut L,
) -> (WorkerTurn, Pass)
    requires lock { lock_of pass ≡ id_of shared.now }
    ensures lock { lock_of result.1 ≡ lock_of pass }
    // what is answered, found, left, sent, said and read are those of one round
    ensures round { (r : Round) × (result.0 ≡ answer_of r.deed)
        × Went round_calls (round_holds (base_of shared.now) (L.link.serves link.old)) (Stands K.keeper (start_of shared.now))
        (front pass) (calls pass) (front result.1) (calls result.1) (r ∷ [])
        × (L.link.tells link.old → Passes L.link link.old link.new (deed_frames r.deed) (deed_replies r.deed) (deed_passed r.deed))
        × (C.clock.tells clock.old → Reads C.clock clock.old clock.new (deed_readings r.deed)) }
    ensures link_faults { CountsFaults (is_link_lost result.0) (L.link.faults link.old) (L.link.faults link.new) }
    ensures serves { L.link.serves link.new ≡ L.link.serves link.old }
{
    let now = clock.now();
    let (step, pass) = claim(rt, shared, pass, now, link.names());
    let claimed = match step {
        Step::Stopping { place } => return (WorkerTurn::Stopping { place }, pass),
        Step::Claimed(claimed) => claimed,
    };
    match exchange(link, claimed) {
        Ok(receipt) => {
            let later = clock.now();
            let (worked, pass) = keep(rt, shared, pass, later, receipt);
            (WorkerTurn::Worked(worked), pass)
        }
        Err(worked) => (WorkerTurn::Worked(worked), pass),
    }
}

/// Looks for a stop and claims where there is none, in one turn of the lock.
fn claim<K: Keeper + Drop, R: Wait>(
    rt: &R,
    shared: &Shared<Room<K>>,
    pass: Pass,
    now: u64,
    names: &[Name],
) -> (Step, Pass)
    requires lock { lock_of pass ≡ id_of shared.now }
    ensures lock { lock_of result.1 ≡ lock_of pass }
    ensures stood { SomeBook K.keeper (start_of shared.now) }
    ensures turn { (c : Call) × IsTurn (front pass) (calls pass) (front result.1) (calls result.1) c
        × ((b : Book) → Stands K.keeper (start_of shared.now) b
        → Took now names.now (base_of shared.now) (found_by c b (front result.1)) result.0 (left_by c b (front result.1))) }
{
    let mut claiming = Claiming {
        now,
        names,
        base: shared.base(),
        step: Step::Stopping { place: 0 },
    };
    let pass = shared.with_turn_among(rt, pass, &mut claiming);
    (claiming.step, pass)
}

/// Brings a receipt to the room, in one turn of the lock.
fn keep<K: Keeper + Drop, R: Wait>(
    rt: &R,
    shared: &Shared<Room<K>>,
    pass: Pass,
    now: u64,
    receipt: Receipt,
) -> (Worked, Pass)
    requires lock { lock_of pass ≡ id_of shared.now }
    requires receipt { IsReceiptFor receipt.subscriber receipt.k receipt.n receipt.reply }
    requires there { (b : Book) → Stands K.keeper (start_of shared.now) b
        → is_subscriber (onto (front pass) b).list receipt.subscriber ≡ true }
    ensures lock { lock_of result.1 ≡ lock_of pass }
    ensures turn { (c : Call) × (kept : Kept)
        × (result.0 ≡ word_of_receipt receipt.subscriber receipt.k receipt.reply receipt.n kept)
        × IsTurn (front pass) (calls pass) (front result.1) (calls result.1) c
        × ((b : Book) → Stands K.keeper (start_of shared.now) b
        → Brought receipt.subscriber receipt.k receipt.reply receipt.n now kept ((found_by c b (front result.1), left_by c b (front result.1)) ∷ [])) }
{
    let Receipt {
        subscriber,
        k,
        n,
        reply,
    } = receipt;
    let mut keeping = Keeping {
        now,
        subscriber,
        n,
        kept: Kept::Fault,
    };
    let pass = shared.with_turn_among(rt, pass, &mut keeping);
    (worked_of(subscriber, k, n, reply, keeping.kept), pass)
}

/// What a turn has come to where the room gave this answer to its receipt.
fn worked_of(subscriber: Name, k: u32, n: u32, reply: Line, kept: Kept) -> Worked
    ensures { result ≡ word_of_receipt subscriber k reply n kept }
{
    match kept {
        Kept::Done(_) => Worked::Delivered { subscriber, k, n },
        Kept::Denied(_) => Worked::NoReceipt {
            subscriber,
            k,
            reply,
        },
        Kept::Fault => Worked::StoreFault,
        Kept::Full { size, length } => Worked::Full { size, length },
    }
}
