//! The lock.
ghost use Rattle.std.specs.Prelude.{◌≡◌, ◌⊎◌, List, [], ◌∷◌, ◌++◌, IfOk, IfErr, length};
ghost use mathlib.Core.List.{IsPrefix};
ghost use Rattle.news_types.specs.declared.entry.Entry.{Entry};
ghost use Rattle.news_types.specs.Books.{Book, onto};
ghost use Rattle.room_lock.specs.Calls.{InOrder, AllClear, merged, longer};
ghost use Rattle.room_lock.specs.Passes.{IsTurn, Lent, found_by, left_by};
ghost use Rattle.room_lock.specs.declared.view.Call.{Call};

use crate::gate::Gate;
use crate::pass::Pass;
use crate::rule::{Divide, OneHistory, Recall, Unite};
use crate::turn::{Place, TICKET};
use crate::view::View;
use crate::work::Work;
use atomic_table::{Refused, Table};
use news_types::{Memory, StandsFor};
use std::alloc::Global;
use std::marker::Brand;
use std::snapshot::Snapshot;
use std::sync::Wait;

/// A value, as a room, that threads take turns with.
///
/// Turns come in the order in which their tickets were drawn. Nothing is promised of when a turn comes.
#[derive(Drop)]
pub struct Shared<T: StandsFor> {
    pub(crate) table: Table<Option<T>, View, Snapshot<T>, OneHistory, Global>,
    base: u64,
    gate: Gate,
    ghost sized: { (table.shared.table_id.words ≡ 3) × (table.shared.table_id.slots ≡ 1) },
}

impl<T: StandsFor + Drop> Shared<T> {
    ghost use Rattle.room_lock.specs.Locks.{front, calls, lock_of, id_of, start_of, base_of};

    /// Makes the lock around a value. The history begins with what the value stands for, and the one
    /// pass has seen that and made no calls.
    ///
    /// # Errors
    ///
    /// Where there is no memory the value comes back as it was.
    pub fn new(alloc: Global, first: T) -> Result<(Shared<T>, Pass), (T, Memory)>
        requires stands { (b : Book) × T.stands first b }
        ensures start { IfOk result (λ made. start_of made.0 ≡ first) }
        ensures base { IfOk result (λ made. (b : Book) → T.stands first b
            → base_of made.0 ≡ length b.list) }
        ensures pass { IfOk result (λ made. (lock_of made.1 ≡ id_of made.0)
            × (front made.1 ≡ []) × (calls made.1 ≡ [])) }
        ensures memory { IfErr result (λ refused. refused.0 ≡ first) }
    {
        let base = first.count();
        let opening = Snapshot::of(&first);
        let Ok(mut slots) = Vec::with_capacity(alloc, 1) else {
            return Err((first, Memory));
        };
        slots.push_reserved(Some(first));
        match Table::new(alloc, &[0, 0, 0], slots, &opening) {
            Ok((table, seat)) => {
                let pass = Pass {
                    badge: seat.into_badge(),
                };
                Ok((
                    Shared {
                        table,
                        base,
                        gate: Gate::new(),
                    },
                    pass,
                ))
            }
            Err(Refused { mut slots }) => {
                let first = slots.pop().unwrap().unwrap();
                Err((first, Memory))
            }
        }
    }

    /// The number of entries when the lock was made.
    pub fn base(&self) -> u64
        ensures { result ≡ base_of self.now }
    {
        self.base
    }

    /// Takes one turn: waits for the value, runs the work on it once, and puts it back.
    ///
    /// The value is lent where it stands for a history that begins with the pass's front. The returned
    /// pass has seen what the value stands for afterwards, and has one call more.
    pub fn with_turn<W: Work<T>>(&self, rt: &impl Wait, pass: Pass, work: &mut W) -> Pass
        requires lock { lock_of pass ≡ id_of self.now }
        ensures lock { lock_of result ≡ lock_of pass }
        ensures order { InOrder 0 (calls result) (length (front result)) }
        // What the work says of its turn holds between what the call found and what it left.
        ensures turn { (c : Call)
            × IsTurn (front pass) (calls pass) (front result) (calls result) c
            × ((b : Book) → T.stands (start_of self.now) b
            → W.does work.old (found_by c b (front result)) work.new (left_by c b (front result))) }
        // The value stood for these, and the numbers beside the call are its own.
        ensures lent { (c : Call) × (calls result ≡ calls pass ++ c ∷ [])
            × Lent T.stands T.faults T.used (T.stands (start_of self.now)) (front result) c }
        // The value with which the lock was made stood for something.
        ensures stood { (b : Book) × T.stands (start_of self.now) b }
    {
        let (mut seat, mut room) = self.enter(rt, pass);
        let from = room.count();
        let found = Snapshot::of(&room);
        let began = Snapshot::of(&*work);
        work.turn(&mut room);
        let to = room.count();
        self.count::<Brand, W>(&mut seat, to - from, &found, &room, &began, work);
        self.leave(seat, room)
    }

    /// Takes one turn as `with_turn` does, behind a gate that lets one thread through at a time. For threads that take
    /// turns again and again, so that the others find a short line.
    pub fn with_turn_among<W: Work<T>>(&self, rt: &impl Wait, pass: Pass, work: &mut W) -> Pass
        requires lock { lock_of pass ≡ id_of self.now }
        ensures lock { lock_of result ≡ lock_of pass }
        ensures order { InOrder 0 (calls result) (length (front result)) }
        // What the work says of its turn holds between what the call found and what it left.
        ensures turn { (c : Call)
            × IsTurn (front pass) (calls pass) (front result) (calls result) c
            × ((b : Book) → T.stands (start_of self.now) b
            → W.does work.old (found_by c b (front result)) work.new (left_by c b (front result))) }
        // The value stood for these, and the numbers beside the call are its own.
        ensures lent { (c : Call) × (calls result ≡ calls pass ++ c ∷ [])
            × Lent T.stands T.faults T.used (T.stands (start_of self.now)) (front result) c }
        // The value with which the lock was made stood for something.
        ensures stood { (b : Book) × T.stands (start_of self.now) b }
    {
        self.gate.enter(rt);
        let pass = self.with_turn(rt, pass, work);
        self.gate.leave();
        pass
    }

    /// Makes a second pass, which has seen as much and made no calls.
    ///
    /// # Errors
    ///
    /// The pass comes back as it was. This lock needs no memory for a pass and never answers so.
    pub fn split(&self, pass: Pass) -> Result<(Pass, Pass), (Pass, Memory)>
        requires lock { lock_of pass ≡ id_of self.now }
        ensures kept { IfOk result (λ both. (lock_of both.0 ≡ lock_of pass)
            × (front both.0 ≡ front pass) × (calls both.0 ≡ calls pass)) }
        ensures given { IfOk result (λ both. (lock_of both.1 ≡ lock_of pass)
            × (front both.1 ≡ front pass) × (calls both.1 ≡ [])) }
        ensures memory { IfErr result (λ refused. refused.0 ≡ pass) }
    {
        let Pass { badge } = pass;
        let mut seat: Place<T> = badge.into_seat();
        let given = self.table.shared.split_seat::<Divide>(&mut seat);
        let kept = Pass {
            badge: seat.into_badge(),
        };
        let given = Pass {
            badge: given.into_badge(),
        };
        Ok((kept, given))
    }

    /// Puts two passes together. It can't be refused.
    ///
    /// The pass has seen what the one of them had seen that had seen more, which begins with what the
    /// other had seen. It has the calls of both, in order, of which no two overlap.
    pub fn join(&self, one: Pass, other: Pass) -> Pass
        requires lock { (lock_of one ≡ id_of self.now) × (lock_of other ≡ id_of self.now) }
        ensures lock { lock_of result ≡ lock_of one }
        ensures front { (front result ≡ longer (front one) (front other))
            × IsPrefix (front one) (front result) × IsPrefix (front other) (front result) }
        ensures calls { (calls result ≡ merged (calls one) (calls other))
            × AllClear (calls one) (calls other) }
        ensures order { InOrder 0 (calls result) (length (front result)) }
    {
        let Pass { badge: one } = one;
        let Pass { badge: other } = other;
        let mut seat: Place<T> = one.into_seat();
        let shared = &self.table.shared;
        shared.join_seat::<Unite>(&mut seat, other.into_seat());
        // Joining tells nothing of how the two passes lie. A look at any word does.
        shared.load::<Recall>(&mut seat, TICKET);
        Pass {
            badge: seat.into_badge(),
        }
    }

    /// Takes a last turn and keeps the value, which stands for a history that begins with the pass's
    /// front.
    ///
    /// # Errors
    ///
    /// The lock comes back as it was, and the pass has at most one call more, which added nothing. This
    /// lock needs no memory to close and never answers so.
    pub fn close(self, rt: &impl Wait, pass: Pass) -> Result<T, (Shared<T>, Pass, Memory)>
        requires lock { lock_of pass ≡ id_of self }
        ensures room { IfOk result (λ room. (more : List Entry) × IsPrefix (front pass) more
            × ((b : Book) → T.stands (start_of self) b → T.stands room (onto more b))) }
        ensures memory { IfErr result (λ refused. (refused.0 ≡ self)
            × (lock_of refused.1 ≡ lock_of pass) × IsPrefix (front pass) (front refused.1)
            × ((refused.1 ≡ pass) ⊎ ((c : Call) × (c.from ≡ c.to)
            × IsTurn (front pass) (calls pass) (front refused.1) (calls refused.1) c))) }
    {
        let (_seat, room) = self.enter(rt, pass);
        Ok(room)
    }
}
