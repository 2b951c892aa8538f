//! The moves of one turn: draw, look, take, count, put back, pass on.
ghost use Rattle.std.specs.Prelude.{◌≡◌, ℕ, ◌<◌, ◌+◌, ◌^◌, List, [], ◌∷◌, Some, None, length};
ghost use mathlib.Core.List.{IsPrefix};
ghost use Rattle.news_types.specs.declared.entry.Entry.{Entry};
ghost use Rattle.news_types.specs.Books.{Book};
ghost use Rattle.room_lock.specs.Calls.{InOrder};
ghost use Rattle.room_lock.specs.Views.{rank, waiting, turning, counted};
ghost use Rattle.room_lock.specs.Rules.{Since};

use crate::pass::Pass;
use crate::rule::{Count, Draw, Finding, Look, Opening, PassOn};
use crate::shared::Shared;
use crate::view::View;
use atomic_table::Seat;
use news_types::StandsFor;
use std::hint::spin_loop;
use std::marker::Brand;
use std::snapshot::Snapshot;
use std::sync::Wait;
use std::thread::yield_now;

// The words of the table, and its one slot.
pub(crate) const TICKET: usize = 0;

const SERVING: usize = 1;

const COUNT: usize = 2;

const ROOM: usize = 0;

// How often a seat that is next looks before it sleeps.
const LOOKS: u32 = 1_000;

pub(crate) type Place<T> = Seat<Option<T>, View>;

impl<T: StandsFor + Drop> Shared<T> {
    ghost use Rattle.room_lock.specs.Locks.{front, calls, lock_of, id_of, start_of};

    // Draws a ticket. Where the last number is reached it waits on, since the next would be 0 again.
    fn draw(&self, rt: &impl Wait, seat: &mut Place<T>) -> u64
        requires lock { seat.old.table_id ≡ id_of self.now }
        requires rests { rank seat.old.me.0.stage ≡ 0 }
        ensures lock { seat.new.table_id ≡ seat.old.table_id }
        ensures drawn { seat.new.me ≡ (waiting seat.old.me.0 result, seat.old.me.1) }
    {
        let shared = &self.table.shared;
        for _ in rt.forever() {
            let next = shared.peek(TICKET);
            if next < u64::MAX
                && shared.compare_exchange::<Draw>(seat, TICKET, next, next + 1) == next
            {
                return next;
            }
            yield_now();
        }
        unreachable!()
    }

    // Waits until the ticket is served. The value is then this seat's to take. A seat that is not yet
    // served sleeps until another passes on: that one may wait for a disk.
    fn look<O: Opening>(&self, rt: &impl Wait, seat: &mut Place<T>, ticket: u64)
        requires lock { seat.old.table_id ≡ id_of self.now }
        requires waits { (rank seat.old.me.0.stage ≡ 1) × (seat.old.me.0.ticket ≡ ticket)
            × (seat.old.me.1 ≡ []) }
        requires books { ((b : Book) → O.books b → T.stands (start_of self.now) b)
            × ((b : Book) → T.stands (start_of self.now) b → O.books b) }
        ensures lock { seat.new.table_id ≡ seat.old.table_id }
        ensures served { (room : T) × (h : List Entry)
            × (seat.new.me ≡ (turning seat.old.me.0 h, (0, Some room) ∷ []))
            × Since T.stands O.books room h × IsPrefix seat.old.me.0.front h }
    {
        let shared = &self.table.shared;
        for _ in rt.forever() {
            let served = shared.load::<Look<O>>(seat, SERVING);
            if served == ticket {
                return;
            }
            self.wait_for(rt, served, ticket);
        }
        unreachable!()
    }

    // Waits for somebody to pass on. A seat that is next looks for a while, since a turn is mostly short, and then sleeps.
    fn wait_for(&self, rt: &impl Wait, served: u64, ticket: u64) {
        let shared = &self.table.shared;
        if ticket.wrapping_sub(served) == 1 {
            for _ in 0..LOOKS {
                if shared.peek(SERVING) != served {
                    return;
                }
                spin_loop();
            }
        }
        shared.park(rt, SERVING, (served % (1 << 32)) as u32);
    }

    // Begins a turn: the value is out of its slot, and the seat has seen all for which it stands.
    pub(crate) fn enter(&self, rt: &impl Wait, pass: Pass) -> (Place<T>, T)
        requires lock { lock_of pass ≡ id_of self.now }
        ensures lock { result.0.table_id ≡ lock_of pass }
        ensures room { Since T.stands (T.stands (start_of self.now)) result.1 result.0.me.0.front
            × IsPrefix (front pass) result.0.me.0.front }
        ensures seat { (rank result.0.me.0.stage ≡ 2) × (result.0.me.0.calls ≡ calls pass)
            × (result.0.me.1 ≡ (0, None) ∷ []) }
    {
        let Pass { badge } = pass;
        let mut seat: Place<T> = badge.into_seat();
        let ticket = self.draw(rt, &mut seat);
        self.look::<Brand>(rt, &mut seat, ticket);
        let room = self.table.shared.exchange(&mut seat, ROOM, None).unwrap();
        (seat, room)
    }

    // Counts in what the turn added. The arguments behind `added` are there for the finding alone,
    // which can name nothing else.
    pub(crate) fn count<F: Finding, W>(
        &self,
        seat: &mut Place<T>,
        added: u64,
        _found: &Snapshot<T>,
        _room: &T,
        _began: &Snapshot<W>,
        _work: &W,
    )
        requires lock { seat.old.table_id ≡ id_of self.now }
        requires turn { rank seat.old.me.0.stage ≡ 2 }
        requires list { (g : List Entry) × F.holds g × IsPrefix seat.old.me.0.front g
            × (length seat.old.me.0.front + added ≡ length g) × (length g < 2 ^ 64) }
        ensures lock { seat.new.table_id ≡ seat.old.table_id }
        ensures list { (g : List Entry) × F.holds g
            × (seat.new.me ≡ (counted seat.old.me.0 g F.before F.after, seat.old.me.1))
            × InOrder 0 seat.new.me.0.calls (length g) }
    {
        self.table.shared.fetch_add::<Count<F>>(seat, COUNT, added);
    }

    // Ends a turn: puts the value back, and only then passes on.
    pub(crate) fn leave(&self, mut seat: Place<T>, room: T) -> Pass
        requires lock { seat.table_id ≡ id_of self.now }
        requires turn { (rank seat.me.0.stage ≡ 2) × (seat.me.1 ≡ (0, None) ∷ []) }
        requires room { Since T.stands (T.stands (start_of self.now)) room seat.me.0.front }
        ensures lock { lock_of result ≡ seat.table_id }
        ensures pass { (front result ≡ seat.me.0.front) × (calls result ≡ seat.me.0.calls) }
    {
        let shared = &self.table.shared;
        drop(shared.exchange(&mut seat, ROOM, Some(room)));
        let served = shared.fetch_add::<PassOn>(&mut seat, SERVING, 1);
        // Who draws a ticket behind this look sees the new number.
        if shared.peek(TICKET) != served.wrapping_add(1) {
            shared.wake_all(SERVING);
        }
        Pass {
            badge: seat.into_badge(),
        }
    }
}
