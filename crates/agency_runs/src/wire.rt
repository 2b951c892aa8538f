// The messages of a wire are answered as soon as they are decided.
ghost use Rattle.std.specs.Prelude.{◌≡◌, ◌<◌, ◌+◌, ◌^◌, ◌++◌, ◌∷◌, [], ℕ, List, All, length, OnOk};
ghost use Rattle.line_run.specs.Members.{Adds, AddsLast};
ghost use Rattle.line_run.specs.Turns.{Did, Causes};
ghost use Rattle.agency_wires.specs.Gives.{IsUndecided};
ghost use Rattle.agency_wires.specs.Messages.{messages};
ghost use Rattle.agency_runs.specs.Decided.{decided};
ghost use Rattle.agency_runs.specs.Places.{IsPlaced};
ghost use Rattle.agency_runs.specs.Reading.{HasTaken};

use crate::Receiving;
use agency_wires::{Found, Reader};
use line_run::{Ending, Members};
use news_io::Sink;
use std::alloc::Global;
use wire_run::pass_on;

/// Answers what was cut out of a wire, and passes its answer on.
fn answer_found<O: Sink, A: Receiving>(
    found: Found,
    output: &mut O,
    desk: &mut A,
) -> Result<(), Ending>
    requires stands { (shelf : A.Shelf) × ((h : List A.Entry) × (A.life shelf).stands desk.old h) }
    requires placed { IsPlaced found }
    ensures did { (shelf : A.Shelf) (h : List A.Entry) → (A.life shelf).stands desk.old h → Did (A.meaning shelf) (A.life shelf) O.sink desk.old desk.new output.old output.new h (found ∷ []) result }
    ensures causes { Causes (A.faults desk.old) (A.faults desk.new) (O.sink.faults output.old) (O.sink.faults output.new) result }
{
    pass_on(output, desk.receive(found))
}

/// Answers the messages that the reader has ready.
fn answer_ready<O: Sink, A: Receiving>(
    reader: &mut Reader,
    output: &mut O,
    desk: &mut A,
) -> Result<(), Ending>
    requires stands { (shelf : A.Shelf) × ((h : List A.Entry) × (A.life shelf).stands desk.old h) }
    requires placed { All IsPlaced reader.old.ready }
    ensures rest { OnOk result (reader.new ≡ record reader.old { ready = [] }) }
    ensures undecided { OnOk result (IsUndecided reader.new) }
    ensures did { (shelf : A.Shelf) (h : List A.Entry) → (A.life shelf).stands desk.old h → Did (A.meaning shelf) (A.life shelf) O.sink desk.old desk.new output.old output.new h reader.old.ready result }
    ensures causes { Causes (A.faults desk.old) (A.faults desk.new) (O.sink.faults output.old) (O.sink.faults output.new) result }
{
    while let Some(found) = reader.next() {
        if let Err(why) = answer_found(found, output, desk) {
            return Err(why);
        }
    }
    Ok(())
}

/// Answers the messages that this piece decides.
fn answer_piece<O: Sink, A: Receiving>(
    reader: &mut Reader,
    piece: &[u8],
    output: &mut O,
    desk: &mut A,
) -> Result<(), Ending>
    requires stands { (shelf : A.Shelf) × ((h : List A.Entry) × (A.life shelf).stands desk.old h) }
    requires taken { (read : List ℕ) × HasTaken reader.old read × (length read + length piece.now < 2 ^ 63) }
    ensures taken { (read : List ℕ) → HasTaken reader.old read → OnOk result (HasTaken reader.new (read ++ piece.now)) }
    ensures did { Adds decided (HasTaken reader.old) piece.now (λ members. (shelf : A.Shelf) (h : List A.Entry) → (A.life shelf).stands desk.old h → Did (A.meaning shelf) (A.life shelf) O.sink desk.old desk.new output.old output.new h members result) }
    ensures causes { Causes (A.faults desk.old) (A.faults desk.new) (O.sink.faults output.old) (O.sink.faults output.new) result }
{
    if let Err(_) = reader.feed(piece) {
        return Err(Ending::Memory);
    }
    if let Err(why) = answer_ready(reader, output, desk) {
        return Err(why);
    }
    Ok(())
}

/// Answers the messages that the end of the input decides.
fn answer_last<O: Sink, A: Receiving>(
    reader: &mut Reader,
    output: &mut O,
    desk: &mut A,
) -> Result<(), Ending>
    requires stands { (shelf : A.Shelf) × ((h : List A.Entry) × (A.life shelf).stands desk.old h) }
    requires taken { (read : List ℕ) × HasTaken reader.old read × (length read < 2 ^ 63) }
    ensures did { AddsLast decided messages (HasTaken reader.old) (λ members. (shelf : A.Shelf) (h : List A.Entry) → (A.life shelf).stands desk.old h → Did (A.meaning shelf) (A.life shelf) O.sink desk.old desk.new output.old output.new h members result) }
    ensures causes { Causes (A.faults desk.old) (A.faults desk.new) (O.sink.faults output.old) (O.sink.faults output.new) result }
{
    if let Err(_) = reader.finish() {
        return Err(Ending::Memory);
    }
    if let Err(why) = answer_ready(reader, output, desk) {
        return Err(why);
    }
    Ok(())
}

/// The messages of a wire, with what answers them.
#[derive(Drop)]
pub(crate) struct MessageMembers<'a, A> {
    pub(crate) reader: &'a mut Reader,
    pub(crate) desk: &'a mut A,
}

impl<A: Receiving> Members for MessageMembers<'_, A> {
    ghost use Rattle.std.specs.Prelude.{refl};
    ghost use Rattle.agency_wires.specs.declared.found.Found.{Found};
    ghost use Rattle.line_run.specs.Along.{Hand, along};

    ghost Member = { Found };

    ghost Entry = { A.Entry };

    ghost Left = { A.Left };

    ghost Shelf = { Hand A.Shelf };

    ghost faults = { λ m. A.faults m.desk.now };

    ghost life = { λ s. along (A.life s.shelf) (λ m. m.desk.now) (λ m. m.desk.ghost_name ≡ s.name) };

    ghost meaning = { λ s. A.meaning s.shelf };

    ghost decided = { λ _. decided };

    ghost all = { λ _. messages };

    ghost has_read = { λ m. HasTaken m.reader.now };

    fn answer_piece<O: Sink>(&mut self, piece: &[u8], output: &mut O) -> Result<(), Ending> {
        answer_piece(self.reader, piece, output, self.desk)
    }

    fn answer_end<O: Sink>(&mut self, output: &mut O) -> Result<(), Ending> {
        answer_last(self.reader, output, self.desk)
    }

    ghost none = { λ _. refl };
}
