// The stories and faults of a wire are answered as soon as they are decided.
ghost use Rattle.std.specs.Prelude.{◌≡◌, ◌<◌, ◌+◌, ◌^◌, ◌++◌, [], ℕ, List, false, length, OnOk};
ghost use Rattle.line_run.specs.Members.{Adds, AddsLast};
ghost use Rattle.line_run.specs.Turns.{Did, Causes};
ghost use Rattle.text7901.specs.Gives.{IsUndecided};
ghost use Rattle.text7901.specs.Wire.{wire};
ghost use Rattle.wire_run.specs.Decided.{decided};
ghost use Rattle.wire_run.specs.Members.{of_found};
ghost use Rattle.wire_run.specs.Reading.{HasTaken};

use crate::Ingesting;
use crate::members::answer_found;
use line_run::{Ending, Members};
use news_io::Sink;
use std::alloc::Global;
use text7901::Reader;

/// Answers the members that the reader has ready.
fn answer_ready<O: Sink, A: Ingesting>(
    alloc: Global,
    reader: &mut Reader,
    output: &mut O,
    desk: &mut A,
) -> Result<(), Ending>
    requires stands { (shelf : A.Shelf) × ((h : List A.Entry) × (A.life shelf).stands desk.old h) }
    ensures rest { OnOk result (reader.new ≡ record reader.old { ready = [] }) }
    ensures undecided { OnOk result (IsUndecided reader.new) }
    ensures did { (shelf : A.Shelf) (h : List A.Entry) → (A.life shelf).stands desk.old h → Did (of_found (A.meaning shelf)) (A.life shelf) O.sink desk.old desk.new output.old output.new h reader.old.ready result }
    ensures causes { Causes (A.faults desk.old) (A.faults desk.new) (O.sink.faults output.old) (O.sink.faults output.new) result }
{
    while let Some(found) = reader.next() {
        if let Err(why) = answer_found(alloc, found, output, desk) {
            return Err(why);
        }
    }
    Ok(())
}

/// Answers the members that this piece decides.
fn answer_piece<O: Sink, A: Ingesting>(
    alloc: Global,
    reader: &mut Reader,
    piece: &[u8],
    output: &mut O,
    desk: &mut A,
) -> Result<(), Ending>
    requires stands { (shelf : A.Shelf) × ((h : List A.Entry) × (A.life shelf).stands desk.old h) }
    requires going { reader.old.ended ≡ false }
    requires fits { reader.old.at + length piece.now < 2 ^ 64 }
    ensures taken { (read : List ℕ) → HasTaken reader.old read → OnOk result (HasTaken reader.new (read ++ piece.now)) }
    ensures did { Adds decided (HasTaken reader.old) piece.now (λ members. (shelf : A.Shelf) (h : List A.Entry) → (A.life shelf).stands desk.old h → Did (of_found (A.meaning shelf)) (A.life shelf) O.sink desk.old desk.new output.old output.new h members result) }
    ensures causes { Causes (A.faults desk.old) (A.faults desk.new) (O.sink.faults output.old) (O.sink.faults output.new) result }
{
    if let Err(_) = reader.feed(piece) {
        return Err(Ending::Memory);
    }
    if let Err(why) = answer_ready(alloc, reader, output, desk) {
        return Err(why);
    }
    Ok(())
}

/// Answers the members that the end of the input decides.
fn answer_last<O: Sink, A: Ingesting>(
    alloc: Global,
    reader: &mut Reader,
    output: &mut O,
    desk: &mut A,
) -> Result<(), Ending>
    requires stands { (shelf : A.Shelf) × ((h : List A.Entry) × (A.life shelf).stands desk.old h) }
    ensures did { AddsLast decided wire (HasTaken reader.old) (λ members. (shelf : A.Shelf) (h : List A.Entry) → (A.life shelf).stands desk.old h → Did (of_found (A.meaning shelf)) (A.life shelf) O.sink desk.old desk.new output.old output.new h members result) }
    ensures causes { Causes (A.faults desk.old) (A.faults desk.new) (O.sink.faults output.old) (O.sink.faults output.new) result }
{
    if let Err(_) = reader.finish() {
        return Err(Ending::Memory);
    }
    if let Err(why) = answer_ready(alloc, reader, output, desk) {
        return Err(why);
    }
    Ok(())
}

/// The stories and faults of a wire, with what answers them.
#[derive(Drop)]
pub(crate) struct WireMembers<'a, A> {
    pub(crate) alloc: Global,
    pub(crate) reader: &'a mut Reader,
    pub(crate) desk: &'a mut A,
}

impl<A: Ingesting> Members for WireMembers<'_, A> {
    ghost use Rattle.std.specs.Prelude.{refl};
    ghost use Rattle.text7901.specs.declared.found.Found.{Found};
    ghost use Rattle.line_run.specs.Along.{Hand, along};

    ghost Member = { Found };

    ghost Entry = { A.Entry };

    ghost Left = { A.Found };

    ghost Shelf = { Hand A.Shelf };

    ghost faults = { λ m. A.faults m.desk.now };

    ghost life = { λ s. along (A.life s.shelf) (λ m. m.desk.now) (λ m. m.desk.ghost_name ≡ s.name) };

    ghost meaning = { λ s. of_found (A.meaning s.shelf) };

    ghost decided = { λ _. decided };

    ghost all = { λ _. wire };

    ghost has_read = { λ m. HasTaken m.reader.now };

    fn answer_piece<O: Sink>(&mut self, piece: &[u8], output: &mut O) -> Result<(), Ending> {
        answer_piece(self.alloc, self.reader, piece, output, self.desk)
    }

    fn answer_end<O: Sink>(&mut self, output: &mut O) -> Result<(), Ending> {
        answer_last(self.alloc, self.reader, output, self.desk)
    }

    ghost none = { λ _. refl };
}
