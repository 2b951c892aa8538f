// The whole input is one item, or a list of items.
ghost use Rattle.std.specs.Prelude.{◌≡◌, ◌∷◌, [], List, All, IfOk, take};
ghost use Rattle.news_types.specs.Fits.{FitsIncoming};
ghost use Rattle.line_run.specs.Turns.{Did, Causes};
ghost use Rattle.wire_run.specs.Reading.{ENOUGH};
ghost use Rattle.agency_items.specs.Items.{items};
ghost use Rattle.agency_runs.specs.Members.{of_read};

use crate::faults::item_fault;
use agency_items::{ItemFault, read_items};
use line_run::{Ending, Members};
use news_io::Sink;
use news_types::Incoming;
use std::alloc::Global;
use wire_run::{Ingesting, extend_item, pass_on};

/// Answers an item, and passes its answer on.
fn answer_item<O: Sink, A: Ingesting>(
    alloc: Global,
    told: Result<Incoming, ItemFault>,
    output: &mut O,
    desk: &mut A,
) -> Result<(), Ending>
    requires stands { (shelf : A.Shelf) × ((h : List A.Entry) × (A.life shelf).stands desk.old h) }
    requires fits { IfOk told FitsIncoming }
    ensures did { (shelf : A.Shelf) (h : List A.Entry) → (A.life shelf).stands desk.old h → Did (of_read (A.meaning shelf)) (A.life shelf) O.sink desk.old desk.new output.old output.new h (told ∷ []) result }
    ensures causes { Causes (A.faults desk.old) (A.faults desk.new) (O.sink.faults output.old) (O.sink.faults output.new) result }
{
    match told {
        Ok(incoming) => pass_on(output, desk.ingest(incoming)),
        Err(fault) => pass_on(output, item_fault(alloc, fault)),
    }
}

/// Answers these items, one after the other.
fn answer_each<O: Sink, A: Ingesting>(
    alloc: Global,
    members: Vec<Result<Incoming, ItemFault>>,
    output: &mut O,
    desk: &mut A,
) -> Result<(), Ending>
    requires stands { (shelf : A.Shelf) × ((h : List A.Entry) × (A.life shelf).stands desk.old h) }
    requires fits { All (λ told. IfOk told FitsIncoming) members.items }
    ensures did { (shelf : A.Shelf) (h : List A.Entry) → (A.life shelf).stands desk.old h → Did (of_read (A.meaning shelf)) (A.life shelf) O.sink desk.old desk.new output.old output.new h members.items result }
    ensures causes { Causes (A.faults desk.old) (A.faults desk.new) (O.sink.faults output.old) (O.sink.faults output.new) result }
{
    for told in members {
        if let Err(why) = answer_item(alloc, told, output, desk) {
            return Err(why);
        }
    }
    Ok(())
}

/// Answers the items that these bytes are.
fn answer_bytes<O: Sink, A: Ingesting>(
    alloc: Global,
    bytes: &[u8],
    output: &mut O,
    desk: &mut A,
) -> Result<(), Ending>
    requires stands { (shelf : A.Shelf) × ((h : List A.Entry) × (A.life shelf).stands desk.old h) }
    ensures did { (shelf : A.Shelf) (h : List A.Entry) → (A.life shelf).stands desk.old h → Did (of_read (A.meaning shelf)) (A.life shelf) O.sink desk.old desk.new output.old output.new h (items bytes.now) result }
    ensures causes { Causes (A.faults desk.old) (A.faults desk.new) (O.sink.faults output.old) (O.sink.faults output.new) result }
{
    let Ok(members) = read_items(alloc, bytes) else {
        return Err(Ending::Memory);
    };
    answer_each(alloc, members, output, desk)
}

/// The items that an input is, with what answers them.
#[derive(Drop)]
pub(crate) struct ItemMembers<'a, A> {
    pub(crate) alloc: Global,
    /// The first bytes of the input, as many as matter.
    pub(crate) kept: &'a mut Vec<u8>,
    pub(crate) desk: &'a mut A,
}

impl<A: Ingesting> Members for ItemMembers<'_, A> {
    ghost use Rattle.std.specs.Prelude.{refl, Result};
    ghost use Rattle.news_types.specs.declared.story.Incoming.{Incoming};
    ghost use Rattle.agency_items.specs.declared.fault.ItemFault.{ItemFault};
    ghost use Rattle.line_run.specs.Along.{Hand, along};
    ghost use Rattle.agency_runs.specs.Members.{no_item};

    ghost Member = { Result Incoming ItemFault };

    ghost Entry = { A.Entry };

    ghost Left = { A.Found };

    ghost Shelf = { Hand A.Shelf };

    ghost faults = { λ m. A.faults m.desk.now };

    ghost life = { λ s. along (A.life s.shelf) (λ m. m.desk.now) (λ m. m.desk.ghost_name ≡ s.name) };

    ghost meaning = { λ s. of_read (A.meaning s.shelf) };

    ghost decided = { λ _. no_item };

    ghost all = { λ _. items };

    ghost has_read = { λ m read. m.kept.now.items ≡ take ENOUGH read };

    fn answer_piece<O: Sink>(&mut self, piece: &[u8], _output: &mut O) -> Result<(), Ending> {
        if let Err(_) = extend_item(self.kept, piece) {
            return Err(Ending::Memory);
        }
        Ok(())
    }

    fn answer_end<O: Sink>(&mut self, output: &mut O) -> Result<(), Ending> {
        answer_bytes(self.alloc, self.kept.as_slice(), output, self.desk)
    }

    ghost none = { λ _. refl };
}
