// The lines of an input, as its members.
use crate::loops::{answer_piece, answer_some};
use crate::{Answering, Ending, Members};
use news_io::Sink;

/// The lines of an input, with what answers them.
#[derive(Drop)]
pub(crate) struct LineMembers<'a, A> {
    /// What stands behind the last line feed, as far as it matters.
    pub(crate) line: &'a mut Vec<u8>,
    /// The longest line, in bytes without its end.
    pub(crate) longest: u32,
    pub(crate) machine: &'a mut A,
}

impl<A: Answering> Members for LineMembers<'_, A> {
    ghost use Rattle.std.specs.Prelude.{◌≡◌, ◌+◌, [], take, refl};
    ghost use Rattle.input_lines.specs.Lines.{Line, ended, lines, open_from};
    ghost use Rattle.line_run.specs.Along.{along};
    ghost use Rattle.line_run.specs.LineShelf.{LineShelf};

    ghost Member = { Line };

    ghost Entry = { A.Entry };

    ghost Left = { A.Found };

    ghost Shelf = { LineShelf A.Shelf };

    ghost faults = { λ m. A.faults m.machine.now };

    ghost life = { λ s. along (A.life s.shelf) (λ m. m.machine.now) (λ m. (m.machine.ghost_name ≡ s.machine) × (m.longest ≡ s.longest)) };

    ghost meaning = { λ s. A.meaning s.shelf };

    ghost decided = { λ s. ended s.longest };

    ghost all = { λ s. lines s.longest };

    ghost has_read = { λ m read. m.line.now.items ≡ take (m.longest + 2) (open_from [] read) };

    fn answer_piece<O: Sink>(&mut self, piece: &[u8], output: &mut O) -> Result<(), Ending> {
        answer_piece(self.line, piece, self.longest, output, self.machine)
    }

    fn answer_end<O: Sink>(&mut self, output: &mut O) -> Result<(), Ending> {
        answer_some(self.line.as_slice(), self.longest, output, self.machine)
    }

    ghost none = { λ _. refl };
}
