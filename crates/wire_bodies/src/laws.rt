// What holds of the members of a body.
ghost use Rattle.std.specs.Prelude.{ℕ, List};
ghost use Rattle.news_types.specs.declared.entry.Entry.{Entry};
ghost use Rattle.news_types.specs.declared.story.Incoming.{Incoming};
ghost use Rattle.line_run.specs.Life.{Meaning};
ghost use Rattle.command_words.specs.declared.words.IngestFormat.{IngestFormat};
ghost use Rattle.wire_bodies.specs.Bodies.{IsIngested};

/// The members of a body are answered as the command `ingest` answers those of an input with the same bytes: one by one, with
/// the same lines and the same entries, whatever a story means at a list and a reading.
pub fn members_law()
    ensures { (M : Meaning Entry Incoming) (format : IngestFormat) (body : List ℕ) → IsIngested M format body }
{}
