//! The laws of the bytes of segments.

ghost use Rattle.std.specs.Prelude.{◌≡◌, List};
ghost use Rattle.news_types.specs.declared.entry.Entry.{Entry};
ghost use Rattle.entry_segments.specs.declared.segment.Segment.{Segment};
ghost use Rattle.news_types.specs.Names.{AreInOrder};
ghost use Rattle.entry_segments.specs.Segment.{names_of};
ghost use Rattle.entry_segments.specs.Reading.{segment_bytes};
ghost use Rattle.entry_segments.specs.Answers.{IsWhole};

/// No two segments have the same bytes.
pub fn one_segment_law()
    ensures { (a b : Segment) → IsWhole a → IsWhole b → segment_bytes a ≡ segment_bytes b → a ≡ b }
{}

/// The names of entries are in byte order, none twice.
pub fn names_law()
    ensures { (es : List Entry) → AreInOrder (names_of es) }
{}
