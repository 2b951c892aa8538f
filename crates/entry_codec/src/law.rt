//! The laws of the bytes of entries.

ghost use Rattle.std.specs.Prelude.{◌≡◌, ◌<◌, length};
ghost use Rattle.news_types.specs.declared.entry.Entry.{Entry};
ghost use Rattle.entry_codec.specs.Spelling.{entry_bytes};
ghost use Rattle.entry_codec.specs.Formed.{IsEntry};

/// No two entries have the same bytes.
pub fn one_spelling_law()
    ensures { (a b : Entry) → IsEntry a → IsEntry b → entry_bytes a ≡ entry_bytes b → a ≡ b }
{}

/// An entry's bytes are fewer than 2097088, so the record and a frame round it stay below 2 MiB.
pub fn record_size_law()
    ensures { (e : Entry) → IsEntry e → length (entry_bytes e) < 2097088 }
{}
