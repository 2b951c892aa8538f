//! The laws of segments, as a side holds them, and of files that open to a list.
ghost use Rattle.std.specs.Prelude.{◌≡◌, ℕ, List, length, map, Some, None};
ghost use Rattle.news_types.specs.Names.{Bytes};
ghost use Rattle.news_types.specs.Members.{Each};
ghost use Rattle.news_types.specs.declared.entry.Entry.{Entry};
ghost use Rattle.byte_formats.specs.Lawful.{IsBytes};
ghost use Rattle.entry_codec.specs.Formed.{IsEntry};
ghost use Rattle.entry_codec.specs.Spelling.{entry_bytes};
ghost use Rattle.entry_segments.specs.Segment.{segment, InTime, IsSegment};
ghost use Rattle.news_pair.specs.Damage.{pair_damage};
ghost use Rattle.news_pair.specs.Packing.{pack_damage};
ghost use Rattle.news_pair.specs.Pair.{PairOpens};
ghost use Rattle.news_pair.specs.Segments.{segment_in};

/// A segment's bytes hold its base and the payloads of its entries.
pub fn segment_law()
    ensures { (base : ℕ) (es : List Entry) → IsSegment base es → segment_in (segment base es) ≡ Some (base, map entry_bytes es) }
{}

/// Bytes that hold a segment are that segment's.
pub fn only_segment_law()
    ensures { (bytes : List ℕ) (base : ℕ) (list : List Bytes) → IsBytes bytes → segment_in bytes ≡ Some (base, list) → (es : List Entry) × IsSegment base es × (bytes ≡ segment base es) × (list ≡ map entry_bytes es) }
{}

/// Two files that open to entries are not damaged.
pub fn undamaged_law()
    ensures { (store : Bytes) (log side : List ℕ) (es : List Entry) → length store ≡ 16 → Each IsEntry es → PairOpens store log side (map entry_bytes es) → pair_damage log side ≡ None }
{}

/// Where their moments do not fall, the log can be packed.
pub fn packable_law()
    ensures { (store : Bytes) (log side : List ℕ) (es : List Entry) → length store ≡ 16 → Each IsEntry es → InTime 0 es → PairOpens store log side (map entry_bytes es) → pack_damage log ≡ None }
{}
