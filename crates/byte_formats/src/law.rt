//! The laws of the fields.

ghost use Rattle.std.specs.Prelude.{◌≡◌, ℕ, ◌<◌, ◌≤◌, ◌^◌, List, length};
ghost use Rattle.std.specs.Int.{w16, w32, w64};
ghost use Rattle.byte_formats.specs.Format.{whole, upto, ranged, free};
ghost use Rattle.byte_formats.specs.Fields.{name, text, flag};
ghost use Rattle.byte_formats.specs.Until.{word, numeral, literal};
ghost use Rattle.byte_formats.specs.Varint.{varint};
ghost use Rattle.byte_formats.specs.Lawful.{IsBytes, Lawful};
ghost use Rattle.byte_formats.specs.Spelling.{IsName, IsText};

/// What the readers read is what is so spelled: each value's bytes are read again, what is read is
/// so spelled, and a fault is at the first byte with which no value's bytes go on.
pub fn fields_law()
    ensures bytes { (least most : ℕ) → least ≤ most → Lawful (ranged least most) (λ b. (least ≤ b) × (b ≤ most)) }
    ensures u32 { Lawful (whole w32) (λ n. n < 2 ^ 32) }
    ensures u64 { Lawful (whole w64) (λ n. n < 2 ^ 64) }
    ensures u16_upto { (most : ℕ) → most < 2 ^ 16 → Lawful (upto w16 most) (λ n. n ≤ most) }
    ensures u32_upto { (most : ℕ) → most < 2 ^ 32 → Lawful (upto w32 most) (λ n. n ≤ most) }
    ensures u64_upto { (most : ℕ) → most < 2 ^ 64 → Lawful (upto w64 most) (λ n. n ≤ most) }
    ensures varints { (most : ℕ) → most < 2 ^ 64 → Lawful (varint most) (λ n. n ≤ most) }
    ensures flags { Lawful flag (λ _. Unit {0}) }
    ensures names { Lawful name IsName }
    ensures texts { (limit : ℕ) → limit < 2 ^ 32 → Lawful (text limit) (IsText limit) }
    ensures pieces { (n : ℕ) → Lawful (free n) (λ x. (length x ≡ n) × IsBytes x) }
    ensures words { Lawful word IsName }
    ensures literals { (these : List ℕ) → IsBytes these → Lawful (literal these) (λ _. Unit {0}) }
    ensures numerals { (stop least most : ℕ) → stop < 48 → least ≤ 1 → least ≤ most → most < 2 ^ 64 →
        Lawful (numeral stop least most) (λ n. (least ≤ n) × (n ≤ most)) }
{}
