//! Words of one byte each, numbered in the order of their variants, and privileges.

ghost use Rattle.std.specs.Prelude.{◌≡◌};
ghost use Rattle.byte_formats.specs.Gives.{Gives};
ghost use Rattle.entry_codec.specs.Spelling.{media_number, status_number, field_number, op_number, how_number, format_number};
ghost use Rattle.entry_codec.specs.Reading.{kind_at, status_at, field_at, op_at, how_at, feed_format_at, privileges_at};

use byte_formats::{Input, Stopped};
use news_types::{Field, Format, How, Media, Op, Privileges, PubStatus};

/// Reads the kind of a story.
#[tactic(auto, unfolding(crate::specs::Reading::kind_at))]
pub fn kind(input: &mut Input) -> Result<Media, Stopped>
    ensures { Gives result input.new (kind_at input.old) }
{
    match input.byte(0, 5)? {
        0 => Ok(Media::Text),
        1 => Ok(Media::Audio),
        2 => Ok(Media::Video),
        3 => Ok(Media::Picture),
        4 => Ok(Media::Graphic),
        _ => Ok(Media::Composite),
    }
}

/// The byte that says the kind of a story.
pub fn kind_byte(kind: Media) -> u8
    ensures { result ≡ media_number kind }
{
    kind as u8
}

/// Reads whether what comes in may be used.
#[tactic(auto, unfolding(crate::specs::Reading::status_at))]
pub fn status(input: &mut Input) -> Result<PubStatus, Stopped>
    ensures { Gives result input.new (status_at input.old) }
{
    match input.byte(0, 2)? {
        0 => Ok(PubStatus::Usable),
        1 => Ok(PubStatus::Withheld),
        _ => Ok(PubStatus::Canceled),
    }
}

/// The byte that says whether what comes in may be used.
pub fn status_byte(status: PubStatus) -> u8
    ensures { result ≡ status_number status }
{
    status as u8
}

/// Reads what a condition reads.
#[tactic(auto, unfolding(crate::specs::Reading::field_at))]
pub fn field(input: &mut Input) -> Result<Field, Stopped>
    ensures { Gives result input.new (field_at input.old) }
{
    match input.byte(0, 7)? {
        0 => Ok(Field::Slugline),
        1 => Ok(Field::Headline),
        2 => Ok(Field::Byline),
        3 => Ok(Field::Language),
        4 => Ok(Field::Category),
        5 => Ok(Field::Body),
        6 => Ok(Field::Urgency),
        _ => Ok(Field::Kind),
    }
}

/// The byte that says what a condition reads.
pub fn field_byte(field: Field) -> u8
    ensures { result ≡ field_number field }
{
    field as u8
}

/// Reads how a condition compares.
#[tactic(auto, unfolding(crate::specs::Reading::op_at))]
pub fn op(input: &mut Input) -> Result<Op, Stopped>
    ensures { Gives result input.new (op_at input.old) }
{
    match input.byte(0, 11)? {
        0 => Ok(Op::Eq),
        1 => Ok(Op::Ne),
        2 => Ok(Op::Within),
        3 => Ok(Op::Nin),
        4 => Ok(Op::Like),
        5 => Ok(Op::NotLike),
        6 => Ok(Op::StartsWith),
        7 => Ok(Op::EndsWith),
        8 => Ok(Op::Lt),
        9 => Ok(Op::Lte),
        10 => Ok(Op::Gt),
        _ => Ok(Op::Gte),
    }
}

/// The byte that says how a condition compares.
pub fn op_byte(op: Op) -> u8
    ensures { result ≡ op_number op }
{
    op as u8
}

/// Reads how a product selects.
#[tactic(auto, unfolding(crate::specs::Reading::how_at))]
pub fn how(input: &mut Input) -> Result<How, Stopped>
    ensures { Gives result input.new (how_at input.old) }
{
    match input.byte(0, 1)? {
        0 => Ok(How::Permitting),
        _ => Ok(How::Blocking),
    }
}

/// The byte that says how a product selects.
pub fn how_byte(how: How) -> u8
    ensures { result ≡ how_number how }
{
    how as u8
}

/// Reads the form of a feed.
#[tactic(auto, unfolding(crate::specs::Reading::feed_format_at))]
pub fn feed_format(input: &mut Input) -> Result<Format, Stopped>
    ensures { Gives result input.new (feed_format_at input.old) }
{
    match input.byte(0, 1)? {
        0 => Ok(Format::Ninjs),
        _ => Ok(Format::Text7901),
    }
}

/// The byte that says the form of a feed.
pub fn feed_format_byte(feed_format: Format) -> u8
    ensures { result ≡ format_number feed_format }
{
    feed_format as u8
}

/// Reads a set of privileges.
#[tactic(auto, unfolding(crate::specs::Reading::privileges_at))]
pub fn privileges(input: &mut Input) -> Result<Privileges, Stopped>
    ensures { Gives result input.new (privileges_at input.old) }
{
    Ok(Privileges {
        bits: input.u16_upto(1023)?,
    })
}
