//! The words of rows.
ghost use Rattle.std.specs.Prelude.{◌≡◌, ◌++◌, IfOk, OnOk};
ghost use Rattle.desk_questions.specs.Words as said;
ghost use Rattle.desk_questions.specs.Words.{register_word, format_word, how_word, field_word, op_word, status_word, course_word, word_if};

use desk_views::Register;
use feed_reasons::Course;
use news_types::{Field, Format, How, Memory, Op, Privileges, PubStatus, Text};
use std::alloc::Global;

/// A kind of things.
pub(crate) fn word_of_register(of: Register) -> &'static str
    ensures { result.now ≡ register_word of }
{
    match of {
        Register::Users => "users",
        Register::Desks => "desks",
        Register::Conditions => "conditions",
        Register::Filters => "filters",
        Register::Products => "products",
        Register::Subscribers => "subscribers",
        Register::Schemes => "schemes",
        Register::Providers => "providers",
    }
}

/// The form of a subscriber's feed.
pub(crate) fn word_of_format(format: Format) -> &'static str
    ensures { result.now ≡ format_word format }
{
    match format {
        Format::Ninjs => "ninjs",
        Format::Text7901 => "7901",
    }
}

/// Whether a product permits or blocks.
pub(crate) fn word_of_how(how: How) -> &'static str
    ensures { result.now ≡ how_word how }
{
    match how {
        How::Permitting => "permitting",
        How::Blocking => "blocking",
    }
}

/// What a condition reads.
pub(crate) fn word_of_field(field: Field) -> &'static str
    ensures { result.now ≡ field_word field }
{
    match field {
        Field::Slugline => "slugline",
        Field::Headline => "headline",
        Field::Byline => "byline",
        Field::Language => "language",
        Field::Category => "category",
        Field::Body => "body",
        Field::Urgency => "urgency",
        Field::Kind => "kind",
    }
}

/// How a condition compares.
pub(crate) fn word_of_op(op: Op) -> &'static str
    ensures { result.now ≡ op_word op }
{
    match op {
        Op::Eq => "eq",
        Op::Ne => "ne",
        Op::Within => "in",
        Op::Nin => "nin",
        Op::Like => "like",
        Op::NotLike => "notlike",
        Op::StartsWith => "startswith",
        Op::EndsWith => "endswith",
        Op::Lt => "lt",
        Op::Lte => "lte",
        Op::Gt => "gt",
        Op::Gte => "gte",
    }
}

/// Whether what a provider sent may be used.
pub(crate) fn word_of_status(status: PubStatus) -> &'static str
    ensures { result.now ≡ status_word status }
{
    match status {
        PubStatus::Usable => "usable",
        PubStatus::Withheld => "withheld",
        PubStatus::Canceled => "canceled",
    }
}

/// What becomes of a publication for a subscriber: `not_due`, `taken_back`, `waits` or `sent`.
pub fn word_of_course(course: &Course) -> &'static str
    ensures { result.now ≡ course_word course.now }
{
    match course {
        Course::NotDue => "not_due",
        Course::TakenBack => "taken_back",
        Course::Waits { .. } => "waits",
        Course::Sent { .. } => "sent",
    }
}

/// What a user may do, each by its word.
pub(crate) fn privilege_words(alloc: Global, set: Privileges) -> Result<Vec<Text>, Memory>
    ensures { IfOk result (λ words. words.items ≡ said.privilege_words set) }
{
    let mut words = Vec::new(alloc);
    add_word(alloc, &mut words, set.bits, 1, "users")?;
    add_word(alloc, &mut words, set.bits, 2, "desks")?;
    add_word(alloc, &mut words, set.bits, 4, "filters")?;
    add_word(alloc, &mut words, set.bits, 8, "subscribers")?;
    add_word(alloc, &mut words, set.bits, 16, "ingest")?;
    add_word(alloc, &mut words, set.bits, 32, "write")?;
    add_word(alloc, &mut words, set.bits, 64, "publish")?;
    add_word(alloc, &mut words, set.bits, 128, "kill")?;
    add_word(alloc, &mut words, set.bits, 256, "unlock")?;
    add_word(alloc, &mut words, set.bits, 512, "stop")?;
    Ok(words)
}

/// The days of a rule, from Monday on, each by its word.
pub(crate) fn day_words(alloc: Global, days: u8) -> Result<Vec<Text>, Memory>
    ensures { IfOk result (λ words. words.items ≡ said.day_words days) }
{
    let days = u16::from(days);
    let mut words = Vec::new(alloc);
    add_word(alloc, &mut words, days, 1, "mon")?;
    add_word(alloc, &mut words, days, 2, "tue")?;
    add_word(alloc, &mut words, days, 4, "wed")?;
    add_word(alloc, &mut words, days, 8, "thu")?;
    add_word(alloc, &mut words, days, 16, "fri")?;
    add_word(alloc, &mut words, days, 32, "sat")?;
    add_word(alloc, &mut words, days, 64, "sun")?;
    Ok(words)
}

/// Puts a word behind these, if its bit is in the set.
fn add_word(
    alloc: Global,
    words: &mut Vec<Text>,
    set: u16,
    bit: u16,
    word: &str,
) -> Result<(), Memory>
    ensures { OnOk result (words.new.items ≡ words.old.items ++ word_if set (word.now, bit)) }
{
    if set & bit == 0 {
        return Ok(());
    }
    words.push(Text::copy_of(alloc, word)?)?;
    Ok(())
}
