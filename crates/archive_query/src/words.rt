//! The words of a query.
ghost use Rattle.std.specs.Prelude.{◌≡◌};
ghost use Rattle.archive_query.specs.Words as spec;

use news_types::Kind;

/// A text of a story.
#[derive(Clone, Copy, Debug, PartialEq, Eq)]
pub enum TextField {
    Slugline,
    Headline,
    Byline,
    Language,
    Category,
    Body,
}

/// A number of a publication.
#[derive(Clone, Copy, Debug, PartialEq, Eq)]
pub enum NumberField {
    Number,
    Item,
    Version,
    Urgency,
    Release,
}

/// How a text is compared.
#[derive(Clone, Copy, Debug, PartialEq, Eq)]
pub enum TextOperator {
    Is,
    Has,
    Starts,
}

/// How a number is compared.
#[derive(Clone, Copy, Debug, PartialEq, Eq)]
pub enum NumberOperator {
    Is,
    Below,
    Above,
}

/// The text that a word names.
pub(crate) fn text_field_of(word: &str) -> Option<TextField>
    ensures { result ≡ spec.text_field_of word.now }
{
    match word {
        "slugline" => Some(TextField::Slugline),
        "headline" => Some(TextField::Headline),
        "byline" => Some(TextField::Byline),
        "language" => Some(TextField::Language),
        "category" => Some(TextField::Category),
        "body" => Some(TextField::Body),
        _ => None,
    }
}

/// The number that a word names.
pub(crate) fn number_field_of(word: &str) -> Option<NumberField>
    ensures { result ≡ spec.number_field_of word.now }
{
    match word {
        "number" => Some(NumberField::Number),
        "item" => Some(NumberField::Item),
        "version" => Some(NumberField::Version),
        "urgency" => Some(NumberField::Urgency),
        "release" => Some(NumberField::Release),
        _ => None,
    }
}

/// How a text is compared by a word.
pub(crate) fn text_operator_of(word: &str) -> Option<TextOperator>
    ensures { result ≡ spec.text_operator_of word.now }
{
    match word {
        "is" => Some(TextOperator::Is),
        "has" => Some(TextOperator::Has),
        "starts" => Some(TextOperator::Starts),
        _ => None,
    }
}

/// How a number is compared by a word.
pub(crate) fn number_operator_of(word: &str) -> Option<NumberOperator>
    ensures { result ≡ spec.number_operator_of word.now }
{
    match word {
        "is" => Some(NumberOperator::Is),
        "below" => Some(NumberOperator::Below),
        "above" => Some(NumberOperator::Above),
        _ => None,
    }
}

/// The act that a word names.
pub(crate) fn act_of(word: &str) -> Option<Kind>
    ensures { result ≡ spec.act_of word.now }
{
    match word {
        "first" => Some(Kind::First),
        "correct" => Some(Kind::Correct),
        "kill" => Some(Kind::Kill),
        "recall" => Some(Kind::Recall),
        _ => None,
    }
}

/// The word of an act.
pub fn act_word(kind: Kind) -> &'static str
    ensures { result.now ≡ spec.act_word kind }
{
    match kind {
        Kind::First => "first",
        Kind::Correct => "correct",
        Kind::Kill => "kill",
        Kind::Recall => "recall",
    }
}
