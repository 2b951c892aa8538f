//! The operators and values that a condition may have, and the statements that a filter may have.
ghost use Rattle.std.specs.Prelude.{◌≡◌, ◌&&◌, ◌==◌, length, nat_lt, if◌then◌else◌};
ghost use Rattle.std.specs.List.{list_all};
ghost use Rattle.news_types.specs.Names.{is_in};
ghost use Rattle.news_types.specs.Conditions.{is_condition, fits_field, is_number_op, is_folding_op, takes_list, is_digit, media_words};
ghost use Rattle.news_types.specs.Filters.{names_something, are_statements};

use news_types::{Field, Media, Op, Statement, Text};

/// Whether the operator looks at folded text.
pub(crate) fn is_folding_op(op: Op) -> bool
    ensures { result ≡ is_folding_op op }
{
    matches!(op, Op::Like | Op::NotLike | Op::StartsWith | Op::EndsWith)
}

/// Whether the operator compares numbers.
fn is_number_op(op: Op) -> bool
    ensures { result ≡ is_number_op op }
{
    matches!(op, Op::Lt | Op::Lte | Op::Gt | Op::Gte)
}

/// Whether the operator takes more than one value.
fn takes_list(op: Op) -> bool
    ensures { result ≡ takes_list op }
{
    matches!(op, Op::Within | Op::Nin)
}

/// One ASCII digit.
fn is_digit(value: &str) -> bool
    ensures { result ≡ is_digit value.now }
{
    matches!(value.as_bytes(), [b'0'..=b'9'])
}

/// Whether each value is a digit.
fn are_digits(values: &[Text]) -> bool
    ensures { result ≡ list_all is_digit values.now }
{
    values.iter().all(|value| is_digit(value.as_str()))
}

/// Whether it is the word of some kind, as it is given.
fn is_media_word(value: &str) -> bool
    ensures { result ≡ is_in value.now media_words }
{
    value == Media::Text.word()
        || value == Media::Audio.word()
        || value == Media::Video.word()
        || value == Media::Picture.word()
        || value == Media::Graphic.word()
        || value == Media::Composite.word()
}

/// Whether each value is the word of some kind.
fn are_media_words(values: &[Text]) -> bool
    ensures { result ≡ list_all (λ value. is_in value media_words) values.now }
{
    values.iter().all(|value| is_media_word(value.as_str()))
}

/// Whether the field takes the operator and the values.
fn fits_field(field: Field, op: Op, values: &[Text]) -> bool
    ensures { result ≡ fits_field field op values.now }
{
    match field {
        Field::Urgency => { !is_folding_op(op) && are_digits(values) }
        Field::Kind => { !is_folding_op(op) && !is_number_op(op) && are_media_words(values) }
        _ => !is_number_op(op),
    }
}

/// Whether there are as many values as the operator takes.
fn is_count(op: Op, count: usize) -> bool
    ensures { result ≡ (if takes_list op then nat_lt 0 count else count == 1) }
{
    if takes_list(op) {
        count > 0
    } else {
        count == 1
    }
}

/// Whether each value has a byte.
fn none_is_empty(values: &[Text]) -> bool
    ensures { result ≡ list_all (λ value. nat_lt 0 (length value)) values.now }
{
    values.iter().all(|value| value.as_str().len() > 0)
}

/// Whether a condition may have this operator and these values on this field.
pub(crate) fn is_condition(field: Field, op: Op, values: &[Text]) -> bool
    ensures { result ≡ is_condition field op values.now }
{
    is_count(op, values.len()) && none_is_empty(values) && fits_field(field, op, values)
}

/// Whether the statement names a condition or a filter.
fn names_something(statement: &Statement) -> bool
    ensures { result ≡ names_something statement.now }
{
    statement.conditions.as_slice().len() > 0 || statement.filters.as_slice().len() > 0
}

/// Whether each statement does.
fn all_name_something(statements: &[Statement]) -> bool
    ensures { result ≡ list_all names_something statements.now }
{
    statements
        .iter()
        .all(|statement| names_something(statement))
}

/// Whether a filter may have these statements.
pub(crate) fn are_statements(statements: &[Statement]) -> bool
    ensures { result ≡ are_statements statements.now }
{
    statements.len() > 0 && all_name_something(statements)
}
