//! Conditions as the table keeps them, and what they say of a story.
ghost use Rattle.std.specs.Prelude.{◌≡◌, ◌≢◌, IfOk, IsTrue, true, false, not, string_bytes, ℕ, List, []};
ghost use Rattle.news_types.specs.declared.story.Story.{Story};
ghost use Rattle.news_types.specs.declared.words.Field.TheVariants.{Urgency};
ghost use Rattle.news_types.specs.Names.{same, is_in};
ghost use Rattle.news_types.specs.Conditions.{is_condition, is_folding_op, is_true_of, text_of, compares, first_value, first_byte};
ghost use Rattle.content_filters.specs.Folded.{folded_value, compares_folded, urgency_byte};

use crate::folds::{FoldedField, begins_with, finishes_with, fold_once, folded_text, has_part};
use crate::operands::is_folding_op;
use news_types::{Field, Memory, Op, Story, Text, Texts};
use std::alloc::Global;

/// A condition as the table keeps it: its value is folded once, when it is added.
#[derive(Drop)]
pub struct KeptCondition {
    pub(crate) field: Field,
    pub(crate) op: Op,
    pub(crate) values: Texts,
    pub(crate) folded: String,
    ghost valid: { IsTrue (is_condition field op values) },
    ghost folded_once: { string_bytes folded ≡ folded_value op values },
}

/// The first value, or nothing.
fn first_value(values: &[Text]) -> &str
    ensures { result.now ≡ first_value values.now }
{
    match values.first() {
        Some(value) => value.as_str(),
        None => "",
    }
}

/// The first byte, or 0.
fn first_byte(text: &[u8]) -> u8
    ensures { result ≡ first_byte text.now }
{
    match text.first() {
        Some(byte) => *byte,
        None => 0,
    }
}

/// Whether the text is one of the values.
fn is_among(text: &[u8], values: &[Text]) -> bool
    ensures { result ≡ is_in text.now values.now }
{
    values.iter().any(|value| text == value.as_str().as_bytes())
}

/// What an operator that folds nothing says of a text.
fn compares(op: Op, text: &[u8], values: &[Text]) -> bool
    requires { is_folding_op op ≡ false }
    ensures { result ≡ compares op text.now values.now }
{
    let value = first_value(values).as_bytes();
    match op {
        Op::Eq => text == value,
        Op::Ne => text != value,
        Op::Within => is_among(text, values),
        Op::Nin => !is_among(text, values),
        Op::Lt => first_byte(text) < first_byte(value),
        Op::Lte => first_byte(text) <= first_byte(value),
        Op::Gt => first_byte(text) > first_byte(value),
        Op::Gte => first_byte(text) >= first_byte(value),
        Op::Like | Op::NotLike | Op::StartsWith | Op::EndsWith => unreachable!(),
    }
}

/// What an operator that folds says of a folded text and the folded value.
fn compares_folded(op: Op, text: &[u8], value: &[u8]) -> bool
    ensures { result ≡ compares_folded op text.now value.now }
{
    match op {
        Op::Like => has_part(text, value),
        Op::NotLike => !has_part(text, value),
        Op::StartsWith => begins_with(text, value),
        Op::EndsWith => finishes_with(text, value),
        _ => false,
    }
}

/// An urgency as its digit. One past 9 has none: it is compared as the byte behind the digits, as the values of
/// such a condition are digits.
fn urgency_byte(urgency: u8) -> u8
    ensures { result ≡ urgency_byte urgency }
{
    if urgency > 9 { b':' } else { b'0' + urgency }
}

/// The text of a field other than the urgency.
fn text_of(field: Field, story: &Story) -> &str
    requires { field ≢ Urgency }
    ensures { result.now ≡ text_of field story.now }
{
    match field {
        Field::Slugline => story.slugline.as_str(),
        Field::Headline => story.headline.as_str(),
        Field::Byline => story.byline.as_str(),
        Field::Language => story.language.as_str(),
        Field::Category => story.category.as_str(),
        Field::Body => story.body.as_str(),
        Field::Kind => story.kind.word(),
        Field::Urgency => unreachable!(),
    }
}

impl KeptCondition {
    ghost use Rattle.content_filters.specs.Kept.{condition_of};
    ghost use Rattle.content_filters.specs.Folds.{AreFolds};

    /// The condition, with its value folded where its operator folds.
    pub(crate) fn new(
        alloc: Global,
        field: Field,
        op: Op,
        values: &Texts,
    ) -> Result<KeptCondition, Memory>
        requires { IsTrue (is_condition field op values.now) }
        ensures field { IfOk result (λ kept. kept.field ≡ field) }
        ensures op { IfOk result (λ kept. kept.op ≡ op) }
        ensures values { IfOk result (λ kept. kept.values ≡ values.now) }
    {
        let values = values.copy()?;
        let folded = if is_folding_op(op) {
            folded_text(alloc, first_value(values.as_slice()))?
        } else {
            String::new(alloc)
        };
        Ok(KeptCondition {
            field,
            op,
            values,
            folded,
        })
    }

    /// The field of a story that it looks at.
    pub fn field(&self) -> Field
        ensures { result ≡ (condition_of self.now).field }
    {
        self.field
    }

    /// How it compares the field with its values.
    pub fn op(&self) -> Op
        ensures { result ≡ (condition_of self.now).op }
    {
        self.op
    }

    /// The values, as they were given.
    pub fn values(&self) -> &[Text]
        ensures { result.now ≡ (condition_of self.now).values }
    {
        self.values.as_slice()
    }

    /// Whether the condition is true of the story. A field that it folds is kept in `folds`, for the next.
    pub(crate) fn is_true(
        &self,
        alloc: Global,
        story: &Story,
        folds: &mut Vec<FoldedField>,
    ) -> Result<bool, Memory>
        ensures folds { AreFolds story.now folds.old.items → AreFolds story.now folds.new.items }
        ensures value { AreFolds story.now folds.old.items → IfOk result (λ verdict. verdict ≡ is_true_of story.now (condition_of self.now)) }
    {
        let values = self.values.as_slice();
        if self.field == Field::Urgency {
            return Ok(compares(self.op, &[urgency_byte(story.urgency)], values));
        }
        let text = text_of(self.field, story);
        if !is_folding_op(self.op) {
            return Ok(compares(self.op, text.as_bytes(), values));
        }
        let place = fold_once(alloc, folds, self.field, text)?;
        let text = folds[place].text.as_bytes();
        Ok(compares_folded(self.op, text, self.folded.as_bytes()))
    }
}
