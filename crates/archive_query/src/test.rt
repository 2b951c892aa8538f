//! Tests of publications.
ghost use Rattle.std.specs.Prelude.{◌≡◌, IfOk};
ghost use Rattle.archive_query.specs.Sought.{folded_value};

use crate::folds::folded_text;
use crate::words::{NumberField, NumberOperator, TextField, TextOperator};
use memchr::memmem::Finder;
use news_types::{Kind, Memory, Text};
use std::alloc::Global;

/// A test of a text, with what is sought. What is compared without case is folded once, and made ready to be found.
#[derive(Drop)]
pub struct TextTest {
    pub(crate) field: TextField,
    pub(crate) operator: TextOperator,
    pub(crate) value: Text,
    pub(crate) sought: Finder<'static>,
    ghost folded_once: { sought ≡ folded_value operator value },
}

/// A test of a publication.
#[derive(Drop)]
pub enum Test {
    Text(TextTest),
    Number {
        field: NumberField,
        operator: NumberOperator,
        value: u64,
    },
    Act(Kind),
}

impl TextTest {
    /// The test whether this text of a story is, has or begins with the value.
    pub(crate) fn new(
        alloc: Global,
        field: TextField,
        operator: TextOperator,
        value: Text,
    ) -> Result<TextTest, Memory>
        ensures field { IfOk result (λ test. test.field ≡ field) }
        ensures operator { IfOk result (λ test. test.operator ≡ operator) }
        ensures value { IfOk result (λ test. test.value ≡ value) }
    {
        let folded = match operator {
            TextOperator::Is => Vec::new(alloc),
            TextOperator::Has | TextOperator::Starts => folded_text(alloc, value.as_str())?,
        };
        let sought = Finder::new(folded.as_slice()).into_owned(alloc)?;
        Ok(TextTest {
            field,
            operator,
            value,
            sought,
        })
    }
}
