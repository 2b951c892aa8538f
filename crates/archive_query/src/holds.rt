//! Of which publications a query is true.
ghost use Rattle.std.specs.Prelude.{◌≡◌, IfOk};
ghost use Rattle.archive_query.specs.Query as spec;
ghost use Rattle.archive_query.specs.Query.{meaning};
ghost use Rattle.archive_query.specs.View.{query_of, test_of};

use crate::ask::Ask;
use crate::subject::Subject;
use crate::test::{Test, TextTest};
use crate::words::{NumberOperator, TextOperator};
use news_types::{Kind, Memory};

/// What an operator says of a number and a value.
fn number_holds(operator: NumberOperator, found: u64, value: u64) -> bool
    ensures { result ≡ spec.number_holds operator found value }
{
    match operator {
        NumberOperator::Is => found == value,
        NumberOperator::Below => found < value,
        NumberOperator::Above => found > value,
    }
}

/// Whether two acts are one.
fn same_act(found: Kind, kind: Kind) -> bool
    ensures { result ≡ spec.same_act found kind }
{
    match (found, kind) {
        (Kind::First, Kind::First)
        | (Kind::Correct, Kind::Correct)
        | (Kind::Kill, Kind::Kill)
        | (Kind::Recall, Kind::Recall) => true,
        _ => false,
    }
}

impl TextTest {
    ghost use Rattle.archive_query.specs.Query.{text_of, text_holds};

    /// Whether it is true of a publication.
    fn holds(&self, subject: &mut Subject<'_>) -> Result<bool, Memory>
        ensures value { IfOk result (λ holds. holds ≡ text_holds self.now.operator (text_of self.now.field subject.old.story) self.now.value) }
        ensures same { subject.new ≡ subject.old }
    {
        match self.operator {
            TextOperator::Is => Ok(subject.text(self.field) == self.value.as_str()),
            TextOperator::Has => subject.has(self.field, &self.sought),
            TextOperator::Starts => subject.starts(self.field, self.sought.needle()),
        }
    }
}

impl Test {
    /// Whether it is true of a publication.
    fn holds(&self, subject: &mut Subject<'_>) -> Result<bool, Memory>
        ensures value { IfOk result (λ holds. holds ≡ spec.test_holds (test_of self.now) subject.old) }
        ensures same { subject.new ≡ subject.old }
    {
        match self {
            Test::Text(test) => test.holds(subject),
            Test::Number {
                field,
                operator,
                value,
            } => Ok(number_holds(*operator, subject.number(*field), *value)),
            Test::Act(kind) => Ok(same_act(subject.kind(), *kind)),
        }
    }
}

impl Ask {
    /// Whether it is true of a publication. What decides it alone is asked first, from the left.
    pub fn holds(&self, subject: &mut Subject<'_>) -> Result<bool, Memory>
        ensures value { IfOk result (λ holds. holds ≡ meaning (query_of self.now) subject.old) }
        ensures same { subject.new ≡ subject.old }
    {
        match self {
            Ask::Test(test) => test.holds(subject),
            Ask::Not(ask) => Ok(!ask.holds(subject)?),
            Ask::And(first, second) => {
                if first.holds(subject)? {
                    second.holds(subject)
                } else {
                    Ok(false)
                }
            }
            Ask::Or(first, second) => {
                if first.holds(subject)? {
                    Ok(true)
                } else {
                    second.holds(subject)
                }
            }
        }
    }
}
