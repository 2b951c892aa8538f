//! Queries as values.
ghost use Rattle.std.specs.Prelude.{◌≡◌, IfOk};
ghost use Rattle.archive_query.specs.Query.{Not, And, Or};
ghost use Rattle.archive_query.specs.View.{query_of};

use crate::test::Test;
use news_types::Memory;
use std::alloc::Global;

/// A query of the archive.
#[derive(Drop)]
pub enum Ask {
    Test(Test),
    Not(Box<Ask>),
    And(Box<Ask>, Box<Ask>),
    Or(Box<Ask>, Box<Ask>),
}

/// The query that is true where this one is not.
pub(crate) fn negated(alloc: Global, ask: Ask) -> Result<Ask, Memory>
    ensures { IfOk result (λ made. query_of made ≡ Not (query_of ask)) }
{
    Ok(Ask::Not(Box::new(alloc, ask)?))
}

/// The query that is true where both are.
pub(crate) fn both(alloc: Global, first: Ask, second: Ask) -> Result<Ask, Memory>
    ensures { IfOk result (λ made. query_of made ≡ And (query_of first) (query_of second)) }
{
    Ok(Ask::And(Box::new(alloc, first)?, Box::new(alloc, second)?))
}

/// The query that is true where one of them is.
pub(crate) fn either(alloc: Global, first: Ask, second: Ask) -> Result<Ask, Memory>
    ensures { IfOk result (λ made. query_of made ≡ Or (query_of first) (query_of second)) }
{
    Ok(Ask::Or(Box::new(alloc, first)?, Box::new(alloc, second)?))
}
