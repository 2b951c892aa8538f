//! The questions that lines ask.
ghost use Rattle.std.specs.Prelude.{◌≡◌};
ghost use Rattle.room_runs.specs.Lines.{has_answer};

use news_types::Query;

/// Whether a question is one of those that a line may ask.
pub fn can_tell(query: &Query) -> bool
    ensures { result ≡ has_answer query.now }
{
    match query {
        Query::Feed { .. }
        | Query::Item { .. }
        | Query::Queue
        | Query::Check
        | Query::Publication { .. } => true,
        _ => false,
    }
}
