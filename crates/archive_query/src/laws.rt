//! What holds of queries.
ghost use Rattle.std.specs.Prelude.{◌≡◌, ℕ};
ghost use Rattle.news_types.specs.Names.{Bytes};
ghost use Rattle.archive_query.specs.Query.{Query};
ghost use Rattle.archive_query.specs.Tokens.{tokens, joined};
ghost use Rattle.archive_query.specs.Grammar.{IsQuery, IsBadAt, IsDeepAt};
ghost use Rattle.archive_query.specs.Laws.{IsJudgedOnce, IsJudged};

/// A text is its tokens with one space between two; it is at most one query; and each text within the limit is a query, or
/// has one place from which on it is none, for one of the two reasons. It states this and does nothing.
pub fn queries_law()
    ensures tokens { (text : Bytes) → joined (tokens text) ≡ text }
    ensures one { (text : Bytes) (q r : Query) → IsQuery text q → IsQuery text r → q ≡ r }
    ensures judged { (text : Bytes) → IsJudged text }
    ensures once { (text : Bytes) → IsJudgedOnce text }
{}
