//! What holds of the answers.
ghost use Rattle.archive_search.specs.Laws.{AnswersAreAsSpelled};

/// What a text is answered is what is found by the query that it spells, or where it is none. It states this and does nothing.
pub fn archive_law()
    ensures { AnswersAreAsSpelled }
{}
