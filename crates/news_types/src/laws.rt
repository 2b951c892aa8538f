//! What holds of the types' own tests.
ghost use Rattle.news_types.specs.Equality.{EqualityIsOfFields};

/// `==` of stories, of what comes in, of commands, of acts and of entries answers true exactly where the two are one
/// value. It states this and does nothing.
#[tactic(auto, using(crate::proofs::Equality::equality_is_of_fields))]
pub fn equality_law()
    ensures { EqualityIsOfFields }
{}
