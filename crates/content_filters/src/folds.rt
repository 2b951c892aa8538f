//! Folded text: each field of a story is folded at most once.
ghost use Rattle.std.specs.Prelude.{◌≡◌, ◌<◌, IfOk, IfSome, string_bytes, vec_len, length, slice_index_or, nat_eq};
ghost use Rattle.std.specs.List.{starts_with, ends_with};
ghost use Rattle.news_types.specs.declared.story.Story.{Story};
ghost use Rattle.news_types.specs.Conditions.{folded, has_part, text_of};
ghost use Rattle.content_filters.specs.Folds.{AreFolds, IsFoldAt, HasField};

use caseless::default_case_fold_str;
use memchr::memmem;
use news_types::{Field, Memory};
use std::alloc::Global;

/// A field of a story, without its case.
#[derive(Drop)]
pub(crate) struct FoldedField {
    pub(crate) field: Field,
    pub(crate) text: String,
}

/// The text without its case, by full case folding.
#[tactic(auto, unfolding(news_types::specs::Conditions::folded))]
pub(crate) fn folded_text(alloc: Global, text: &str) -> Result<String, Memory>
    ensures { IfOk result (λ t. string_bytes t ≡ folded text.now) }
{
    Ok(default_case_fold_str(alloc, text)?)
}

/// Where the field is among those that are folded.
fn find_fold(folds: &[FoldedField], field: Field) -> Option<usize>
    ensures { IfSome result (HasField folds.now field) }
{
    for (place, fold) in folds.iter().enumerate() {
        if fold.field == field {
            return Some(place);
        }
    }
    None
}

/// The place of the field, folded now if it was not before.
pub(crate) fn fold_once(
    alloc: Global,
    folds: &mut Vec<FoldedField>,
    field: Field,
    text: &str,
) -> Result<usize, Memory>
    ensures inside { IfOk result (λ place. place < vec_len folds.new) }
    ensures folds { (story : Story) → text_of field story ≡ text.now → AreFolds story folds.old.items → AreFolds story folds.new.items }
    ensures place { (story : Story) → text_of field story ≡ text.now → AreFolds story folds.old.items → IfOk result (IsFoldAt folds.new.items (folded text.now)) }
{
    if let Some(place) = find_fold(folds.as_slice(), field) {
        return Ok(place);
    }
    let place = folds.len();
    let text = folded_text(alloc, text)?;
    folds.push(FoldedField { field, text })?;
    Ok(place)
}

/// Whether the part stands somewhere in the text.
pub(crate) fn has_part(text: &[u8], part: &[u8]) -> bool
    ensures { result ≡ has_part text.now part.now }
{
    memmem::find(text, part).is_some()
}

/// Whether the text begins with the part.
pub(crate) fn begins_with(text: &[u8], part: &[u8]) -> bool
    ensures { result ≡ starts_with nat_eq text.now part.now }
{
    text.starts_with(part)
}

/// Whether the text ends with the part.
pub(crate) fn finishes_with(text: &[u8], part: &[u8]) -> bool
    ensures { result ≡ ends_with nat_eq text.now part.now }
{
    text.ends_with(part)
}
