//! What a query is asked of.
ghost use Rattle.std.specs.Prelude.{◌≡◌, ◌<◌, nat_eq, IfOk, IfSome, vec_len};
ghost use Rattle.std.specs.List.{starts_with};
ghost use Rattle.news_types.specs.declared.story.Story.{Story};
ghost use Rattle.news_types.specs.Conditions.{folded, has_part};
ghost use Rattle.archive_query.specs.Query.{text_of, number_of};
ghost use Rattle.archive_query.specs.Folds.{AreFolds, HasField, IsFoldAt};

use crate::folds::folded_text;
use crate::words::{NumberField, TextField};
use memchr::memmem::Finder;
use news_types::{Kind, Memory, Moment, Story};
use std::alloc::Global;
use std::marker::Model;

/// A text of a story, without its case.
#[derive(Drop)]
pub(crate) struct FoldedField {
    pub(crate) field: TextField,
    pub(crate) text: Vec<u8>,
}

/// What a publication has beside its story.
#[derive(Clone, Copy)]
pub struct Facts {
    pub number: u32,
    pub item: u32,
    pub version: u32,
    pub kind: Kind,
    pub release: Moment,
}

/// A publication of which queries may be true. Its story is not copied, and each text of it is folded at most once. A contract
/// sees it as the publication.
#[derive(Drop)]
pub struct Subject<'a> {
    alloc: Global,
    facts: Facts,
    story: &'a Story,
    folds: Vec<FoldedField>,
}

impl<'a> Model for Subject<'a> {
    ghost use Rattle.news_types.specs.declared.query.Publication.{Publication};
    ghost use Rattle.archive_query.specs.Folds.{AreFolds};

    ghost Value = { Publication };

    ghost view = { λ s. record { number = s.facts.number; item = s.facts.item; version = s.facts.version; kind = s.facts.kind; story = s.story.now; release = s.facts.release } };

    ghost invariant = { λ s. AreFolds s.story.now s.folds.items };
}

/// Whether the part stands somewhere in the text.
fn has_part(text: &[u8], part: &Finder<'static>) -> bool
    ensures { result ≡ has_part text.now part.now }
{
    part.find(text).is_some()
}

/// Whether the text begins with the part.
fn begins_with(text: &[u8], part: &[u8]) -> bool
    ensures { result ≡ starts_with nat_eq text.now part.now }
{
    text.starts_with(part)
}

/// A text of a story.
fn text_of(field: TextField, story: &Story) -> &str
    ensures { result.now ≡ text_of field story.now }
{
    match field {
        TextField::Slugline => story.slugline.as_str(),
        TextField::Headline => story.headline.as_str(),
        TextField::Byline => story.byline.as_str(),
        TextField::Language => story.language.as_str(),
        TextField::Category => story.category.as_str(),
        TextField::Body => story.body.as_str(),
    }
}

/// Where the field is among those that are folded.
fn find_fold(folds: &[FoldedField], field: TextField) -> Option<usize>
    ensures { IfSome result (HasField folds.now field) }
{
    for (place, fold) in folds.iter().enumerate() {
        if fold.field == field {
            return Some(place);
        }
    }
    None
}

/// The place of a field of the story, folded now if it was not before.
fn fold_once(
    alloc: Global,
    folds: &mut Vec<FoldedField>,
    field: TextField,
    story: &Story,
) -> Result<usize, Memory>
    requires { AreFolds story.now folds.old.items }
    ensures inside { IfOk result (λ place. place < vec_len folds.new) }
    ensures folds { AreFolds story.now folds.new.items }
    ensures place { IfOk result (IsFoldAt folds.new.items (folded (text_of field story.now))) }
{
    if let Some(place) = find_fold(folds.as_slice(), field) {
        return Ok(place);
    }
    let place = folds.len();
    let text = folded_text(alloc, text_of(field, story))?;
    folds.push(FoldedField { field, text })?;
    Ok(place)
}

impl<'a> Subject<'a> {
    /// The publication with these facts and this story.
    pub fn new(alloc: Global, facts: Facts, story: &'a Story) -> Subject<'a>
        ensures { result ≡ record { number = facts.number; item = facts.item; version = facts.version; kind = facts.kind; story = story.now; release = facts.release } }
    {
        Subject {
            alloc,
            facts,
            story,
            folds: Vec::new(alloc),
        }
    }

    /// What it is to those who have its item.
    pub(crate) fn kind(&self) -> Kind
        ensures { result ≡ self.now.kind }
    {
        self.facts.kind
    }

    /// A number of it.
    pub(crate) fn number(&self, field: NumberField) -> u64
        ensures { result ≡ number_of field self.now }
    {
        match field {
            NumberField::Number => u64::from(self.facts.number),
            NumberField::Item => u64::from(self.facts.item),
            NumberField::Version => u64::from(self.facts.version),
            NumberField::Urgency => u64::from(self.story.urgency),
            NumberField::Release => self.facts.release,
        }
    }

    /// A text of it.
    pub(crate) fn text(&self, field: TextField) -> &'a str
        ensures { result.now ≡ text_of field self.now.story }
    {
        text_of(field, self.story)
    }

    /// Whether a text of it has the folded part somewhere, without its case.
    pub(crate) fn has(&mut self, field: TextField, part: &Finder<'static>) -> Result<bool, Memory>
        ensures value { IfOk result (λ holds. holds ≡ has_part (folded (text_of field self.old.story)) part.now) }
        ensures same { self.new ≡ self.old }
    {
        let place = fold_once(self.alloc, &mut self.folds, field, self.story)?;
        Ok(has_part(self.folds[place].text.as_slice(), part))
    }

    /// Whether a text of it begins with the folded part, without its case.
    pub(crate) fn starts(&mut self, field: TextField, part: &[u8]) -> Result<bool, Memory>
        ensures value { IfOk result (λ holds. holds ≡ starts_with nat_eq (folded (text_of field self.old.story)) part.now) }
        ensures same { self.new ≡ self.old }
    {
        let place = fold_once(self.alloc, &mut self.folds, field, self.story)?;
        Ok(begins_with(self.folds[place].text.as_slice(), part))
    }
}
