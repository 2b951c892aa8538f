//! To whom a publication is due.
ghost use Rattle.std.specs.Prelude.{◌≡◌, ℕ, List, ◌||◌, IfOk, filter};
ghost use Rattle.news_types.specs.Names.{is_in};
ghost use Rattle.news_types.specs.History.{History};
ghost use Rattle.news_types.specs.Due.{Pub};
ghost use Rattle.news_types.specs.Products as facts;
ghost use Rattle.news_types.specs.declared.story.Story.{Story};
ghost use Rattle.products.specs.Keeps.{KeepsFacts};
ghost use Rattle.products.specs.Asked.{Keep, Judges, AreBlocking, AreEarlier, AreDue};

use crate::table::Products;
use content_filters::{Filters, Verdicts};
use news_types::{Kind, Memory, Name, Names, Story};

impl Products {
    /// The names to whom a publication is due, in byte order: a first one to those who are permitted its story; a
    /// correction to these, and to those who were due an earlier publication of its item that stands for them; a kill
    /// and a recall to those alone to whom such a one was released, inactive ones too. `earlier` has these names.
    ///
    /// Each filter is judged once, however many subscribers there are, and none for a kill or a recall.
    pub fn due_list(
        &self,
        filters: &Filters,
        story: &Story,
        targets: &[Name],
        earlier: &[Name],
        kind: Kind,
    ) -> Result<Names, Memory>
        ensures { IfOk result (λ names. (h : History) (ps : List Pub) (i release : ℕ) → Keep self.now filters.now h → AreEarlier earlier.now ps kind i release → AreDue names h ps kind i story.now release targets.now) }
    {
        match kind {
            Kind::First => self.permitted_names(filters, story, targets, &[]),
            Kind::Correct => self.permitted_names(filters, story, targets, earlier),
            Kind::Kill => self.earlier_names(earlier),
            Kind::Recall => self.earlier_names(earlier),
        }
    }

    /// The subscribers who are permitted the story, or are among the earlier ones.
    fn permitted_names(
        &self,
        filters: &Filters,
        story: &Story,
        targets: &[Name],
        earlier: &[Name],
    ) -> Result<Names, Memory>
        ensures { IfOk result (λ names. (h : History) → Keep self.now filters.now h
            → names ≡ filter (λ s. facts.permitted h story.now targets.now s || is_in s earlier.now) self.now.names.items) }
    {
        let verdicts = filters.verdicts(story)?;
        let blocking = self.blocking(filters, &verdicts)?;
        let mut names = Vec::new(self.alloc);
        for name in self.names.iter() {
            if self.is_due(filters, &verdicts, &blocking, targets, earlier, name) {
                names.push(*name)?;
            }
        }
        Ok(Names::of(names))
    }

    /// Whether the story is permitted to the subscriber, or it is among the earlier ones.
    fn is_due(
        &self,
        filters: &Filters,
        verdicts: &Verdicts,
        blocking: &[Name],
        targets: &[Name],
        earlier: &[Name],
        name: &Name,
    ) -> bool
        ensures { (h : History) (story : Story) → KeepsFacts self.now h → Judges verdicts.now filters.now h story → AreBlocking blocking.now h story
            → result ≡ (facts.permitted h story targets.now name.now || is_in name.now earlier.now) }
    {
        if self.is_permitted(filters, verdicts, blocking, targets, name) {
            return true;
        }
        name.is_among(earlier)
    }

    /// The subscribers who are among the earlier ones.
    fn earlier_names(&self, earlier: &[Name]) -> Result<Names, Memory>
        ensures { IfOk result (λ names. names ≡ filter (λ s. is_in s earlier.now) self.now.names.items) }
    {
        let mut names = Vec::new(self.alloc);
        for name in self.names.iter() {
            if name.is_among(earlier) {
                names.push(*name)?;
            }
        }
        Ok(Names::of(names))
    }
}
