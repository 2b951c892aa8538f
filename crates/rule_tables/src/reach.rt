//! Whom a story reaches, and why.
ghost use Rattle.std.specs.Prelude.{◌≡◌, IfOk};
ghost use Rattle.news_types.specs.History.{History};
ghost use Rattle.news_types.specs.Desks.{is_desk};
ghost use Rattle.news_types.specs.declared.story.Story.{Story};
ghost use Rattle.feed_reasons.specs.Verdicts.{verdict};
ghost use Rattle.rule_tables.specs.Keeps.{KeepsRules};
ghost use Rattle.rule_tables.specs.Asked.{AreJudged};

use crate::rules::Rules;
use content_filters::Verdicts;
use feed_reasons::Verdict;
use news_types::{Memory, Name, Story};

impl Rules {
    /// What the filters say of the story. Each condition and each filter is judged once, for however many subscribers
    /// `verdict_on` is then asked.
    pub fn judge_story(&self, story: &Story) -> Result<Verdicts, Memory>
        ensures { IfOk result (λ verdicts. (h : History) → KeepsRules self.now h → AreJudged verdicts self.now h story.now) }
    {
        self.filters.verdicts(story)
    }

    /// What the rules say of the story that was judged, with these targets, for one subscriber: the first cause that
    /// keeps the story away, or the product that permits it.
    pub fn verdict_on(
        &self,
        verdicts: &Verdicts,
        targets: &[Name],
        subscriber: &Name,
    ) -> Result<Verdict, Memory>
        ensures { IfOk result (λ told. (h : History) (story : Story) → KeepsRules self.now h → AreJudged verdicts.now self.now h story
            → told ≡ verdict h story targets.now subscriber.now) }
    {
        self.products
            .verdict(&self.filters, verdicts, targets, subscriber)
    }

    /// Whether the desk is there. It takes no memory.
    pub fn is_desk(&self, desk: &Name) -> bool
        ensures { (h : History) → KeepsRules self.now h → result ≡ is_desk h desk.now }
    {
        self.desks.is_desk(desk)
    }
}
