//! The tables, to be read.
ghost use Rattle.news_types.specs.History.{History};
ghost use Rattle.rule_tables.specs.Keeps.{KeepsRules};
ghost use Rattle.story_tables.specs.Keeps.{KeepsStories, HasPlace};
ghost use Rattle.desk_records.specs.Dues.{KeepsDues};
ghost use Rattle.desk_records.specs.Wires.{KeepsWires};
ghost use Rattle.newsroom.specs.Stands.{StandsFor, Stands};

use crate::newsroom::Newsroom;
use desk_records::{Dues, Wires};
use rule_tables::Rules;
use story_tables::Stories;

impl Newsroom {
    /// Users and desks, filters, products and subscribers, schemes and providers, to be read: nothing is copied.
    pub fn rules(&self) -> &Rules
        ensures { (h : History) → StandsFor self.now h → KeepsRules result.now h }
    {
        &self.rules
    }

    /// Items, what is published of them, and the feeds, to be read: nothing is copied.
    pub fn stories(&self) -> &Stories
        ensures keeps { (h : History) → StandsFor self.now h → KeepsStories result.now h }
        ensures place { Stands self.now → HasPlace result.now }
    {
        &self.stories
    }

    /// To whom each publication was made due, with its release, and whether that stands, to be read: nothing is copied.
    pub fn dues(&self) -> &Dues
        ensures { (h : History) → StandsFor self.now h → KeepsDues result.now h }
    {
        &self.dues
    }

    /// What a provider last sent for each item, to be read: nothing is copied.
    pub fn wires(&self) -> &Wires
        ensures { (h : History) → StandsFor self.now h → KeepsWires result.now h }
    {
        &self.wires
    }
}
