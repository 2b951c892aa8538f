//! What the tables are asked.
ghost use Rattle.std.specs.Prelude.{◌≡◌};
ghost use Rattle.news_types.specs.History.{History};
ghost use Rattle.news_types.specs.Answers.{allowed};
ghost use Rattle.news_types.specs.Frames.{format};
ghost use Rattle.news_types.specs.Publications.{item};
ghost use Rattle.desk_rules.specs.Asked.{caller_denial, may_denial, knows_denial, place_in, holder_in};
ghost use Rattle.rule_tables.specs.Keeps.{KeepsRules};

use crate::rules::Rules;
use news_types::{Command, Denial, Format, Holder, Name, Place, Privilege, State};

impl Rules {
    /// That the caller is no user, or lacks the privilege. It takes no memory.
    pub fn caller_denied(&self, caller: &Name, command: &Command) -> Option<Denial>
        ensures { (h : History) → KeepsRules self.now h → result ≡ caller_denial h caller.now command.now }
    {
        self.desks.caller_denial(caller, command)
    }

    /// That the command names a user, a desk or a stage that is not there, or adds one that is. It takes no memory.
    pub fn knows(&self, command: &Command) -> Option<Denial>
        ensures { (h : History) → KeepsRules self.now h → result ≡ knows_denial h command.now }
    {
        self.desks.knows(command)
    }

    /// The first reason of the caller, the members, the item's state and its lock. It takes no memory.
    pub fn may(&self, caller: &Name, command: &Command, state: Option<State>) -> Option<Denial>
        ensures { (h : History) → KeepsRules self.now h → result ≡ may_denial h caller.now command.now state }
    {
        self.desks.may(caller, command, state)
    }

    /// Whether the user is there and has the privilege, if one is named. It takes no memory.
    pub fn holds(&self, user: &Name, privilege: Option<Privilege>) -> bool
        ensures { (h : History) → KeepsRules self.now h → result ≡ allowed h user.now privilege }
    {
        self.desks.holds(user, privilege)
    }

    /// Where the item stands, if it stands on a desk. It takes no memory.
    pub fn place(&self, number: u32) -> Option<Place>
        ensures { (h : History) → KeepsRules self.now h → result ≡ place_in (item h number) }
    {
        self.desks.place(number)
    }

    /// Who holds the item, if somebody does. It takes no memory.
    pub fn holder(&self, number: u32) -> Option<Holder>
        ensures { (h : History) → KeepsRules self.now h → result ≡ holder_in (item h number) }
    {
        self.desks.holder(number)
    }

    /// The format of the subscriber, if it is there. It takes no memory.
    pub fn format(&self, subscriber: &Name) -> Option<Format>
        ensures { (h : History) → KeepsRules self.now h → result ≡ format h subscriber.now }
    {
        self.products.format(subscriber)
    }
}
