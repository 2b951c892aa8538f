//! The first reason to deny a command on these tables.
ghost use Rattle.std.specs.Prelude.{◌≡◌, true};
ghost use Rattle.news_types.specs.History.{History};
ghost use Rattle.content_filters.specs.Reasons.{is_filter_command, denial_by};
ghost use Rattle.products.specs.Asked.{is_asked};
ghost use Rattle.rule_tables.specs.Keeps.{KeepsRules};
ghost use Rattle.rule_tables.specs.Asked.{is_desk_command};

use crate::rules::Rules;
use news_types::{Command, Denial};

impl Rules {
    /// The first reason to deny a command on users, desks, stages or members. It takes no memory.
    pub fn desks_denied(&self, command: &Command) -> Option<Denial>
        ensures { (h : History) → KeepsRules self.now h → is_desk_command command.now ≡ true → result ≡ denial_by h command.now }
    {
        if let Some(denial) = self.desks.knows(command) {
            return Some(denial);
        }
        self.desks.full(command)
    }

    /// The first reason to deny a command on conditions, filters or blocks. It takes no memory.
    pub fn filters_denied(&self, command: &Command) -> Option<Denial>
        ensures { (h : History) → KeepsRules self.now h → is_filter_command command.now ≡ true → result ≡ denial_by h command.now }
    {
        match self.filters.judge(command) {
            Ok(()) => None,
            Err(reason) => Some(reason.denial),
        }
    }

    /// The first reason to deny a command that adds or sets a product or a subscriber. It takes no memory.
    pub fn products_denied(&self, command: &Command) -> Option<Denial>
        ensures { (h : History) → KeepsRules self.now h → is_asked command.now ≡ true → result ≡ denial_by h command.now }
    {
        self.products.judge(&self.filters, command)
    }
}
