//! How many names there are.
ghost use Rattle.std.specs.Prelude.{◌≡◌};
ghost use Rattle.news_types.specs.History.{History};
ghost use Rattle.news_types.specs.Legal.{IsLegal};
ghost use Rattle.rule_tables.specs.Keeps.{KeepsRules};
ghost use Rattle.list_marks.specs.Limits.{count_of};

use desk_views::Register;
use rule_tables::Rules;

/// How many things of a kind there are, a page of their names after the other. It takes no memory.
pub(crate) fn name_count(rules: &Rules, of: Register) -> u64
    requires { (h : History) × (KeepsRules rules.now h × IsLegal h) }
    ensures { (h : History) → KeepsRules rules.now h → IsLegal h → result ≡ count_of h of }
{
    let mut count = 0;
    let mut page = rules.things(of, &None);
    while let Some(last) = page.last().copied() {
        count += page.len() as u64;
        page = rules.things(of, &Some(last));
    }
    count
}
