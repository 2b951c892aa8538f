//! The lines of what a package holds.
ghost use Rattle.std.specs.Prelude.{◌≡◌, ◌++◌, ◌∷◌, [], ℕ, OnOk, IfOk, not, true, nat_eq, if◌then◌else◌};
ghost use Rattle.std.specs.HashSet.{contains};
ghost use Rattle.package_rules.specs.Opening.{line_of};

use news_types::{Memory, Name};
use package_members::Member;
use std::collections::HashSet;
use std::marker::Model;

/// A member of a package, or of a package in it.
#[derive(Clone, Copy, PartialEq, Eq)]
pub struct Line {
    /// 1 for the package's own members, and one more for those of each package inside.
    pub depth: u32,
    pub role: Name,
    pub item: u32,
    /// The newest publication of the item before the package's, or 0.
    pub publication: u32,
}

/// Lines, in order.
#[derive(Drop)]
pub struct Contents {
    lines: Vec<Line>,
}

impl Model for Contents {
    ghost use Rattle.std.specs.Prelude.{List};
    ghost use Rattle.package_rules.specs.declared.lines.Line.{Line};

    ghost Value = { List Line };

    ghost view = { λ a. a.lines.items };
}

impl Contents {
    /// These lines.
    pub(crate) fn of(lines: Vec<Line>) -> Contents
        ensures { result ≡ lines.items }
    {
        Contents { lines }
    }

    /// The lines.
    pub fn as_slice(&self) -> &[Line]
        ensures { result.now ≡ self.now }
    {
        self.lines.as_slice()
    }
}

/// What was gone through.
#[derive(Drop)]
pub(crate) struct Steps {
    pub(crate) lines: Vec<Line>,
    pub(crate) opened: HashSet<u32>,
}

/// Notes a publication as opened, and tells whether it was not.
pub(crate) fn is_new(steps: &mut Steps, number: u32) -> Result<bool, Memory>
    ensures new { IfOk result (λ new. new ≡ not (contains nat_eq steps.old.opened number)) }
    ensures knows { OnOk result ((n : ℕ) → contains nat_eq steps.new.opened n ≡ (if nat_eq number n then true else contains nat_eq steps.old.opened n)) }
    ensures lines { steps.new.lines ≡ steps.old.lines }
{
    let new = steps.opened.insert(number)?;
    Ok(new)
}

/// Puts the line of a member behind the others.
pub(crate) fn put_line(
    steps: &mut Steps,
    depth: u32,
    member: &Member,
    publication: u32,
) -> Result<(), Memory>
    ensures lines { OnOk result (steps.new.lines.items ≡ steps.old.lines.items ++ line_of depth member.now publication ∷ []) }
    ensures opened { steps.new.opened ≡ steps.old.opened }
{
    steps.lines.push(Line {
        depth,
        role: member.role,
        item: member.item,
        publication,
    })?;
    Ok(())
}
