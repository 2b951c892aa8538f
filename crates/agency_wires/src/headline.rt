//! Headline and body of a text.

ghost use Rattle.std.specs.Prelude.{◌≡◌, ◌≤◌, ◌∷◌, ◌++◌, IfOk, OnOk};
ghost use Rattle.agency_wires.specs.Parts.{line, behind_line};
ghost use Rattle.agency_wires.specs.Headline.{begins_with_mark, ends_with_mark, without_mark, further, spaced, behind, headline, behind_headline, body};

use crate::parts::{is_within, next_line, trimmed, without_last_lf};
use std::alloc::{AllocError, Global};

/// The most bytes of a headline.
const LONGEST_HEADLINE: usize = 500;
/// How many lines are looked at for the end of a headline.
const HEADLINE_LINES: usize = 4;

fn ends_with_mark(line: &[char]) -> bool
    ensures { result ≡ ends_with_mark line.now }
{
    matches!(line, [.., ' ', '='])
}

/// A line without the ` =` that it ends with.
fn without_mark(line: &[char]) -> &[char]
    ensures { result.now ≡ without_mark line.now }
{
    if ends_with_mark(line) {
        trimmed(&line[..line.len() - 2])
    } else {
        line
    }
}

/// How many lines the headline has behind its first.
fn further_lines(text: &[char]) -> usize
    ensures { result ≡ further 0 4 text.now }
{
    let mut rest = text;
    for seen in 0..HEADLINE_LINES {
        let (line, behind) = next_line(rest);
        if ends_with_mark(line) {
            return seen;
        }
        rest = behind;
    }
    0
}

/// The headline, uncut.
#[tactic(auto, unfolding(crate::specs::Headline::headline))]
pub fn headline_of(alloc: Global, text: &[char]) -> Result<Vec<char>, AllocError>
    ensures { IfOk result (λ told. told.items ≡ headline text.now) }
{
    let (line, rest) = next_line(text);
    let mut told = Vec::from_slice(alloc, without_mark(line))?;
    put_lines(&mut told, rest, further_lines(text))?;
    Ok(told)
}

/// Appends so many lines, each behind a space.
fn put_lines(out: &mut Vec<char>, text: &[char], count: usize) -> Result<(), AllocError>
    ensures { OnOk result (out.new.items ≡ out.old.items ++ spaced count text.now) }
{
    let mut rest = text;
    for _ in 0..count {
        let (line, behind) = next_line(rest);
        out.push(' ')?;
        out.extend_from_slice(without_mark(line))?;
        rest = behind;
    }
    Ok(())
}

/// What follows so many lines.
fn behind_lines(text: &[char], count: usize) -> &[char]
    ensures { result.now ≡ behind count text.now }
{
    let mut rest = text;
    for _ in 0..count {
        (_, rest) = next_line(rest);
    }
    rest
}

/// What follows the headline.
#[tactic(auto, unfolding(crate::specs::Headline::behind_headline))]
fn behind_headline(text: &[char]) -> &[char]
    ensures { result.now ≡ behind_headline text.now }
{
    let (_, rest) = next_line(text);
    behind_lines(rest, further_lines(text))
}

/// The body of a text with this headline: what follows it, or all where the headline is cut.
#[tactic(auto, unfolding(crate::specs::Headline::body))]
pub fn body_of<'a>(text: &'a [char], told: &[char]) -> &'a [char]
    requires { told.now ≡ headline text.now }
    ensures { result.now ≡ body text.now }
{
    let whole = if is_within(LONGEST_HEADLINE, told) {
        behind_headline(text)
    } else {
        text
    };
    without_last_lf(whole)
}
