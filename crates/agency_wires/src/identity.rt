//! What tells one message of a provider from another.

ghost use Rattle.std.specs.Prelude.{◌≡◌, ◌++◌, ◌∷◌, ◌≤◌, IfOk, OnOk, length, codes};
ghost use Rattle.std.specs.Char.{is_ascii_digit};
ghost use Rattle.std.specs.List.{list_any};
ghost use Rattle.agency_wires.specs.Header.{source, number};
ghost use Rattle.agency_wires.specs.Identity.{without_end, told_info, day_of, day_word, dated, named, identity};

use crate::header::Header;
use crate::parts::{fitting_text, trimmed};
use news_types::{Memory, Moment, Text};
use release_rules::text_of_moment;
use std::alloc::{AllocError, Global};

/// The most bytes of an identity.
const LONGEST_IDENTITY: usize = 256;

/// Without the letters `NNNN` at the end.
fn without_end(told: &[char]) -> &[char]
    ensures { result.now ≡ without_end told.now }
{
    match told.strip_suffix(&['N', 'N', 'N', 'N']) {
        Some(front) => front,
        None => told,
    }
}

/// Post-text information without the blanks at its ends and without `NNNN`.
#[tactic(auto, unfolding(crate::specs::Identity::told_info))]
fn told_info(info: &[char]) -> &[char]
    ensures { result.now ≡ told_info info.now }
{
    trimmed(without_end(trimmed(info)))
}

/// Appends the day of a moment as eight digits.
#[tactic(auto, unfolding(crate::specs::Identity::day_word))]
fn put_day(out: &mut Vec<char>, day: Moment) -> Result<(), AllocError>
    ensures { OnOk result (out.new.items ≡ out.old.items ++ day_word day) }
{
    let text = text_of_moment(day);
    put_day_of(out, text.as_str().as_bytes())
}

/// Appends the digits of the day of `YYYY-MM-DDThh:mm:ssZ`.
fn put_day_of(out: &mut Vec<char>, moment: &[u8]) -> Result<(), AllocError>
    requires { 10 ≤ length moment.now }
    ensures { OnOk result (out.new.items ≡ out.old.items ++ day_of moment.now) }
{
    put_bytes(out, &moment[..4])?;
    put_bytes(out, &moment[5..7])?;
    put_bytes(out, &moment[8..10])
}

/// Appends the characters of ASCII bytes.
fn put_bytes(out: &mut Vec<char>, bytes: &[u8]) -> Result<(), AllocError>
    ensures { OnOk result (out.new.items ≡ out.old.items ++ bytes.now) }
{
    for byte in bytes {
        out.push(char::from(*byte))?;
    }
    Ok(())
}

fn has_digit(told: &[char]) -> bool
    ensures { result ≡ list_any is_ascii_digit told.now }
{
    told.iter().any(|letter| letter.is_ascii_digit())
}

/// Appends post-text information, or the day where it has no digit.
#[tactic(auto, unfolding(crate::specs::Identity::dated))]
fn put_dated(out: &mut Vec<char>, info: &[char], day: Moment) -> Result<(), AllocError>
    ensures { OnOk result (out.new.items ≡ out.old.items ++ dated info.now day) }
{
    let told = told_info(info);
    if has_digit(told) {
        out.extend_from_slice(told)
    } else {
        put_day(out, day)
    }
}

/// The identity of a message with this header and post-text information, read on this day.
#[tactic(auto, unfolding(crate::specs::Identity::identity, crate::specs::Identity::named))]
pub fn identity_of(
    alloc: Global,
    line: &[char],
    header: Header<'_>,
    info: &[char],
    day: Moment,
) -> Result<Text, Memory>
    requires source { header.source.now ≡ source line.now }
    requires number { header.number.now ≡ number line.now }
    ensures { IfOk result (λ text. text ≡ identity line.now info.now day) }
{
    let mut named = Vec::from_slice(alloc, header.source)?;
    named.extend_from_slice(header.number)?;
    named.push('@')?;
    put_dated(&mut named, info, day)?;
    fitting_text(alloc, LONGEST_IDENTITY, named.as_slice())
}
