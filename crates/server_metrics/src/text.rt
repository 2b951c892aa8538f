//! Headings and samples.
ghost use Rattle.std.specs.Prelude.{◌≡◌, ◌++◌, string_bytes, OnOk, decimal};
ghost use Rattle.server_metrics.specs.Text.{heading, help_line, kind_line, labelled, opened, plain};

use crate::family::Family;
use std::alloc::AllocError;
use std::fmt::Write;

/// Appends the heading of a family.
#[tactic(auto, unfolding(crate::specs::Text::heading))]
pub(crate) fn put_heading(text: &mut String, family: Family) -> Result<(), AllocError>
    ensures { OnOk result (string_bytes text.new ≡ string_bytes text.old ++ heading family) }
{
    put_help(text, family)?;
    put_kind(text, family)
}

/// Appends the line that says what a family is about.
#[tactic(auto, unfolding(crate::specs::Text::help_line))]
fn put_help(text: &mut String, family: Family) -> Result<(), AllocError>
    ensures { OnOk result (string_bytes text.new ≡ string_bytes text.old ++ help_line family) }
{
    writeln!(text, "# HELP {} {}", family.name(), family.help())
}

/// Appends the line that says whether it is a counter or a gauge.
#[tactic(auto, unfolding(crate::specs::Text::kind_line))]
fn put_kind(text: &mut String, family: Family) -> Result<(), AllocError>
    ensures { OnOk result (string_bytes text.new ≡ string_bytes text.old ++ kind_line family) }
{
    writeln!(text, "# TYPE {} {}", family.name(), family.kind())
}

/// Appends a family of one number.
#[tactic(auto, unfolding(crate::specs::Text::plain))]
pub(crate) fn put_plain(text: &mut String, family: Family, value: u64) -> Result<(), AllocError>
    ensures { OnOk result (string_bytes text.new ≡ string_bytes text.old ++ plain family value) }
{
    put_heading(text, family)?;
    writeln!(text, "{} {value}", family.name())
}

/// Appends the begin of a sample, up to the text of its label.
#[tactic(auto, unfolding(crate::specs::Text::opened))]
fn open_sample(text: &mut String, family: Family, key: &str) -> Result<(), AllocError>
    ensures { OnOk result (string_bytes text.new ≡ string_bytes text.old ++ opened family key.now) }
{
    write!(text, "{}{{{key}=\"", family.name())
}

/// Appends the sample of a family whose label has this text. The text has no character that a label escapes.
#[tactic(auto, unfolding(crate::specs::Text::labelled))]
pub(crate) fn put_labelled(
    text: &mut String,
    family: Family,
    key: &str,
    label: &str,
    value: u64,
) -> Result<(), AllocError>
    ensures { OnOk result (string_bytes text.new ≡ string_bytes text.old ++ labelled family key.now label.now value) }
{
    open_sample(text, family, key)?;
    writeln!(text, "{label}\"}} {value}")
}

/// Appends the sample of a family whose label is a number.
#[tactic(auto, unfolding(crate::specs::Text::labelled))]
pub(crate) fn put_numbered(
    text: &mut String,
    family: Family,
    key: &str,
    label: u16,
    value: u64,
) -> Result<(), AllocError>
    ensures { OnOk result (string_bytes text.new ≡ string_bytes text.old ++ labelled family key.now (decimal label) value) }
{
    open_sample(text, family, key)?;
    writeln!(text, "{label}\"}} {value}")
}
