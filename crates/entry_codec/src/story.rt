//! Stories, and what providers send.

ghost use Rattle.std.specs.Prelude.{◌≡◌, ◌++◌, OnOk};
ghost use Rattle.byte_formats.specs.Spelling.{is_empty};
ghost use Rattle.byte_formats.specs.Fields.{text, flag};
ghost use Rattle.byte_formats.specs.Format.{pair};
ghost use Rattle.byte_formats.specs.Gives.{Gives};
ghost use Rattle.entry_codec.specs.Spelling.{story as story_bytes, plain_story, by_credit, incoming as incoming_bytes};
ghost use Rattle.news_types.specs.Fits.{FitsStory, FitsIncoming};
ghost use Rattle.entry_codec.specs.Formed.{IsFormedStory, IsFormedPlain, IsFormedIncoming};
ghost use Rattle.entry_codec.specs.Reading.{story_at, credited_at, incoming_at, credited_incoming_at};

use crate::field::{Field, put_byte, put_flag, put_u64};
use crate::words::{kind, kind_byte, status, status_byte};
use byte_formats::{Input, Stopped, put_text};
use news_types::{Incoming, Moment, Story, Text};
use std::alloc::{AllocError, Global};

/// A story's language, category and body, and whether the body is HTML.
type End = (Text, (Text, (Text, bool)));

/// Reads a story without a copyright.
#[tactic(auto, unfolding(crate::specs::Reading::story_at))]
pub fn story(alloc: Global, input: &mut Input) -> Result<Story, Stopped>
    ensures { Gives result input.new (story_at input.old) }
{
    let kind = kind(input)?;
    let urgency = input.byte(0, 9)?;
    let (slugline, (headline, (byline, end))) = titled(alloc, input)?;
    let (language, (category, (body, html))) = end;
    Ok(Story {
        kind,
        urgency,
        slugline,
        headline,
        byline,
        language,
        category,
        body,
        html,
        copyright: Text::of(String::new(alloc)),
    })
}

/// The slugline, the headline and the byline, and the end behind them.
fn titled(alloc: Global, input: &mut Input) -> Result<(Text, (Text, (Text, End))), Stopped>
    ensures { Gives result input.new ((pair (text 500) (pair (text 500) (pair (text 500) (pair (text 35) (pair (text 3) (pair (text 524288) flag)))))).read input.old) }
{
    Ok((
        input.text(alloc, 500)?,
        (
            input.text(alloc, 500)?,
            (input.text(alloc, 500)?, end(alloc, input)?),
        ),
    ))
}

/// The language, the category and the body, and whether the body is HTML.
fn end(alloc: Global, input: &mut Input) -> Result<End, Stopped>
    ensures { Gives result input.new ((pair (text 35) (pair (text 3) (pair (text 524288) flag))).read input.old) }
{
    Ok((
        input.text(alloc, 35)?,
        (
            input.text(alloc, 3)?,
            (input.text(alloc, 524288)?, input.flag()?),
        ),
    ))
}

/// Reads a story, and the copyright behind it.
#[tactic(auto, unfolding(crate::specs::Reading::credited_at))]
pub fn credited(alloc: Global, input: &mut Input) -> Result<Story, Stopped>
    ensures { Gives result input.new (credited_at input.old) }
{
    let mut story = story(alloc, input)?;
    story.copyright = input.some_text(alloc, 500)?;
    Ok(story)
}

/// Reads what a provider sends, a story without a copyright.
#[tactic(auto, unfolding(crate::specs::Reading::incoming_at))]
pub fn incoming(alloc: Global, input: &mut Input) -> Result<Incoming, Stopped>
    ensures { Gives result input.new (incoming_at input.old) }
{
    Ok(Incoming {
        identity: input.text(alloc, 256)?,
        created: Moment::read(alloc, input)?,
        embargo: Moment::read(alloc, input)?,
        status: status(input)?,
        story: story(alloc, input)?,
    })
}

/// The same with a copyright.
#[tactic(auto, unfolding(crate::specs::Reading::credited_incoming_at))]
pub fn credited_incoming(alloc: Global, input: &mut Input) -> Result<Incoming, Stopped>
    ensures { Gives result input.new (credited_incoming_at input.old) }
{
    Ok(Incoming {
        identity: input.text(alloc, 256)?,
        created: Moment::read(alloc, input)?,
        embargo: Moment::read(alloc, input)?,
        status: status(input)?,
        story: credited(alloc, input)?,
    })
}

/// Whether the story has no copyright.
pub fn is_plain(story: &Story) -> bool
    ensures { result ≡ is_empty story.now.copyright }
{
    story.copyright.as_str().is_empty()
}

/// The first tag for a story without a copyright, and else the second.
pub fn credit_tag(story: &Story, plain: u8, credited: u8) -> u8
    ensures { result ≡ by_credit story.now.copyright plain credited }
{
    if is_plain(story) { plain } else { credited }
}

/// Writes a story: its copyright stands behind the other fields, where it has one.
pub fn put_story(out: &mut Vec<u8>, story: &Story) -> Result<(), AllocError>
    requires { FitsStory story.now }
    ensures bytes { OnOk result (out.new.items ≡ out.old.items ++ story_bytes story.now) }
    ensures form { OnOk result (IsFormedStory story.now) }
{
    put_plain_story(out, story)?;
    if is_plain(story) {
        return Ok(());
    }
    put_text(out, &story.copyright)?;
    Ok(())
}

/// Writes a story's fields but for the copyright.
fn put_plain_story(out: &mut Vec<u8>, story: &Story) -> Result<(), AllocError>
    requires { FitsStory story.now }
    ensures bytes { OnOk result (out.new.items ≡ out.old.items ++ plain_story story.now) }
    ensures form { OnOk result (IsFormedPlain story.now) }
{
    put_byte(out, kind_byte(story.kind))?;
    put_byte(out, story.urgency)?;
    put_text(out, &story.slugline)?;
    put_text(out, &story.headline)?;
    put_text(out, &story.byline)?;
    put_text(out, &story.language)?;
    put_text(out, &story.category)?;
    put_text(out, &story.body)?;
    put_flag(out, story.html)?;
    Ok(())
}

/// Writes what a provider sends.
pub fn put_incoming(out: &mut Vec<u8>, incoming: &Incoming) -> Result<(), AllocError>
    requires { FitsIncoming incoming.now }
    ensures bytes { OnOk result (out.new.items ≡ out.old.items ++ incoming_bytes incoming.now) }
    ensures form { OnOk result (IsFormedIncoming incoming.now) }
{
    put_text(out, &incoming.identity)?;
    put_u64(out, incoming.created)?;
    put_u64(out, incoming.embargo)?;
    put_byte(out, status_byte(incoming.status))?;
    put_story(out, &incoming.story)?;
    Ok(())
}
