//! Names, stories and devices that tests are given.
ghost use Rattle.std.specs.Prelude.{◌<◌};

use news_io::MemorySource;
use news_types::{Kind, Media, Memory, Name, Publication, Story, Text};
use std::alloc::{AllocError, Global};
use std::test::Fail;

pub(super) fn named(name: &str) -> Result<Name, Fail> {
    Ok(Name::read(name).ok_or("no name")?)
}

/// The calls that are to fail: the one with this number, from 1.
pub(super) fn only(alloc: Global, call: u64) -> Result<Vec<u64>, AllocError> {
    let mut calls = Vec::new(alloc);
    calls.push(call)?;
    Ok(calls)
}

/// A source that gives so many bytes in a call, and whose call of this number fails, from 1.
pub(super) fn source(
    alloc: Global,
    bytes: &[u8],
    in_pieces_of: usize,
    failing_at: u64,
) -> Result<MemorySource, Fail>
    requires { 0 < in_pieces_of }
{
    Ok(
        MemorySource::new(bytes.to_vec(alloc)?)
            .in_pieces_of(in_pieces_of)
            .failing_at(only(alloc, failing_at)?),
    )
}

/// What a story and its publication have.
#[derive(Clone, Copy)]
pub(super) struct Told<'a> {
    pub(super) number: u32,
    pub(super) item: u32,
    pub(super) kind: Kind,
    pub(super) media: Media,
    pub(super) urgency: u8,
    pub(super) category: &'a str,
    pub(super) slugline: &'a str,
    pub(super) headline: &'a str,
    pub(super) byline: &'a str,
    pub(super) body: &'a str,
    pub(super) html: bool,
    pub(super) release: u64,
}

/// A first publication of a fire, at 1000.
pub(super) const FIRE: Told = Told {
    number: 1,
    item: 1,
    kind: Kind::First,
    media: Media::Text,
    urgency: 3,
    category: "",
    slugline: "fire",
    headline: "Fire",
    byline: "",
    body: "Smoke.",
    html: false,
    release: 1000,
};

pub(super) fn publication(alloc: Global, told: &Told) -> Result<Publication, Memory> {
    Ok(Publication {
        number: told.number,
        item: told.item,
        version: 1,
        kind: told.kind,
        story: Story {
            kind: told.media,
            urgency: told.urgency,
            slugline: Text::copy_of(alloc, told.slugline)?,
            headline: Text::copy_of(alloc, told.headline)?,
            byline: Text::copy_of(alloc, told.byline)?,
            language: Text::copy_of(alloc, "en")?,
            category: Text::copy_of(alloc, told.category)?,
            body: Text::copy_of(alloc, told.body)?,
            html: told.html,
            copyright: Text::copy_of(alloc, "")?,
        },
        release: told.release,
    })
}
