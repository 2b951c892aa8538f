//! Packages.
ghost use Rattle.std.specs.Prelude.{◌≡◌, IfOk};
ghost use Rattle.news_types.specs.Fits.{FitsStory};
ghost use Rattle.package_rules.specs.Composed.{composed, with_body};

use crate::text::package_text;
use news_types::{Media, Memory, Story, Text};
use package_members::{Member, Members, makes_package};
use std::alloc::Global;
use std::marker::Model;

/// A composite story about some items, its members.
#[derive(Drop)]
pub struct Package {
    story: Story,
    members: Members,
}

impl Model for Package {
    ghost use Rattle.package_rules.specs.Composed.{Composed, IsComposed};

    ghost Value = { Composed };

    ghost view = { λ a. record { story = a.story; members = a.members } };

    ghost invariant = { λ a. IsComposed (record { story = a.story; members = a.members }) };
}

/// The story with this text as its body, as the story of a package.
fn composite_story(mut story: Story, body: Text) -> Story
    ensures { result ≡ with_body story body }
{
    story.kind = Media::Composite;
    story.body = body;
    story.html = false;
    story
}

impl Package {
    /// A package of these members. The kind and the body of the story are replaced. Nothing where no package can be made of
    /// the members.
    pub fn new(alloc: Global, story: Story, members: &[Member]) -> Result<Option<Package>, Memory>
        requires { FitsStory story }
        ensures { IfOk result (λ made. made ≡ composed story members.now) }
    {
        if !makes_package(members) {
            return Ok(None);
        }
        let body = package_text(alloc, members)?;
        let members = Members::of(Vec::from_slice(alloc, members)?);
        Ok(Some(Package {
            story: composite_story(story, body),
            members,
        }))
    }

    /// Its story.
    pub fn story(&self) -> &Story
        ensures story { result.now ≡ self.now.story }
        ensures fits { FitsStory self.now.story }
    {
        &self.story
    }

    /// Its members.
    pub fn members(&self) -> &[Member]
        ensures { result.now ≡ self.now.members }
    {
        self.members.as_slice()
    }
}
