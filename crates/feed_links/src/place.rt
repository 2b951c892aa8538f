//! Where a link has a subscriber.
ghost use Rattle.std.specs.Prelude.{◌≡◌};
ghost use Rattle.feed_links.specs.Receivers.{place};

use news_types::Name;

/// The first place of a name among these.
pub(crate) fn place_of(names: &[Name], name: &Name) -> Option<usize>
    ensures { result ≡ place name.now names.now }
{
    names.iter().position(|other| *name == *other)
}
