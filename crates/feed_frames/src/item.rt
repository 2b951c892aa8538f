//! The identifiers of items.
ghost use Rattle.std.specs.Prelude.{◌≡◌, IfOk};
ghost use Rattle.feed_frames.specs.Writer as said;

use news_types::{Memory, Text};
use std::alloc::Global;
use uuid::Uuid;

/// The URI of an item: `urn:uuid:` and the version 5 UUID of its name in the store.
pub(crate) fn item_uri(alloc: Global, store: Uuid, item: u32) -> Result<Text, Memory>
    ensures { IfOk result (λ uri. uri ≡ said.item_uri store item) }
{
    let name = format!(in alloc; "item:{item}")?;
    let identifier = Uuid::new_v5(&store, name.as_bytes());
    let mut buffer = Uuid::encode_buffer();
    Text::copy_of(alloc, identifier.urn().encode_lower(&mut buffer))
}
