//! Frames are written.
ghost use Rattle.std.specs.Prelude.{◌≡◌, ◌++◌, [], ◌∷◌, Some, IfOk, OnOk, codes, decimal, length};
ghost use Rattle.news_types.specs.Feeds.{Dispatch};
ghost use Rattle.news_types.specs.Frames.{framed, frame_bytes};
ghost use Rattle.feed_frames.specs.Writer.{the_writer};

use crate::item::item_uri;
use itoa::Buffer;
use news_types::{Bytes, Format, Memory, Name, Publication};
use std::alloc::{AllocError, Global};
use uuid::Uuid;

/// The frame of a publication at place `k` in the feed of a subscriber, whose format is this one.
pub fn write_frame(
    alloc: Global,
    store: Uuid,
    format: Format,
    subscriber: &Name,
    k: u32,
    publication: &Publication,
) -> Result<Bytes, Memory>
    // whenever it is released to the subscriber
    ensures { (d : Dispatch) → d.shown ≡ publication.now → IfOk result (λ bytes. bytes ≡ frame_bytes (framed (the_writer store) (Some format) subscriber.now k d)) }
{
    let payload = write_payload(alloc, store, format, publication)?;
    let mut frame = Vec::new(alloc);
    put_heading(&mut frame, subscriber, k, payload.as_slice().len())?;
    frame.extend_from_slice(payload.as_slice())?;
    Ok(Bytes::of(frame))
}

/// The publication in the format.
fn write_payload(
    alloc: Global,
    store: Uuid,
    format: Format,
    publication: &Publication,
) -> Result<Bytes, Memory>
    ensures { IfOk result (λ bytes. bytes ≡ the_writer store (Some format) publication.now) }
{
    match format {
        Format::Ninjs => {
            let uri = item_uri(alloc, store, publication.item)?;
            ninjs_text::write(alloc, publication, &uri)
        }
        Format::Text7901 => text7901::write(alloc, publication),
    }
}

/// Appends what stands before a payload of so many bytes.
fn put_heading(frame: &mut Vec<u8>, subscriber: &Name, k: u32, len: usize) -> Result<(), AllocError>
    ensures { OnOk result (frame.new.items ≡ frame.old.items ++ codes "FRAME " ++ subscriber.now ++ 32 ∷ [] ++ decimal k ++ 32 ∷ [] ++ decimal len ++ 10 ∷ []) }
{
    let mut digits = Buffer::new();
    frame.extend_from_slice(b"FRAME ")?;
    frame.extend_from_slice(subscriber.as_bytes())?;
    frame.push(b' ')?;
    frame.extend_from_slice(digits.format(k).as_bytes())?;
    frame.push(b' ')?;
    frame.extend_from_slice(digits.format(len).as_bytes())?;
    frame.push(b'\n')?;
    Ok(())
}
