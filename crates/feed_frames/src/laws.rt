//! What holds of every frame.
ghost use Rattle.feed_frames.specs.Sizes.{FramesAreShort};

/// A publication of a story within the limits has a payload of at most 4194240 bytes in either format, and a frame of
/// at most 4194304. It states this and does nothing.
pub fn frame_sizes_law()
    ensures { FramesAreShort }
{}
