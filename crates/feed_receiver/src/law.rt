//! The laws of frames and receipts.

ghost use Rattle.feed_receiver.specs.Laws.{FramesAreReadAgain, ReceiptsAreReadAgain};

/// A frame is read again whatever bytes follow it, so no two frames have the same bytes, and none
/// begins another; a fault is at the first byte with which no frame goes on; and a frame has at most
/// 4194298 bytes.
pub fn frames_law()
    ensures { FramesAreReadAgain }
{}

/// A receipt line is read as the name and the number that it was written for, and every other line
/// as none.
pub fn receipts_law()
    ensures { ReceiptsAreReadAgain }
{}
