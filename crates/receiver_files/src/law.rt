//! The law of files that a receiver can open.
ghost use Rattle.std.specs.Prelude.{ℕ, List};
ghost use Rattle.news_types.specs.Names.{Bytes};
ghost use Rattle.news_types.specs.Frames.{Frame};
ghost use Rattle.receiver_files.specs.Log.{Gives, Cause, IsNotOfBytes};
ghost use Rattle.receiver_files.specs.declared.refusal.Refusal.{Refusal};

/// A file that is empty, or the log of a receiver's feed, shows that receiver no cause: only a disk or want of memory keeps it from being opened.
pub fn opened_law()
    ensures { (name : Bytes) (log : List ℕ) (frames : List Frame) → Gives name log frames → (why : Refusal) → Cause name log why → IsNotOfBytes why }
{}
