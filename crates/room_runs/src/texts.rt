//! The texts of answers.
ghost use Rattle.std.specs.Prelude.{◌≡◌, IfOk};
ghost use Rattle.news_types.specs.declared.denial.Denial.TheVariants.{UnknownThing};
ghost use Rattle.news_types.specs.Names.{Bytes};
ghost use Rattle.desk_answers.specs.Answers.{bad_bytes, denial_bytes, answer_bytes, HasLine};
ghost use Rattle.room_runs.specs.Texts.{IsText, IsAnswerText, IsReceiptText};

use desk_answers::{answer_text, bad_text, denial_text, reply_text};
use desk_lines::LineProperty;
use line_run::Stopped;
use news_room::{Handled, Kept};
use news_types::{Answer, Bytes, Denial, Memory, Thing};
use std::alloc::Global;

/// The text that was written, if there was memory for it.
fn text_of(written: Result<Bytes, Memory>) -> Result<Vec<u8>, Stopped>
    ensures { (bytes : Bytes) → IfOk written (λ text. text ≡ bytes) → IsText bytes result }
{
    match written {
        Ok(text) => Ok(text.into_vec()),
        Err(Memory) => Err(Stopped::Memory),
    }
}

/// What a line is answered whose first bad property this is.
pub fn bad_line(alloc: Global, property: LineProperty) -> Result<Vec<u8>, Stopped>
    ensures { IsText (bad_bytes property) result }
{
    text_of(bad_text(alloc, property))
}

/// What a question is answered that names a thing which is not there.
pub(crate) fn unknown_answered(alloc: Global, thing: Thing) -> Result<Vec<u8>, Stopped>
    ensures { IsText (denial_bytes (UnknownThing thing)) result }
{
    text_of(denial_text(alloc, &Denial::UnknownThing { thing }))
}

/// What a question is answered.
pub fn question_answered(alloc: Global, answer: &Answer) -> Result<Vec<u8>, Stopped>
    requires { HasLine answer.now }
    ensures { IsText (answer_bytes answer.now) result }
{
    text_of(answer_text(alloc, answer))
}

/// What a request is answered.
pub(crate) fn request_answered(alloc: Global, answered: &Handled) -> Result<Vec<u8>, Stopped>
    ensures { IsAnswerText answered.now result }
{
    match answered {
        Handled::Done(reply) => text_of(reply_text(alloc, reply, false)),
        Handled::Repeat(reply) => text_of(reply_text(alloc, reply, true)),
        Handled::Denied(denial) => text_of(denial_text(alloc, denial)),
        Handled::Fault => Err(Stopped::Fault),
        Handled::Full { .. } => Err(Stopped::Full),
        Handled::Memory => Err(Stopped::Memory),
    }
}

/// What a receipt is answered.
pub(crate) fn receipt_answered(alloc: Global, kept: &Kept) -> Result<Vec<u8>, Stopped>
    ensures { IsReceiptText kept.now result }
{
    match kept {
        Kept::Done(reply) => text_of(reply_text(alloc, reply, false)),
        Kept::Denied(denial) => text_of(denial_text(alloc, denial)),
        Kept::Fault => Err(Stopped::Fault),
        Kept::Full { .. } => Err(Stopped::Full),
    }
}
