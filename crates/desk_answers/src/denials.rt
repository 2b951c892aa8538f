//! Denials are written: each with its name, its number in their order, and what it carries.
ghost use Rattle.std.specs.Prelude.{◌≡◌, IfOk};
ghost use Rattle.desk_answers.specs.Answers as said;
ghost use Rattle.desk_answers.specs.Seen.{seen};

use crate::object::Told;
use crate::words;
use news_types::{Bytes, Denial, Memory};
use std::alloc::{AllocError, Global};

/// The answer to what is denied.
pub fn denial_text(alloc: Global, denial: &Denial) -> Result<Bytes, Memory>
    ensures { IfOk result (λ bytes. bytes ≡ said.denial_bytes denial.now) }
{
    let told = Told::answering(alloc, "denied")?
        .text("denial", words::word_of_denial(denial))?
        .number("number", words::number_of_denial(denial))?;
    carried(told, denial)?.written()
}

/// The object with what a denial carries.
fn carried(told: Told, denial: &Denial) -> Result<Told, AllocError>
    ensures { IfOk result (λ more. seen more ≡ said.carried denial.now (seen told)) }
{
    match denial {
        Denial::OutOfTurn { expected } => told.number("expected", *expected),
        Denial::NumberUsed { kept } => told.number("kept", *kept),
        Denial::NoPrivilege { privilege } => {
            told.text("privilege", words::word_of_privilege(*privilege))
        }
        Denial::UnknownThing { thing } => told.text("thing", words::word_of_thing(*thing)),
        Denial::NotMember { desk } => told.text("desk", desk.as_str()),
        Denial::WrongState { state } => told.text("state", words::word_of_state(*state)),
        Denial::LockedBy { user, session } => told
            .text("user", user.as_str())?
            .text("session", session.as_str()),
        Denial::NotReleased { release } => told.number("release", *release),
        Denial::AlreadyReleased { release } => told.number("release", *release),
        Denial::PastMoment { moment } => told.number("moment", *moment),
        Denial::ReceiptAhead { length } => told.number("length", *length as u64),
        Denial::Limit { which, number } => told
            .text("which", words::word_of_thing(*which))?
            .number("limit", *number as u64),
        _ => Ok(told),
    }
}
