//! The parts of an entry that is given as its bytes, as a segment tells them.

ghost use Rattle.std.specs.Prelude.{◌≡◌, ◌≤◌, IfOk, IfErr};
ghost use Rattle.news_types.specs.declared.entry.Act.{Act};
ghost use Rattle.byte_formats.specs.Gives.{IsFault};
ghost use Rattle.entry_codec.specs.Spelling.{act_tag, without_tag, act as act_bytes};
ghost use Rattle.entry_codec.specs.Formed.{IsFormedAct};
ghost use Rattle.entry_segments.specs.Told.{Tells, told_size};
ghost use Rattle.entry_segments.specs.Spelled.{entry_in, IsPayload};

use crate::told::Told;
use byte_formats::{Input, Stopped};
use news_types::{Memory, Moment};

/// The moment of an entry, and what is told of its act.
#[derive(Drop)]
pub struct EntryParts {
    pub moment: Moment,
    pub told: Told,
}

/// The parts of the entry that these bytes spell.
pub fn parts_of(payload: &[u8]) -> Result<EntryParts, Memory>
    requires { IsPayload payload.now }
    ensures moment { IfOk result (λ p. p.moment ≡ (entry_in payload.now).moment) }
    ensures tells { IfOk result (λ p. Tells p.told (entry_in payload.now).act) }
    ensures short { IfOk result (λ p. told_size p.told ≤ 2097084) }
{
    let mut input = Input::new(payload);
    match read_parts(&mut input) {
        Ok(parts) => Ok(parts),
        Err(Stopped::Memory) => Err(Memory),
        Err(Stopped::Left(_)) => unreachable!(),
    }
}

fn read_parts(input: &mut Input) -> Result<EntryParts, Stopped>
    requires { IsPayload input.old }
    ensures moment { IfOk result (λ p. p.moment ≡ (entry_in input.old).moment) }
    ensures tells { IfOk result (λ p. Tells p.told (entry_in input.old).act) }
    ensures fault { IfErr result (λ stopped. IsFault stopped → ⊥) }
{
    let moment = input.u64()?;
    let tag = input.byte(1, 7)?;
    let told = told_behind(input, tag)?;
    Ok(EntryParts { moment, told })
}

/// What is told of the act of this tag, from the bytes behind the tag.
fn told_behind(input: &mut Input, tag: u8) -> Result<Told, Stopped>
    ensures tells { (a : Act) → IsFormedAct a → tag ≡ act_tag a → input.old ≡ without_tag (act_bytes a) → IfOk result (λ told. Tells told a) }
    ensures fault { (a : Act) → IsFormedAct a → tag ≡ act_tag a → input.old ≡ without_tag (act_bytes a) → IfErr result (λ stopped. IsFault stopped → ⊥) }
{
    match tag {
        1 | 4 => Ok(Told::Nothing),
        2 | 3 => told_counted(input, tag),
        _ => Ok(Told::Boxed { len: input.left() }),
    }
}

/// What is told of an attempt or a receipt.
fn told_counted(input: &mut Input, tag: u8) -> Result<Told, Stopped>
    requires low { 2 ≤ tag }
    requires high { tag ≤ 3 }
    ensures tells { (a : Act) → IsFormedAct a → tag ≡ act_tag a → input.old ≡ without_tag (act_bytes a) → IfOk result (λ told. Tells told a) }
    ensures fault { (a : Act) → IsFormedAct a → tag ≡ act_tag a → input.old ≡ without_tag (act_bytes a) → IfErr result (λ stopped. IsFault stopped → ⊥) }
{
    Ok(Told::Counted {
        name: input.name()?,
        number: input.u32()?,
    })
}
