//! The text of a package: the word `PACKAGE`, and a line for each member with its role and its item.
ghost use Rattle.std.specs.Prelude.{◌≡◌, ◌≤◌, ◌++◌, List, IsTrue, IfOk, IfErr, IfSome, OnOk, Some, string_bytes};
ghost use Rattle.std.specs.Option.{option_map};
ghost use Rattle.byte_formats.specs.Gives.{Gives, IsFault};
ghost use Rattle.byte_formats.specs.Spelling.{IsName};
ghost use Rattle.package_members.specs.declared.member.Member.{Member as Seen};
ghost use Rattle.package_members.specs.Members.{make_package};
ghost use Rattle.package_rules.specs.Opening.{members_of_story};
ghost use Rattle.package_rules.specs.Text as said;
ghost use Rattle.package_rules.specs.Text.{IsTextOf, member_at, members_at, lines_of, package_of};

use byte_formats::{Input, Stopped};
use itoa::Buffer;
use news_types::{Media, Memory, Story, Text};
use package_members::{MOST_MEMBERS, Member, Members, makes_package};
use std::alloc::{AllocError, Global};

/// The first line.
const HEAD: &str = "PACKAGE\n";

/// The text of a package of these members.
pub fn package_text(alloc: Global, members: &[Member]) -> Result<Text, Memory>
    requires { IsTrue (make_package members.now) }
    ensures { IfOk result (IsTextOf members.now) }
{
    let mut text = String::from_str(alloc, HEAD)?;
    for member in members {
        push_line(&mut text, member)?;
    }
    Ok(Text::of(text))
}

/// The characters of a member's role, whose form is that of a name.
fn role_text(member: &Member) -> &str
    ensures text { result.now ≡ member.now.role }
    ensures form { IsName member.now.role }
{
    let _ = member.role.as_bytes();
    member.role.as_str()
}

/// Appends the line of a member.
fn push_line(text: &mut String, member: &Member) -> Result<(), AllocError>
    ensures line { OnOk result (string_bytes text.new ≡ string_bytes text.old ++ said.member_line member.now) }
    ensures form { OnOk result (IsName member.now.role × (member.now.item ≤ 4294967295)) }
{
    let mut digits = Buffer::new();
    text.push_str(role_text(member))?;
    text.push(' ')?;
    text.push_str(digits.format(member.item))?;
    text.push('\n')?;
    Ok(())
}

/// The members of the text of a package; nothing where the bytes are no such text, all of them.
pub fn read_package(alloc: Global, body: &[u8]) -> Result<Option<Members>, Memory>
    ensures value { IfOk result (λ read. read ≡ package_of body.now) }

    // What is read is so written,
    ensures found { IfOk result (λ read. IfSome read (λ members. IsTextOf members body.now)) }

    // and what is so written is read.
    ensures only { IfOk result (λ read. (members : List Seen) → IsTextOf members body.now → read ≡ Some members) }
{
    let Some(members) = read_lines(alloc, body)? else {
        return Ok(None);
    };
    if !makes_package(&members) {
        return Ok(None);
    }
    Ok(Some(Members::of(members)))
}

/// The members of the lines of such a text, whether a package can be made of them or not.
fn read_lines(alloc: Global, body: &[u8]) -> Result<Option<Vec<Member>>, Memory>
    ensures { IfOk result (λ read. option_map (λ members. members.items) read ≡ lines_of body.now) }
{
    let mut input = Input::new(body);
    if input.literal(HEAD.as_bytes()).is_err() {
        return Ok(None);
    }
    next_members(alloc, &mut input)
}

/// The members of the lines that are left, at most as many as a package has.
fn next_members(alloc: Global, input: &mut Input) -> Result<Option<Vec<Member>>, Memory>
    ensures { IfOk result (λ read. option_map (λ members. members.items) read ≡ members_at input.old 64) }
{
    let mut members = Vec::new(alloc);
    'lines: while input.left() > 0 {
        if members.len() == MOST_MEMBERS {
            return Ok(None);
        }
        let Ok(member) = next_member(input) else {
            return Ok(None);
        };
        members.push(member)?;
    }
    Ok(Some(members))
}

/// The member of the next line. It takes no memory.
#[tactic(auto, unfolding(crate::specs::Text::member_at))]
fn next_member(input: &mut Input) -> Result<Member, Stopped>
    ensures gives { Gives result input.new (member_at input.old) }
    ensures calm { IfErr result IsFault }
{
    Ok(Member {
        role: input.word()?,
        item: input.decimal(b'\n', 1, u32::MAX)?,
    })
}

/// The members that a story names.
pub fn named_members(alloc: Global, story: &Story) -> Result<Members, Memory>
    ensures { IfOk result (λ members. members ≡ members_of_story story.now) }
{
    if story.kind != Media::Composite {
        return Ok(Members::of(Vec::new(alloc)));
    }
    match read_package(alloc, story.body.as_str().as_bytes())? {
        Some(members) => Ok(members),
        None => Ok(Members::of(Vec::new(alloc))),
    }
}
