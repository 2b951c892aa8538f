//! The names of a drill.
ghost use Rattle.std.specs.Prelude.{◌≡◌, ◌<◌, ◌++◌, length, IsTrue, IfOk, decimal};
ghost use Rattle.std.specs.List.{list_all};
ghost use Rattle.news_types.specs.Names.{is_name, is_name_byte};

use news_types::{Memory, Name};
use std::alloc::Global;

/// This name.
pub(crate) fn named(word: &str) -> Name
    requires { IsTrue (is_name word.now) }
    ensures { result ≡ word.now }
{
    match Name::read(word) {
        Some(name) => name,
        None => unreachable!(),
    }
}

/// The name of a letter and a digit.
pub(crate) fn numbered(alloc: Global, letter: &str, digit: u32) -> Result<Name, Memory>
    requires letter { length letter.now ≡ 1 }
    requires small { IsTrue (list_all is_name_byte letter.now) }
    requires digit { digit < 10 }
    ensures { IfOk result (λ name. name ≡ letter.now ++ decimal digit) }
{
    let word = format!(in alloc; "{letter}{digit}")?;
    Ok(named(word.as_str()))
}
