//! The words of a line.

use news_types::Name;
use std::alloc::Global;
use std::io::{self, ErrorKind};

/// The name that a word is.
pub(crate) fn name_of(word: &str) -> io::Result<Name> {
    match Name::read(word) {
        Some(name) => Ok(name),
        None => Err(invalid()),
    }
}

/// The names that the words are.
pub(crate) fn names_of(alloc: Global, words: &str) -> io::Result<Vec<Name>> {
    let mut names = Vec::new(alloc);
    for word in words.split_whitespace() {
        names.push(name_of(word)?)?;
    }
    Ok(names)
}

/// That a line is of no form.
pub(crate) fn invalid() -> io::Error {
    io::Error::from(ErrorKind::InvalidInput)
}
