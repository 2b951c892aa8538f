//! The words of a server, and its line of help.

use command_words::{command_help, help_texts, read_serving, read_words};
use news_types::{Memory, Text};
use std::alloc::Global;
use std::test::Fail;

/// Words that start a server at `h:80`, how many workers it has, and how many words its receivers are.
const STARTED: &[(&[&str], u32, usize)] = &[
    (&["serve", "s", "h:80", "1"], 1, 0),
    (&["serve", "s", "h:80", "2", "a", "h:1", "b", "h:1"], 2, 4),
    (&["serve", "s", "h:80", "16", "s", "h:80"], 16, 2),
];

/// Words that start none.
const REFUSED: &[&[&str]] = &[
    &["serve", "s", "h:80"],
    &["serve", "s", "h:80", "0"],
    &["serve", "s", "h:80", "17"],
    &["serve", "s", "h:80", "01"],
    &["serve", "s", "h:80", "2", "a"],
    &["serve", "s", "h:80", "2", "a", "h:1", "a", "h:2"],
    &["serve", "s", "h:80", "2", "A", "h:1"],
    &["drain", "s", "h:80", "2"],
];

fn texts_of(alloc: Global, words: &[&str]) -> Result<Vec<Text>, Memory> {
    let mut texts = Vec::new(alloc);
    for word in words {
        texts.push(Text::copy_of(alloc, *word)?)?;
    }
    Ok(texts)
}

/// Whether the words start a server at `h:80` with so many workers and words of receivers.
fn is_started(words: &[Text], workers: u32, count: usize) -> bool {
    match read_serving(words) {
        Some(serving) => {
            serving.address.as_str() == "h:80"
                && serving.workers == workers
                && serving.receivers.len() == count
        }
        None => false,
    }
}

#[test]
fn servers_are_started(rt: HostRuntime) -> Result<(), Fail> {
    for (words, workers, count) in STARTED {
        let words = texts_of(rt.alloc(), *words)?;
        assert!(rt; is_started(&words, *workers, *count), "{workers}");
        assert!(rt; read_words(&words).is_none(), "{workers}");
    }
    Ok(())
}

#[test]
fn other_words_start_none(rt: HostRuntime) -> Result<(), Fail> {
    for words in REFUSED {
        let words = texts_of(rt.alloc(), *words)?;
        assert!(rt; read_serving(&words).is_none());
    }
    Ok(())
}

#[test]
fn its_line_stands_behind_that_of_a_drain(rt: HostRuntime) {
    let texts = help_texts();
    assert_eq!(rt; command_help("drain"), Some(texts[15]));
    assert_eq!(rt; command_help("serve"), Some(texts[16]));
}
