//! Tests of `ninjs_text` and of the one reader of `desk_lines` that no program calls.

use super::given::{FIRE, Told, publication};
use desk_lines::read_story;
use news_types::{Bytes, Incoming, Kind, Media, Memory, PubStatus, Text};
use ninjs_text::{read, write};
use std::alloc::Global;
use std::test::Fail;

const URI: &str = "urn:uuid:6ba7b810-9dad-11d1-80b4-00c04fd430c8";

const USABLE: &str =
    r#"{"body_text":"Smoke.","headline":"Fire","language":"en","pubstatus":"usable","slugline":"fire","type":"text","urgency":3,"uri":"urn:uuid:6ba7b810-9dad-11d1-80b4-00c04fd430c8","version":"1","versioncreated":"1970-01-01T00:16:40Z"}"#;

const KILLED: &str =
    r#"{"body_html":"Smoke.","headline":"Fire","language":"en","pubstatus":"canceled","slugline":"fire","type":"graphic","uri":"urn:uuid:6ba7b810-9dad-11d1-80b4-00c04fd430c8","version":"1","versioncreated":"1970-01-01T00:16:40Z"}"#;

fn written(alloc: Global, told: &Told) -> Result<Bytes, Memory> {
    let uri = Text::copy_of(alloc, URI)?;
    let publication = publication(alloc, told)?;
    let written = write(alloc, &publication, &uri);
    drop(publication);
    written
}

#[test]
fn publications(rt: HostRuntime) -> Result<(), Fail> {
    let alloc = rt.alloc();
    let usable = Told {
        number: 9,
        item: 8,
        category: "pl",
        ..FIRE
    };
    assert!(rt; written(alloc, &usable)?.as_slice() == USABLE.as_bytes());
    assert!(rt; USABLE.len() == 229);
    let killed = Told {
        kind: Kind::Kill,
        media: Media::Graphic,
        urgency: 0,
        html: true,
        ..usable
    };
    assert!(rt; written(alloc, &killed)?.as_slice() == KILLED.as_bytes());
    Ok(())
}

fn is_fire(incoming: &Incoming) -> bool {
    let story = &incoming.story;
    incoming.status == PubStatus::Usable
        && incoming.created == 1000
        && incoming.embargo == 0
        && story.kind == Media::Text
        && story.urgency == 3
        && story.headline.as_str() == "Fire"
        && story.body.as_str() == "Smoke."
        && !story.html
        && story.copyright.as_str() == ""
}

// What is written is read again, but for the category.
#[test]
fn a_correction_is_read_again(rt: HostRuntime) -> Result<(), Fail> {
    let told = Told {
        kind: Kind::Correct,
        category: "pl",
        ..FIRE
    };
    let bytes = written(rt.alloc(), &told)?;
    let again = read(rt.alloc(), bytes.as_slice()).ok();
    assert!(rt; again.map(|incoming| is_fire(&incoming)) == Some(true));
    Ok(())
}

// Whether it is a story with this headline.
fn has_headline(alloc: Global, object: &[u8], headline: &str) -> bool {
    match read_story(alloc, object) {
        Ok(story) => story.headline.as_str() == headline,
        Err(_) => false,
    }
}

#[test]
fn a_story(rt: HostRuntime) -> Result<(), Fail> {
    let read = has_headline(
        rt.alloc(),
        br#"{"headline":"Pack","kind":"video","members":[]}"#,
        "Pack",
    );
    assert!(rt; read);
    Ok(())
}
