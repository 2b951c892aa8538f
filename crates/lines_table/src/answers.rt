//! An answer of each kind but the denials.

use desk_answers::{answer_text, bad_text, fault_text, reply_text};
use desk_lines::LineProperty;
use news_types::{
    Answer, Bytes, FeedRow, FeedRows, FeedState, Holder, ItemRow, Kind, Media, Memory, Name, Place,
    Publication, QueueRow, QueueRows, Reply, State, Story, Text, Thing,
};
use std::alloc::Global;

/// That a flash is done, or was done before.
pub(crate) fn reply(alloc: Global, repeat: bool) -> Result<Bytes, Memory> {
    let reply = Reply {
        entry: 2,
        item: 1,
        publication: 1,
        release: 1000,
    };
    reply_text(alloc, &reply, repeat)
}

/// That a user is added: a reply without an item and a publication.
pub(crate) fn short_reply(alloc: Global) -> Result<Bytes, Memory> {
    let reply = Reply {
        entry: 1,
        item: 0,
        publication: 0,
        release: 0,
    };
    reply_text(alloc, &reply, false)
}

/// That a line is bad.
pub(crate) fn bad(alloc: Global) -> Result<Bytes, Memory> {
    bad_text(alloc, LineProperty::N)
}

/// A fault of a wire, which has a place.
pub(crate) fn wire_fault(alloc: Global) -> Result<Bytes, Memory> {
    fault_text(alloc, Some(21), "NoEnd", None)
}

/// A fault of a ninjs item, which has a property.
pub(crate) fn item_fault(alloc: Global) -> Result<Bytes, Memory> {
    fault_text(alloc, None, "WrongType", Some("type"))
}

/// What a list has.
pub(crate) fn check(alloc: Global) -> Result<Bytes, Memory> {
    let answer = Answer::Check {
        entries: 2,
        moment: 1000,
        publications: 1,
    };
    answer_text(alloc, &answer)
}

/// That a thing is not there.
pub(crate) fn unknown(alloc: Global) -> Result<Bytes, Memory> {
    answer_text(alloc, &Answer::Unknown { thing: Thing::Item })
}

/// A publication, which takes its item back.
pub(crate) fn publication(alloc: Global) -> Result<Bytes, Memory> {
    let answer = Answer::Publication(Publication {
        number: 4,
        item: 7,
        version: 2,
        kind: Kind::Kill,
        story: story(alloc)?,
        release: 1000,
    });
    answer_text(alloc, &answer)
}

/// That there is no such publication.
pub(crate) fn no_publication(alloc: Global) -> Result<Bytes, Memory> {
    answer_text(alloc, &Answer::NoPublication { count: 4 })
}

/// A feed of one entry.
pub(crate) fn feed(alloc: Global, subscriber: Name) -> Result<Bytes, Memory> {
    let mut rows = Vec::new(alloc);
    rows.push(FeedRow {
        k: 1,
        item: 1,
        publication: 1,
        kind: Kind::First,
        version: 1,
        release: 1000,
    })?;
    let answer = Answer::Feed {
        subscriber,
        length: 1,
        entries: FeedRows::of(rows),
    };
    answer_text(alloc, &answer)
}

/// A queue of one feed.
pub(crate) fn queue(alloc: Global, subscriber: Name) -> Result<Bytes, Memory> {
    let mut rows = Vec::new(alloc);
    rows.push(QueueRow {
        subscriber,
        length: 2,
        acked: 1,
        tries: 0,
        state: FeedState::Pending,
    })?;
    answer_text(alloc, &Answer::Queue(QueueRows::of(rows)))
}

/// An item that is placed and held.
pub(crate) fn item(alloc: Global, place: Place, holder: Holder) -> Result<Bytes, Memory> {
    let answer = Answer::Item(ItemRow {
        item: 7,
        state: State::InProgress,
        version: 2,
        story: story(alloc)?,
        place: Some(place),
        holder: Some(holder),
    });
    answer_text(alloc, &answer)
}

fn story(alloc: Global) -> Result<Story, Memory> {
    Ok(Story {
        kind: Media::Text,
        urgency: 3,
        slugline: Text::copy_of(alloc, "fire")?,
        headline: Text::copy_of(alloc, "Fire")?,
        byline: Text::copy_of(alloc, "")?,
        language: Text::copy_of(alloc, "en")?,
        category: Text::copy_of(alloc, "")?,
        body: Text::copy_of(alloc, "Smoke.\n")?,
        html: false,
        copyright: Text::copy_of(alloc, "City News")?,
    })
}
