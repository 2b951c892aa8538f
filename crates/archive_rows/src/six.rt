//! Six publications.

use archive_query::Facts;
use news_types::{Kind, Media, Memory, Story, Text};
use std::alloc::Global;

/// A publication, and the texts of its story.
pub(crate) struct Row {
    pub(crate) facts: Facts,
    pub(crate) urgency: u8,
    pub(crate) slugline: &'static str,
    pub(crate) headline: &'static str,
    pub(crate) byline: &'static str,
    pub(crate) language: &'static str,
    pub(crate) category: &'static str,
    pub(crate) body: &'static str,
}

pub(crate) const SIX: [Row; 6] = [
    Row {
        facts: Facts {
            number: 1,
            item: 1,
            version: 1,
            kind: Kind::First,
            release: 2000,
        },
        urgency: 3,
        slugline: "fire-harbour",
        headline: "Fire in the harbour",
        byline: "Ana Field",
        language: "en",
        category: "a",
        body: "Smoke over the docks.",
    },
    Row {
        facts: Facts {
            number: 2,
            item: 2,
            version: 1,
            kind: Kind::First,
            release: 1000,
        },
        urgency: 5,
        slugline: "council",
        headline: "Council meets",
        byline: "",
        language: "en",
        category: "p",
        body: "It said \"no\".",
    },
    Row {
        facts: Facts {
            number: 3,
            item: 1,
            version: 2,
            kind: Kind::Correct,
            release: 2600,
        },
        urgency: 2,
        slugline: "fire-harbour",
        headline: "FIRE in the harbour, two hurt",
        byline: "Ana Field",
        language: "en",
        category: "a",
        body: "Smoke over the docks. Two were hurt.",
    },
    Row {
        facts: Facts {
            number: 4,
            item: 3,
            version: 1,
            kind: Kind::First,
            release: 3000,
        },
        urgency: 0,
        slugline: "strassenfest",
        headline: "Stra\u{df}enfest am Hafen",
        byline: "",
        language: "de",
        category: "s",
        body: "In der Hafenstra\u{df}e.",
    },
    Row {
        facts: Facts {
            number: 5,
            item: 1,
            version: 3,
            kind: Kind::Kill,
            release: 3600,
        },
        urgency: 2,
        slugline: "fire-harbour",
        headline: "FIRE in the harbour, two hurt",
        byline: "Ana Field",
        language: "en",
        category: "a",
        body: "",
    },
    Row {
        facts: Facts {
            number: 6,
            item: 2,
            version: 2,
            kind: Kind::Recall,
            release: 3600,
        },
        urgency: 5,
        slugline: "council",
        headline: "Council meets",
        byline: "",
        language: "en",
        category: "p",
        body: "Wrong ( name ).",
    },
];

/// The story of a row.
pub(crate) fn story_of(alloc: Global, row: &Row) -> Result<Story, Memory> {
    Ok(Story {
        kind: Media::Text,
        urgency: row.urgency,
        slugline: Text::copy_of(alloc, row.slugline)?,
        headline: Text::copy_of(alloc, row.headline)?,
        byline: Text::copy_of(alloc, row.byline)?,
        language: Text::copy_of(alloc, row.language)?,
        category: Text::copy_of(alloc, row.category)?,
        body: Text::copy_of(alloc, row.body)?,
        html: false,
        copyright: Text::copy_of(alloc, "")?,
    })
}
