//! The words of an item.
ghost use Rattle.std.specs.Prelude.{◌≡◌};
ghost use Rattle.ninjs_text.specs.Words as said;

use news_types::{Kind, Media, PubStatus};

/// What a `type` says: a text, where it is no other media word.
pub(crate) fn media_of(word: &str) -> Media
    ensures { result ≡ said.media_of word.now }
{
    match word {
        "audio" => Media::Audio,
        "video" => Media::Video,
        "picture" => Media::Picture,
        "graphic" => Media::Graphic,
        "composite" => Media::Composite,
        _ => Media::Text,
    }
}

/// What a `pubstatus` says: usable, where it is no word for withheld or canceled.
pub(crate) fn status_of(word: &str) -> PubStatus
    ensures { result ≡ said.status_of word.now }
{
    match word {
        "withheld" => PubStatus::Withheld,
        "withhelded" => PubStatus::Withheld,
        "canceled" => PubStatus::Canceled,
        _ => PubStatus::Usable,
    }
}

/// The `pubstatus` of a publication.
pub(crate) fn status_word(kind: Kind) -> &'static str
    ensures { result.now ≡ said.status_word kind }
{
    match kind {
        Kind::First => "usable",
        Kind::Correct => "usable",
        Kind::Kill => "canceled",
        Kind::Recall => "canceled",
    }
}
