//! The words and the number of an item that stand for its kind, its status and its urgency.
ghost use Rattle.std.specs.Prelude.{◌≡◌, ◌≤◌};
ghost use Rattle.serde_json.specs.View.{view};
ghost use Rattle.agency_items.specs.Words as said;

use crate::fault::{ItemFault, Property};
use crate::properties::property;
use crate::texts::{behind_colon, is_same_word};
use news_types::{Media, PubStatus};
use serde_json::Value;
use std::num::saturating_f64_to_u8;

/// The kind that `type` names: a text where it is missing.
pub(crate) fn kind(object: &Value) -> Result<Media, ItemFault>
    ensures { result ≡ said.kind (view object.now) }
{
    match property(object, Property::MediaType) {
        None => Ok(Media::Text),
        Some(found) => match found.as_str() {
            None => Err(ItemFault::WrongType {
                property: Property::MediaType,
            }),
            Some(word) => kind_by(word),
        },
    }
}

fn kind_by(word: &str) -> Result<Media, ItemFault>
    ensures { result ≡ said.kind_by word.now }
{
    match word {
        "text" => Ok(Media::Text),
        "audio" => Ok(Media::Audio),
        "video" => Ok(Media::Video),
        "picture" => Ok(Media::Picture),
        "graphic" => Ok(Media::Graphic),
        "composite" => Ok(Media::Composite),
        _ => Err(ItemFault::WrongKind),
    }
}

/// The status that `pubstatus` names: usable where it is missing, and withheld by a word that is not known.
pub(crate) fn status(object: &Value) -> Result<PubStatus, ItemFault>
    ensures { result ≡ said.status (view object.now) }
{
    match property(object, Property::PubStatus) {
        None => Ok(PubStatus::Usable),
        Some(found) => match found.as_str() {
            None => Err(ItemFault::WrongType {
                property: Property::PubStatus,
            }),
            Some(text) => Ok(status_by(behind_colon(text.as_bytes()))),
        },
    }
}

fn status_by(word: &[u8]) -> PubStatus
    ensures { result ≡ said.status_by word.now }
{
    if is_same_word(word, b"usable") {
        PubStatus::Usable
    } else if is_canceled(word) {
        PubStatus::Canceled
    } else {
        PubStatus::Withheld
    }
}

fn is_canceled(word: &[u8]) -> bool
    ensures { result ≡ said.is_canceled word.now }
{
    is_same_word(word, b"canceled")
        || is_same_word(word, b"cancelled")
        || is_same_word(word, b"killed")
        || is_same_word(word, b"recalled")
}

/// The urgency, 0 to 9, and 0 where there is none.
pub(crate) fn urgency(object: &Value) -> u8
    ensures value { result ≡ said.urgency (view object.now) }
    ensures bound { result ≤ 9 }
{
    match property(object, Property::Urgency) {
        None => 0,
        Some(found) => level(found),
    }
}

fn level(found: &Value) -> u8
    ensures value { result ≡ said.level (view found.now) }
    ensures bound { result ≤ 9 }
{
    match found.as_u64() {
        Some(whole) => digit_level(whole),
        None => match found.as_f64() {
            Some(number) => float_level(number),
            None => match found.as_str() {
                Some(text) => text_level(text.as_bytes()),
                None => 0,
            },
        },
    }
}

fn digit_level(whole: u64) -> u8
    ensures value { result ≡ said.digit_level whole }
    ensures bound { result ≤ 9 }
{
    if whole <= 9 { whole as u8 } else { 0 }
}

fn float_level(number: f64) -> u8
    ensures value { result ≡ said.float_level number }
    ensures bound { result ≤ 9 }
{
    let whole = saturating_f64_to_u8(number);
    if whole <= 9 && f64::from(whole) == number {
        whole
    } else {
        0
    }
}

fn text_level(text: &[u8]) -> u8
    ensures value { result ≡ said.text_level text.now }
    ensures bound { result ≤ 9 }
{
    match text {
        [digit @ b'0'..=b'9'] => *digit - b'0',
        _ => 0,
    }
}
