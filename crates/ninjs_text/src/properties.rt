//! The properties of an object, each read by its form.
ghost use Rattle.std.specs.Prelude.{◌≡◌, ◌≤◌, IfOk, option_map};
ghost use Rattle.std.specs.Result.{result_map_both};
ghost use Rattle.serde_json.specs.View.{view};
ghost use Rattle.news_types.specs.Fits.{IsMoment};
ghost use Rattle.ninjs_text.specs.Properties as said;

use crate::fault::{NinjsFault, Property};
use news_types::Moment;
use release_rules::moment_of_text;
use serde_json::Value;

/// The property's value, where it is there and not null.
pub(crate) fn present(object: &Value, property: Property) -> Option<&Value>
    ensures { option_map (λ found. view found.now) result ≡ said.property property (view object.now) }
{
    match object.get(property.name()) {
        None => None,
        Some(found) => { if found.is_null() { None } else { Some(found) } }
    }
}

/// A text of any length, empty where the property is missing.
pub(crate) fn word(object: &Value, property: Property) -> Result<&str, NinjsFault>
    ensures { result_map_both (λ word. word.now) (λ fault. fault) result ≡ said.word property (view object.now) }
{
    match present(object, property) {
        None => Ok(""),
        Some(found) => match found.as_str() {
            None => Err(NinjsFault::WrongType { property }),
            Some(word) => Ok(word),
        },
    }
}

/// A text of at most so many bytes, if the property is there.
pub(crate) fn short_text(
    object: &Value,
    property: Property,
    limit: usize,
) -> Result<Option<&str>, NinjsFault>
    ensures value { result_map_both (option_map (λ text. text.now)) (λ fault. fault) result ≡ said.short_text limit property (view object.now) }
{
    match present(object, property) {
        None => Ok(None),
        Some(found) => match found.as_str() {
            None => Err(NinjsFault::WrongType { property }),
            Some(text) => {
                if text.len() <= limit {
                    Ok(Some(text))
                } else {
                    Err(NinjsFault::TooLong { property })
                }
            }
        },
    }
}

/// The moment of a text, or 0 where the property is missing.
pub(crate) fn moment_or_zero(object: &Value, property: Property) -> Result<Moment, NinjsFault>
    ensures value { result ≡ said.moment_or_zero property (view object.now) }
    ensures bound { IfOk result IsMoment }
{
    match present(object, property) {
        None => Ok(0),
        Some(found) => match found.as_str() {
            None => Err(NinjsFault::WrongType { property }),
            Some(text) => match moment_of_text(text) {
                None => Err(NinjsFault::WrongType { property }),
                Some(moment) => Ok(moment),
            },
        },
    }
}

/// A whole number from 0 to 9, or 0 where the property is missing.
pub(crate) fn urgency(object: &Value) -> Result<u8, NinjsFault>
    ensures value { result ≡ said.urgency (view object.now) }
    ensures bound { IfOk result (λ urgency. urgency ≤ 9) }
{
    match present(object, Property::Urgency) {
        None => Ok(0),
        Some(found) => match found.as_u64() {
            None => Err(NinjsFault::WrongType {
                property: Property::Urgency,
            }),
            Some(urgency) => {
                if urgency <= 9 {
                    Ok(urgency as u8)
                } else {
                    Err(NinjsFault::WrongType {
                        property: Property::Urgency,
                    })
                }
            }
        },
    }
}
