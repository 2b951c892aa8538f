//! The properties of an object.
ghost use Rattle.std.specs.Prelude.{◌≡◌, option_map};
ghost use Rattle.serde_json.specs.View.{view};
ghost use Rattle.agency_items.specs.Names as said;

use crate::fault::Property;
use serde_json::Value;

/// The property's value, in lower case or else in camel case, where it is there and not null.
pub(crate) fn property(object: &Value, property: Property) -> Option<&Value>
    ensures { option_map (λ found. view found.now) result ≡ said.property property (view object.now) }
{
    match present(object, property.name()) {
        Some(found) => Some(found),
        None => present(object, property.camel_name()),
    }
}

fn present<'a>(object: &'a Value, key: &str) -> Option<&'a Value>
    ensures { option_map (λ found. view found.now) result ≡ said.present key.now (view object.now) }
{
    match object.get(key) {
        None => None,
        Some(found) => { if found.is_null() { None } else { Some(found) } }
    }
}
