//! The fields of a record are read, each by its form.
ghost use Rattle.std.specs.Prelude.{◌≡◌, ◌==◌, ◌≤◌, ◌<◌, ℕ, ◌∷◌, IfOk, IfSome, length, true};
ghost use Rattle.std.specs.Char.{is_ascii_digit};
ghost use Rattle.std.specs.List.{list_all, position};
ghost use Rattle.std.specs.Option.{option_map};
ghost use Rattle.news_types.specs.Fits.{FitsLag};
ghost use Rattle.csv.specs.Records.{fields_of};
ghost use Rattle.subscriber_import.specs.Fields as form;
ghost use Rattle.subscriber_import.specs.Reads.{field_of, parts_behind};
ghost use Rattle.subscriber_import.specs.Seen.{seen, FitsWanted};

use csv::ByteRecord;
use news_types::{Format, Memory, Name, Names};
use std::alloc::Global;
use std::str;

/// The most products of a subscriber.
const MOST_PRODUCTS: usize = 64;

/// The greatest lag, in seconds.
const MOST_LAG: u32 = 604_800;

/// The most digits of a lag.
const MOST_DIGITS: usize = 6;

/// A subscriber as a record has it.
#[derive(Drop)]
pub(crate) struct Wanted {
    pub(crate) subscriber: Name,
    pub(crate) format: Format,
    pub(crate) products: Names,
    pub(crate) lag: u32,
}

/// What a record asks for; nothing where it has not four fields, or one is not of its form.
pub(crate) fn read_record(alloc: Global, row: &ByteRecord) -> Result<Option<Wanted>, Memory>
    ensures value { IfOk result (λ read. option_map seen read ≡ form.wanted_of (fields_of row.now)) }
    ensures fits { IfOk result (λ read. IfSome read FitsWanted) }
{
    if row.len() != 4 {
        return Ok(None);
    }
    read_fields(
        alloc,
        field(row, 0),
        field(row, 1),
        field(row, 2),
        field(row, 3),
    )
}

/// A field of a record, empty where it has none there.
fn field(row: &ByteRecord, at: usize) -> &[u8]
    ensures { result.now ≡ field_of (fields_of row.now) at }
{
    match row.get(at) {
        Some(field) => field,
        None => b"",
    }
}

/// What four fields ask for.
fn read_fields(
    alloc: Global,
    subscriber: &[u8],
    format: &[u8],
    products: &[u8],
    lag: &[u8],
) -> Result<Option<Wanted>, Memory>
    ensures value { IfOk result (λ read. option_map seen read ≡ form.wanted_by (form.name_of subscriber.now) (form.format_of format.now) (form.products_of products.now) (form.lag_of lag.now)) }
    ensures fits { IfOk result (λ read. IfSome read FitsWanted) }
{
    let Some(subscriber) = read_name(subscriber) else {
        return Ok(None);
    };
    let Some(format) = read_format(format) else {
        return Ok(None);
    };
    let Some(lag) = read_lag(lag) else {
        return Ok(None);
    };
    match read_products(alloc, products)? {
        Some(products) => Ok(Some(Wanted {
            subscriber,
            format,
            products,
            lag,
        })),
        None => Ok(None),
    }
}

/// The name that a field is.
fn read_name(field: &[u8]) -> Option<Name>
    ensures { result ≡ form.name_of field.now }
{
    match str::from_utf8(field) {
        Ok(text) => Name::read(text),
        Err(_) => None,
    }
}

/// The format that a field names.
fn read_format(field: &[u8]) -> Option<Format>
    ensures { result ≡ form.format_of field.now }
{
    if field == b"ninjs".as_slice() {
        return Some(Format::Ninjs);
    }
    if field == b"7901".as_slice() {
        return Some(Format::Text7901);
    }
    None
}

/// The names of a field, with a `;` between two: none where it is empty, and at most as many as a subscriber may have.
fn read_products(alloc: Global, field: &[u8]) -> Result<Option<Names>, Memory>
    ensures value { IfOk result (λ read. read ≡ form.products_of field.now) }
    ensures few { IfOk result (λ read. IfSome read (λ names. length names ≤ 64)) }
{
    if field.is_empty() {
        return Ok(Some(Names::of(Vec::new(alloc))));
    }
    read_parts(alloc, field)
}

/// The names that the parts of a field are.
fn read_parts(alloc: Global, field: &[u8]) -> Result<Option<Names>, Memory>
    ensures value { IfOk result (λ read. read ≡ form.few_names (form.parts_of field.now)) }
    ensures few { IfOk result (λ read. IfSome read (λ names. length names ≤ 64)) }
{
    let mut names = Vec::new(alloc);
    let mut rest = field;
    'parts: loop {
        let (part, behind) = first_part(rest);
        let Some(name) = read_name(part) else {
            return Ok(None);
        };
        if names.len() == MOST_PRODUCTS {
            return Ok(None);
        }
        names.push(name)?;
        let Some(next) = behind else {
            return Ok(Some(Names::of(names)));
        };
        rest = next;
    }
}

/// The first part of a field, and what stands behind the `;` at its end, if there is one.
fn first_part(field: &[u8]) -> (&[u8], Option<&[u8]>)
    ensures parts { form.parts_of field.now ≡ result.0.now ∷ parts_behind result.1 }
    ensures less { IfSome result.1 (λ behind. length behind.now < length field.now) }
{
    match first_end(field) {
        Some(end) => (&field[..end], Some(&field[end + 1..])),
        None => (field, None),
    }
}

/// Where the first `;` of a field is.
fn first_end(field: &[u8]) -> Option<usize>
    ensures place { result ≡ position (λ (b : ℕ). b == 59) field.now }
    ensures within { IfSome result (λ end. end < length field.now) }
{
    field.iter().position(|byte| *byte == b';')
}

/// The seconds that a field has, in decimal without leading zeros.
fn read_lag(field: &[u8]) -> Option<u32>
    ensures value { result ≡ form.lag_of field.now }
    ensures fits { IfSome result FitsLag }
{
    if !is_decimal(field) {
        return None;
    }
    let lag = value_of(field);
    if lag <= MOST_LAG { Some(lag) } else { None }
}

/// Whether a field is one to six digits, of which the first is 0 only where it stands alone.
fn is_decimal(field: &[u8]) -> bool
    ensures { result ≡ form.is_decimal field.now }
{
    field.len() > 0 && field.len() <= MOST_DIGITS && are_digits(field) && !leads_with_zero(field)
}

fn are_digits(field: &[u8]) -> bool
    ensures { result ≡ list_all is_ascii_digit field.now }
{
    field.iter().all(|byte| byte.is_ascii_digit())
}

/// Whether the first of several bytes is a 0.
fn leads_with_zero(field: &[u8]) -> bool
    ensures { result ≡ form.leads_with_zero field.now }
{
    field.len() > 1 && field[0] == b'0'
}

/// The number of these digits, of which there are at most six.
fn value_of(field: &[u8]) -> u32
    requires { form.is_decimal field.now ≡ true }
    ensures { result ≡ form.value_behind 0 field.now }
{
    let mut value = 0;
    for byte in field {
        value = value * 10 + (*byte - b'0') as u32;
    }
    value
}
