//! Tables at their limits.

use crate::tables::{Tables, tables_of, take_all};
use news_types::{Denial, Memory, Thing};

/// Adds one more, with this number between the two parts of a request: why it is denied, if it is.
fn add(
    tables: &mut Tables,
    front: &str,
    number: u32,
    rest: &str,
) -> Result<Option<Denial>, Memory> {
    let line = format!(in tables.allocator(); "{front}{number}{rest}")?;
    tables.answer(line.as_str())
}

/// Adds so many, and then one too many of the thing, of which there are then as many as may be: the first that has another answer.
fn fill(
    tables: &mut Tables,
    front: &str,
    rest: &str,
    count: u32,
    thing: Thing,
    most: u32,
) -> Option<u32> {
    for number in 0..count {
        if !matches!(add(tables, front, number, rest), Ok(None)) {
            return Some(number);
        }
    }
    match add(tables, front, count, rest) {
        Ok(Some(Denial::Limit { which, number })) if which == thing && number == most => None,
        _ => Some(count),
    }
}

const CITY: &str = r#"{"by":"admin","number":1,"do":"add_desk","desk":"city"}"#;

/// What is asked for once there are as many as may be.
const LAYOUT: &str = r#"{"by":"admin","number":1,"do":"add_stage","desk":"n0","stage":"layout"}"#;

const USER: &str = r#"{"by":"admin","number":1,"do":"add_user","user":"n"#;

const STAGE: &str = r#"{"by":"admin","number":1,"do":"add_stage","desk":"city","stage":"n"#;

const DESK: &str = r#"{"by":"admin","number":1,"do":"add_desk","desk":"n"#;

const CONDITION: &str =
    r#"{"by":"admin","number":1,"do":"add_condition","field":"urgency","op":"eq","values":["1"],"condition":"c"#;

/// What each request ends with behind its number.
const END: &str = r#""}"#;

// One user is there from the start, and a desk has two stages.
#[test]
fn tables_are_full_at_their_limits(rt: HostRuntime) {
    let mut tables = tables_of(rt.alloc(), &[CITY]).expect(&rt, "a request is not done");
    let filled = [
        fill(&mut tables, USER, END, 4095, Thing::User, 4096),
        fill(&mut tables, STAGE, END, 62, Thing::Stage, 64),
        fill(&mut tables, DESK, END, 255, Thing::Desk, 256),
        fill(&mut tables, CONDITION, END, 4096, Thing::Condition, 4096),
    ];
    let denied = take_all(&mut tables, &[LAYOUT]);
    drop(tables);
    assert_eq!(rt; (filled, denied), ([None; 4], None));
}

const PRODUCT: &str = r#"{"by":"admin","number":1,"do":"add_product","product":"n"#;

const SUBSCRIBER: &str =
    r#"{"by":"admin","number":1,"do":"add_subscriber","format":"ninjs","products":["all"],"subscriber":"n"#;

const FILTERS: &[&str] = &[
    r#"{"by":"admin","number":1,"do":"add_condition","condition":"f1","field":"urgency","op":"eq","values":["1"]}"#,
    r#"{"by":"admin","number":1,"do":"add_filter","filter":"f1","statements":[{"conditions":["f1"]}]}"#,
    r#"{"by":"admin","number":1,"do":"add_condition","condition":"f2","field":"urgency","op":"lte","values":["2"]}"#,
    r#"{"by":"admin","number":1,"do":"add_filter","filter":"f2","statements":[{"conditions":["f2"]}]}"#,
];

const NO_MORE_PRODUCTS: Denial = Denial::Limit {
    which: Thing::Product,
    number: 1024,
};

const NO_MORE_SUBSCRIBERS: Denial = Denial::Limit {
    which: Thing::Subscriber,
    number: 256,
};

const NO_FILTER: Denial = Denial::UnknownThing {
    thing: Thing::Filter,
};

const NO_PRODUCT: Denial = Denial::UnknownThing {
    thing: Thing::Product,
};

/// Whether a request is denied for this reason.
fn is_denied(tables: &mut Tables, line: &str, reason: Denial) -> bool {
    match tables.answer(line) {
        Ok(Some(denial)) => denial == reason,
        _ => false,
    }
}

/// Whether each of these is denied, once both tables are full: a limit is the last reason.
fn are_denied(tables: &mut Tables) -> [bool; 6] {
    [
        is_denied(
            tables,
            r#"{"by":"admin","number":1,"do":"add_product","product":"more","how":"blocking","filter":"f1"}"#,
            NO_MORE_PRODUCTS,
        ),
        is_denied(
            tables,
            r#"{"by":"admin","number":1,"do":"add_product","product":"more","how":"blocking","filter":"x"}"#,
            NO_FILTER,
        ),
        is_denied(
            tables,
            r#"{"by":"admin","number":1,"do":"add_product","product":"n0","how":"blocking"}"#,
            Denial::NameTaken,
        ),
        is_denied(
            tables,
            r#"{"by":"admin","number":1,"do":"add_subscriber","subscriber":"more","format":"ninjs","products":["n0"]}"#,
            NO_MORE_SUBSCRIBERS,
        ),
        is_denied(
            tables,
            r#"{"by":"admin","number":1,"do":"add_subscriber","subscriber":"more","format":"ninjs","products":["more"]}"#,
            NO_PRODUCT,
        ),
        is_denied(
            tables,
            r#"{"by":"admin","number":1,"do":"add_subscriber","subscriber":"n0","format":"ninjs","products":["n0"]}"#,
            Denial::NameTaken,
        ),
    ]
}

// What is there already can still be set.
const SET: &[&str] = &[
    r#"{"by":"admin","number":1,"do":"set_product","product":"n0","how":"blocking","filter":"f2"}"#,
    r#"{"by":"admin","number":1,"do":"set_subscriber","subscriber":"n0","products":["n0","n1022"],"off":["f2"]}"#,
];

// The product `all` is there from the start, and counts.
#[test]
fn products_and_subscribers_are_full_at_their_limits(rt: HostRuntime) {
    let mut tables = tables_of(rt.alloc(), FILTERS).expect(&rt, "a request is not done");
    let filled = [
        fill(&mut tables, PRODUCT, END, 1023, Thing::Product, 1024),
        fill(&mut tables, SUBSCRIBER, END, 256, Thing::Subscriber, 256),
    ];
    let denied = are_denied(&mut tables);
    let set = take_all(&mut tables, SET);
    drop(tables);
    assert_eq!(rt; (filled, denied, set), ([None; 2], [true; 6], None));
}
