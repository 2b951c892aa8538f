//! Who is due a publication, where no list of entries has such an item; whether a story is permitted to one subscriber; and
//! the formats.

use crate::tables::{Tables, name, story_of, tables_of, take_all};
use news_types::{Format, Kind, Memory, Name};

// `f1` is an urgency of 1, and `gamma` has a product of its own by it.
const SUBSCRIBERS: &[&str] = &[
    r#"{"by":"admin","number":1,"do":"add_condition","condition":"f1","field":"urgency","op":"eq","values":["1"]}"#,
    r#"{"by":"admin","number":1,"do":"add_filter","filter":"f1","statements":[{"conditions":["f1"]}]}"#,
    r#"{"by":"admin","number":1,"do":"add_product","product":"p1","filter":"f1"}"#,
    r#"{"by":"admin","number":1,"do":"add_subscriber","subscriber":"beta","format":"ninjs","products":["all"]}"#,
    r#"{"by":"admin","number":1,"do":"add_subscriber","subscriber":"alpha","format":"7901","products":["all"]}"#,
    r#"{"by":"admin","number":1,"do":"add_subscriber","subscriber":"gamma","format":"ninjs","products":["p1"]}"#,
];

/// Whether a publication of a story with an urgency of 3 is due to these.
fn is_due(
    tables: &Tables,
    kind: Kind,
    targets: &[Name],
    earlier: &[Name],
    wanted: &[Name],
) -> Result<bool, Memory> {
    let story = story_of(tables.allocator(), OTHER)?;
    let due = tables
        .products
        .due_list(&tables.filters, &story, targets, earlier, kind);
    drop(story);
    Ok(due?.as_slice() == wanted)
}

#[test]
fn targets_say_nothing_of_those_who_had_an_earlier_one(rt: HostRuntime) {
    let tables = tables_of(rt.alloc(), SUBSCRIBERS).expect(&rt, "a request is not done");
    let (alpha, beta) = (name(&rt, "alpha"), name(&rt, "beta"));
    let gamma = name(&rt, "gamma");
    let due = [
        is_due(&tables, Kind::First, &[], &[gamma], &[alpha, beta]),
        is_due(&tables, Kind::Correct, &[alpha], &[gamma], &[alpha, gamma]),
        is_due(&tables, Kind::Correct, &[gamma], &[beta], &[beta]),
        is_due(
            &tables,
            Kind::Kill,
            &[alpha],
            &[gamma, beta],
            &[beta, gamma],
        ),
        is_due(&tables, Kind::Recall, &[alpha], &[gamma], &[gamma]),
    ];
    drop(tables);
    assert_eq!(rt; due, [Ok(true); 5]);
}

/// Whether a story is permitted to a subscriber.
fn is_permitted(
    tables: &Tables,
    story: &str,
    targets: &[Name],
    subscriber: &Name,
) -> Result<bool, Memory> {
    let story = story_of(tables.allocator(), story)?;
    let permitted = tables
        .products
        .permitted(&tables.filters, &story, targets, subscriber);
    drop(story);
    permitted
}

const URGENT: &str = r#"{"urgency":1}"#;

const OTHER: &str = r#"{"urgency":3}"#;

/// Each subscriber is asked for, with targets and without.
#[test]
fn one_subscriber_is_asked_for(rt: HostRuntime) {
    let tables = tables_of(rt.alloc(), SUBSCRIBERS).expect(&rt, "a request is not done");
    let (alpha, beta) = (name(&rt, "alpha"), name(&rt, "beta"));
    let gamma = name(&rt, "gamma");
    let permitted = [
        is_permitted(&tables, OTHER, &[], &alpha),
        is_permitted(&tables, OTHER, &[beta], &alpha),
        is_permitted(&tables, OTHER, &[beta, alpha], &alpha),
        is_permitted(&tables, URGENT, &[], &gamma),
        is_permitted(&tables, OTHER, &[], &gamma),
        is_permitted(&tables, OTHER, &[gamma], &gamma),
    ];
    drop(tables);
    assert_eq!(rt;
        permitted,
        [
            Ok(true),
            Ok(false),
            Ok(true),
            Ok(true),
            Ok(false),
            Ok(false)
        ]
    );
}

const SET: &[&str] = &[
    r#"{"by":"admin","number":1,"do":"set_product","product":"p1","how":"blocking","filter":"f1"}"#,
    r#"{"by":"admin","number":1,"do":"set_subscriber","subscriber":"alpha","products":["p1"],"off":["f1"]}"#,
    r#"{"by":"admin","number":1,"do":"set_subscriber","subscriber":"beta","active":false,"products":["all"]}"#,
];

/// A product and two subscribers are set, and each subscriber's format is asked for.
#[test]
fn a_setting_keeps_the_format(rt: HostRuntime) {
    let mut tables = tables_of(rt.alloc(), SUBSCRIBERS).expect(&rt, "a request is not done");
    let denied = take_all(&mut tables, SET);
    let formats = [
        tables.products.format(&name(&rt, "alpha")),
        tables.products.format(&name(&rt, "beta")),
        tables.products.format(&name(&rt, "gamma")),
        tables.products.format(&name(&rt, "delta")),
    ];
    drop(tables);
    assert_eq!(rt; denied, None);
    assert!(rt;
        formats
            == [
                Some(Format::Text7901),
                Some(Format::Ninjs),
                Some(Format::Ninjs),
                None
            ]
    );
}
