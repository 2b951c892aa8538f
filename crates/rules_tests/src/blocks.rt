//! The filters that block, in their order, and one filter that is asked alone.

use crate::tables::{Tables, name, story_of, tables_of, take_all};
use news_types::{Memory, Name};

// `new` matches where `a` and `b` are true, or where `old` matches.
const FILTERS: &[&str] = &[
    r#"{"by":"admin","number":1,"do":"add_condition","condition":"a","field":"urgency","op":"lte","values":["2"]}"#,
    r#"{"by":"admin","number":1,"do":"add_condition","condition":"b","field":"headline","op":"like","values":["storm"]}"#,
    r#"{"by":"admin","number":1,"do":"add_condition","condition":"c","field":"headline","op":"like","values":["flood"]}"#,
    r#"{"by":"admin","number":1,"do":"add_filter","filter":"old","statements":[{"conditions":["c"]}]}"#,
    r#"{"by":"admin","number":1,"do":"add_filter","filter":"new","statements":[{"conditions":["a","b"]},{"filters":["old"]}]}"#,
];

const BLOCKED: &[&str] = &[
    r#"{"by":"admin","number":1,"do":"set_block","filter":"old","on":true}"#,
    r#"{"by":"admin","number":1,"do":"set_block","filter":"new","on":true}"#,
    r#"{"by":"admin","number":1,"do":"set_block","filter":"old","on":true}"#,
];

const UNBLOCKED: &[&str] = &[
    r#"{"by":"admin","number":1,"do":"set_block","filter":"new","on":false}"#,
];

/// Filters that block are set, and one that no longer does; the list is looked at behind each.
#[test]
fn blocks_are_listed_in_order(rt: HostRuntime) {
    let mut tables = tables_of(rt.alloc(), FILTERS).expect(&rt, "a request is not done");
    let (old, new) = (name(&rt, "old"), name(&rt, "new"));
    let at_first = (tables.filters.has(&old), tables.filters.blocks().is_empty());
    let blocked = (
        take_all(&mut tables, BLOCKED),
        tables.filters.blocks() == [new, old].as_slice(),
    );
    let unblocked = (
        take_all(&mut tables, UNBLOCKED),
        tables.filters.blocks() == [old].as_slice(),
    );
    drop(tables);
    assert_eq!(rt;
        (at_first, blocked, unblocked),
        ((true, true), (None, true), (None, true))
    );
}

/// Whether a filter matches a story of these properties.
fn matches(tables: &Tables, filter: &Name, object: &str) -> Result<bool, Memory> {
    let story = story_of(tables.allocator(), object)?;
    let answer = tables.filters.matches(filter, &story);
    drop(story);
    answer
}

#[test]
fn a_filter_is_asked_alone(rt: HostRuntime) {
    let tables = tables_of(rt.alloc(), FILTERS).expect(&rt, "a request is not done");
    let new = name(&rt, "new");
    let matched = [
        matches(&tables, &new, r#"{"headline":"Storm","urgency":2}"#),
        matches(&tables, &new, r#"{"headline":"Calm","urgency":1}"#),
    ];
    drop(tables);
    assert_eq!(rt; matched, [Ok(true), Ok(false)]);
}
