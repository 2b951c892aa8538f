//! What the rules of a scheme ask for.

use crate::tables::{Tables, asked, name, story_of, tables_of};
use news_types::{Command, Memory, Name, RouteAction, Scheme};
use routing_rules::{Actions, judge_scheme, route};
use std::alloc::Global;
use std::process::Abort;

const URGENT: &[&str] = &[
    r#"{"by":"admin","number":1,"do":"add_condition","condition":"urgent","field":"urgency","op":"eq","values":["1"]}"#,
    r#"{"by":"admin","number":1,"do":"add_filter","filter":"urgent","statements":[{"conditions":["urgent"]}]}"#,
];

// The filter of the first rule is not there; the third is the first that ends it.
const CHAIN: &str =
    r#"{"by":"admin","number":1,"do":"add_scheme","scheme":"chain","rules":[{"filter":"nothing","days":["mon","tue","wed","thu","fri","sat","sun"],"from":0,"to":86400,"zone":"UTC0","fetch":{"desk":"world","stage":"incoming"},"exit":true},{"days":["mon","tue","wed","thu","fri","sat","sun"],"from":0,"to":86400,"zone":"UTC0","fetch":{"desk":"city","stage":"incoming"}},{"filter":"urgent","days":["mon","tue","wed","thu","fri","sat","sun"],"from":0,"to":86400,"zone":"UTC0","fetch":{"desk":"sport","stage":"incoming"},"publish":true,"exit":true},{"days":["mon","tue","wed","thu","fri","sat","sun"],"from":0,"to":86400,"zone":"UTC0","fetch":{"desk":"culture","stage":"incoming"}}]}"#;

/// The rules of a scheme that a request adds.
fn scheme_of(alloc: Global, line: &str) -> Option<Scheme> {
    match asked(alloc, line) {
        Some((_, command)) => rules_of(command),
        None => None,
    }
}

fn rules_of(command: Command) -> Option<Scheme> {
    match command {
        Command::AddScheme { rules, .. } => Some(rules),
        other => {
            drop(other);
            None
        }
    }
}

fn fetch(desk: Name, stage: Name) -> RouteAction {
    RouteAction::Fetch { desk, stage }
}

/// What a scheme asks for a story of these properties. What is no scheme is told as want of memory.
fn actions_of(tables: &Tables, scheme: &Scheme, object: &str) -> Result<Actions, Memory> {
    if !judge_scheme(scheme)? {
        return Err(Memory);
    }
    let story = story_of(tables.allocator(), object)?;
    let actions = route(scheme, &tables.filters, &story, 0);
    drop(story);
    actions
}

/// Whether a scheme asks for these actions.
fn asks_for(
    tables: &Tables,
    scheme: &Scheme,
    object: &str,
    wanted: &[RouteAction],
) -> Result<bool, Memory> {
    Ok(actions_of(tables, scheme, object)?.as_slice() == wanted)
}

/// Whether the chain asks for what is wanted of an urgent story and of another.
fn ask_chain(rt: &impl Abort, tables: &Tables, scheme: &Scheme) -> [Result<bool, Memory>; 2] {
    let (city, incoming) = (name(rt, "city"), name(rt, "incoming"));
    let (sport, culture) = (name(rt, "sport"), name(rt, "culture"));
    let urgent = [
        fetch(city, incoming),
        fetch(sport, incoming),
        RouteAction::Publish,
        RouteAction::Exit,
    ];
    let other = [fetch(city, incoming), fetch(culture, incoming)];
    [
        asks_for(tables, scheme, r#"{"urgency":1}"#, &urgent),
        asks_for(tables, scheme, r#"{"urgency":2}"#, &other),
    ]
}

#[test]
fn rules_up_to_the_first_exit(rt: HostRuntime) {
    let tables = tables_of(rt.alloc(), URGENT).expect(&rt, "a request is not done");
    let scheme = scheme_of(rt.alloc(), CHAIN).expect(&rt, "a scheme");
    let asks = ask_chain(&rt, &tables, &scheme);
    drop(scheme);
    drop(tables);
    assert_eq!(rt; asks, [Ok(true); 2]);
}
