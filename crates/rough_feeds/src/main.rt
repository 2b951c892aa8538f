//! A newsroom and the receivers of three subscribers, in memory, through 300 losses, repetitions, reorderings and stops of either
//! side, drawn from a stated seed: prints what each receiver holds behind them, and how the feeds stand.
//!
//! The desk flashes sixty stories, one behind the other, the first of urgency 2 and so on to 6 and from 1 again. `alpha` and `beta`
//! are given all of them, as ninjs items and as 7901 messages, and `gamma` those of urgency 1. Behind each story a drain pushes what is
//! due, over a link that loses, repeats and mixes up what it is given. Every run of the newsroom, and every receiver, may stop at
//! any of its device calls, and a stop may tear what was not synced. At the end both are left in peace.
#![tactic(auto)]

mod chance;
mod desk;
mod held;
mod link;

use desk::Desk;
use held::print_held;
use link::RoughLink;
use news_types::{Memory, Name, Names};
use std::alloc::Global;
use std::io::{self, ErrorKind, Write};

const SEED: u64 = 7;

const STORIES: u32 = 60;

const NAMES: [&str; 3] = ["alpha", "beta", "gamma"];

/// What the desk asks for before the first story.
const SUBSCRIBERS: [&str; 6] = [
    r#"{"by":"admin","number":1,"do":"add_subscriber","subscriber":"alpha","format":"ninjs","products":["all"]}"#,
    r#"{"by":"admin","number":2,"do":"add_subscriber","subscriber":"beta","format":"7901","products":["all"]}"#,
    r#"{"by":"admin","number":3,"do":"add_condition","condition":"flash","field":"urgency","op":"eq","values":["1"]}"#,
    r#"{"by":"admin","number":4,"do":"add_filter","filter":"flashes","statements":[{"conditions":["flash"]}]}"#,
    r#"{"by":"admin","number":5,"do":"add_product","product":"urgent","how":"permitting","filter":"flashes"}"#,
    r#"{"by":"admin","number":6,"do":"add_subscriber","subscriber":"gamma","format":"ninjs","products":["urgent"]}"#,
];

fn main(rt: HostRuntime) -> io::Result<()> {
    let alloc = rt.alloc();
    let (Ok(desk), Ok(link)) = (Desk::new(alloc, SEED), link_to_three(alloc)) else {
        return Err(io::Error::from(ErrorKind::OutOfMemory));
    };
    let (mut desk, mut links) = (desk, vec![in alloc; link]?);
    if !matches!(go_through(alloc, &mut desk, &mut links), Ok(true)) {
        return Err(io::Error::from(ErrorKind::Other));
    }
    println!(rt; "{} stops of the newsroom", desk.stops())?;
    for link in &links {
        println!(rt;
            "{} losses, repetitions, reorderings and stops of receivers",
            link.mishaps()
        )?;
        for (name, disk) in NAMES.iter().zip(link.logs()) {
            print_held(&rt, alloc, name, disk)?;
        }
    }
    let Ok(queue) = desk.queue() else {
        return Err(io::Error::from(ErrorKind::OutOfMemory));
    };
    io::writer(&rt).write_all(queue.as_bytes())
}

/// A rough link to the three receivers.
fn link_to_three(alloc: Global) -> Result<RoughLink, Memory> {
    let mut names = Vec::new(alloc);
    for name in NAMES {
        if let Some(name) = Name::read(name) {
            names.push(name)?;
        }
    }
    RoughLink::new(alloc, Names::of(names), SEED)
}

/// The day at the desk, then the mishaps that are still to come, and then peace. It gives whether each request was done.
fn go_through(alloc: Global, desk: &mut Desk, links: &mut Vec<RoughLink>) -> Result<bool, Memory> {
    for line in SUBSCRIBERS {
        if !desk.ask(line)? {
            return Ok(false);
        }
    }
    for story in 1..=STORIES {
        let line = flash(alloc, story)?;
        if !desk.ask(line.as_str())? {
            return Ok(false);
        }
        desk.push(links)?;
    }
    for link in links.iter_mut() {
        link.repeat_to_the_end()?;
    }
    desk.stop_to_the_end()?;
    for _ in 0..STORIES {
        desk.push(links)?;
    }
    Ok(true)
}

/// The line that flashes a story.
fn flash(alloc: Global, story: u32) -> Result<String, Memory> {
    let (number, urgency) = (u64::from(story) + 6, story % 6 + 1);
    Ok(format!(in alloc;
        "{{\"by\":\"admin\",\"number\":{number},\"do\":\"flash\",\"story\":{{\"headline\":\"Story {story}\",\"urgency\":{urgency},\"body\":\"Smoke.\"}}}}"
    )?)
}
