//! A list, and the standby that follows it.
ghost use Rattle.newsdesk_cli.specs.Standby.{ShipsBy, ShipsOver};

use crate::telling::tell_usage;
use news_io::{Disk, Link, Sink};
use news_types::Name;
use standby_files::ship_store;
use std::alloc::Global;

/// Ships the list to the standby of this name over the first of the links. Where that does not go there, or there is none, the words
/// are no command, and nothing is opened.
pub(crate) fn ship_list<O: Sink, D: Disk, L: Link>(
    alloc: Global,
    output: &mut O,
    log: D,
    side: D,
    links: &mut Vec<L>,
    name: Name,
) -> (u8, D, D)
    ensures { ShipsOver D.disk O.sink name log result.1 side result.2 output.old output.new result.0 L.link links.old.items links.new.items }
{
    match links.get_mut(0) {
        Some(link) => ship_by(alloc, output, log, side, link, &name),
        None => (tell_usage(output), log, side),
    }
}

/// Ships the list over this link, if it goes to the standby of this name.
fn ship_by<O: Sink, D: Disk, L: Link>(
    alloc: Global,
    output: &mut O,
    log: D,
    side: D,
    link: &mut L,
    name: &Name,
) -> (u8, D, D)
    ensures { ShipsBy D.disk O.sink name.now log result.1 side result.2 output.old output.new result.0 L.link link.old link.new }
{
    if !name.is_among(link.names()) {
        return (tell_usage(output), log, side);
    }
    ship_store(alloc, name, output, log, side, link)
}
