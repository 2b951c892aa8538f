//! What a server starts with, and what it leaves.
use news_io::Keeper;
use news_room::Room;
use run_status::Status;

/// What a server starts with.
#[derive(Drop)]
pub struct Setup<K, C, G, L> {
    /// The room.
    pub room: Room<K>,
    /// The door of the connections.
    pub door: G,
    /// The clocks: first that of the role that serves connections, and then the workers', in the order of the links.
    pub clocks: Vec<C>,
    /// The links of the workers, one for each.
    pub links: Vec<L>,
}

/// What a server leaves.
#[derive(Drop)]
pub struct Served<K, G, L> {
    /// What it ended with.
    pub status: Status,
    /// The room, with all that was kept.
    pub room: Room<K>,
    /// The door behind the last connection.
    pub door: G,
    /// The links in their order.
    pub links: Vec<L>,
}
