//! Where a server's connections come from: a door gives them one after another, and takes each back at its end.
#![tactic(auto)]

mod connection;
mod door;
mod hall;
mod held;
mod key;
mod memory_door;
mod outlet;
mod reach;
mod tcp_door;
mod tcp_sink;
mod tcp_source;
#[cfg(test)]
mod tests;
mod wire;

pub use connection::Opened;
pub use door::Door;
pub use memory_door::MemoryDoor;
pub use tcp_door::TcpDoor;
pub use tcp_sink::TcpSink;
pub use tcp_source::TcpSource;
