//! The two links to receivers: one to receivers in memory, and one over TCP.
#![tactic(auto)]

mod answer;
mod calls;
mod law;
mod line;
mod memory_link;
mod place;
mod tcp_link;

pub use law::replies_law;
pub use memory_link::MemoryLink;
pub use tcp_link::TcpLink;
