//! The log file of a newsroom or of a receiver: nothing that was acknowledged is lost, and nothing else appears.
#![tactic(auto)]

mod ahead;
mod header;
mod heading;
mod keeping;
mod log;
mod making;
mod opening;
mod records;
mod window;

pub use header::Header;
pub use heading::read_header;
pub use keeping::write_through;
pub use log::{Journal, OpenFault};
pub use opening::{Opened, read_records};
pub use records::Records;
pub use window::Window;
