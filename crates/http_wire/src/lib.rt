//! HTTP on one connection: its requests are read off a source, however their bytes are cut, and responses are written to a sink.
#![tactic(auto)]

mod buffer;
mod fields;
mod fill;
mod head;
mod laws;
mod page;
mod read;
mod request;
mod respond;
mod ruling;
mod seek;
mod stop;
mod target;

pub use buffer::Buffer;
pub use laws::requests_law;
pub use read::read_request;
pub use request::{HttpRequest, Wire};
pub use respond::write_response;
