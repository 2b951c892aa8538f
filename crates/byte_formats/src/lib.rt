//! Readers and writers of fields in bytes, and the law that every format of them keeps: what is
//! written is read again, what is read was so written, and a fault is told at the first byte with
//! which no value's bytes go on.
#![tactic(auto)]

mod due;
mod faults;
mod front;
mod input;
mod law;
mod line;
mod output;
mod small;
mod stop;

pub use input::Input;
pub use law::fields_law;
pub use output::{put_decimal, put_name, put_text, put_varint};
pub use small::SmallBytes;
pub use stop::Stopped;
