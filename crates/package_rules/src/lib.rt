//! Packages: composite stories that name member items, and go to the subscribers who have every member.
#![tactic(auto)]

mod association;
mod laws;
mod lines;
mod objects;
mod package;
mod publish;
mod readers;
mod report;
mod text;
mod walk;

pub use association::associations;
pub use laws::{package_law, texts_law};
pub use lines::{Contents, Line};
pub use objects::{contents_object, no_readers_text};
pub use package::Package;
pub use package_members::{Member, Members, makes_package};
pub use publish::{Packaged, publish_package};
pub use report::contents_report;
pub use text::{named_members, package_text, read_package};
pub use walk::{contents, members_of};
