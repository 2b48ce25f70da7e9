//! Documents: what a line asks for, or why it is refused, and the line that tells what came of it.
#![tactic(auto)]

mod ask;
mod copied;
mod copy;
mod document;
mod group_verbs;
mod identifiers;
mod incident_verbs;
mod kind;
mod line;
mod list;
mod listed;
mod members;
mod reply;
mod reply_writer;
mod seen;
mod shown;
mod status;
mod time;
mod unit_verbs;
mod verb;

pub use ask::Ask;
pub use document::command_of;
pub use line::{copy_document, read_document};
pub use reply::{reply_line, want_of_memory_line};
