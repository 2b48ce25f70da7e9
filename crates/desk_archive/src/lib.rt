//! The archive of a desk: the committed commands that a node's file keeps, as document lines in the order of their
//! places.
#![tactic(auto)]

mod archived;
mod document;
mod document_writer;
mod lines;

pub use archived::{Archived, archive_database, archived_owner};
pub use document::document_line;
pub use lines::write_documents;
