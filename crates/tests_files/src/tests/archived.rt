//! Document lines of entries, and of the files that keep them.

mod files;
mod lines;

use desk_arena::DocArena;
use desk_eido::{Ask, read_document};
use desk_types::Entry;
use std::alloc::Global;

/// The entry that a document asks for, given without its newline.
fn entry_of(alloc: Global, document: &str) -> Option<Entry> {
    let mut arena = DocArena::with_capacity(alloc, 4_096).ok()?;
    match read_document(alloc, document.as_bytes(), &mut arena) {
        Ok(Ask::Command(entry)) => Some(entry),
        _ => None,
    }
}
