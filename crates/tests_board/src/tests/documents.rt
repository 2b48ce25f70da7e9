//! What documents ask for, and which refusal comes first.

mod members;
mod memory;
mod room;
mod words;

use desk_arena::{DocArena, MAX_CAPACITY};
use desk_eido::{Ask, read_document};
use desk_types::Refusal;
use std::alloc::Global;
use words::has_text;

/// What the document on a line asks for, read into an arena of so many bytes.
fn read_within(alloc: Global, line: &[u8], bytes: u32) -> Result<Ask, Refusal> {
    match DocArena::with_capacity(alloc, bytes.min(MAX_CAPACITY)) {
        Ok(mut arena) => read_document(alloc, line, &mut arena),
        Err(_) => Err(Refusal::WantOfMemory),
    }
}

/// Whether the document on a line is read in so many bytes with this text.
fn gives_within(alloc: Global, line: &[u8], bytes: u32, wanted: &str) -> bool {
    has_text(alloc, read_within(alloc, line, bytes), wanted)
}
