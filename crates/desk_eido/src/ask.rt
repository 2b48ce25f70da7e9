//! What a document asks for.

use desk_types::{Entry, Show};

/// What a document asks for.
#[derive(Drop)]
pub enum Ask {
    /// A numbered command of a client.
    Command(Entry),
    /// A look at a part of the board.
    Show(Show),
}
