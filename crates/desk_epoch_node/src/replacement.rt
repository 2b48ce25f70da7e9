//! What names another node for a number.

ghost use Rattle.std.specs.Prelude.{◌≡◌};
ghost use Rattle.desk_epoch_node.specs.Replacements.{named_by};

use desk_types::{Command, Entry};

/// Names the node that acts under a number in the epochs after its own: the one that has this token.
#[derive(Clone, Copy)]
pub struct Replacement {
    pub node: u8,
    pub token: u64,
}

/// What an entry names for the epochs after its own.
#[tactic(auto, unfolding(crate::specs::Replacements::named_by))]
pub fn named_by(entry: &Entry) -> Option<Replacement>
    ensures { result ≡ named_by entry.now }
{
    match &entry.command {
        Command::Replace { node, token, .. } => Some(Replacement {
            node: node.get(),
            token: token.get(),
        }),
        _ => None,
    }
}
