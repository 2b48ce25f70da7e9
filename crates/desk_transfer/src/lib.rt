//! How a node gets the entries that it lacks: GetState, NewState (VR Revisited, section 5.2).
#![tactic(auto)]

ghost use Rattle.desk_transfer.specs.Laws.{GetStateKeeps, NewStateKeeps};

mod rules;

pub use rules::{on_get_state, on_new_state};

/// What the rules never undo, whatever comes, packets of lying nodes included: view, last normal view and commit don't
/// fall, and committed entries stay. It does nothing: its clauses are the laws.
pub fn laws()
    ensures get_state { GetStateKeeps }
    ensures new_state { NewStateKeeps }
{}
