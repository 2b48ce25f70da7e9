//! A node of the desk's group: what it does with each event, by the rules of VR Revisited.
#![tactic(auto)]

ghost use Rattle.desk_node.specs.Laws.{RowsStand, RowsSay, SameHeard};

mod answer_board;
mod event;
mod heard;
mod node;
mod normal;
mod outcomes;
mod step;
mod transfer;
mod view_change;

pub use event::Event;
pub use node::Node;
pub use step::Step;

/// What a node holds of a view in place of the packets that it received: who acknowledged which place among them, who
/// asked for the view, and who offered which log first; this, and nothing else. It does nothing: its clauses are the
/// laws.
pub fn laws()
    ensures rows { RowsStand }
    ensures say { RowsSay }
    ensures same { SameHeard }
{}
