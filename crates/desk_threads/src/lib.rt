//! A keeper: a node, its saved state and its published board, which does the items of a mailbox in turn. What an item
//! made of the node is saved, then published; then its packets go out, and then its session gets its answer. Items that
//! wait can share one save and one publish. It knows no database: a store is what saves a state.
#![tactic(auto)]

mod act;
mod advancing;
mod awaits;
mod gathered;
mod guard;
mod handing;
mod handling;
mod keeper;
pub mod limits;
mod node_replica;
mod opening;
mod owned_node;
mod publishing;
mod running;
mod saved_node;
mod shared_save;
mod turn;
mod waiting;
mod waiting_session;

pub use desk_mailbox::{Item, Sender, Taker};
pub use desk_published::{BoardName, BoardReader, NewHistory, Reported, ReportedWord};
pub use desk_replica::{Answer, ItemStep, Replica, SavedReplica, StepAnswers};
pub use gathered::{Gathered, gather};
pub use guard::KeeperGuard;
pub use handing::{Out, hand_all};
pub use keeper::Keeper;
pub use opening::{
    PEERS, SENDERS, SESSIONS, SessionEnds, TIMERS, open_keeper, open_replica, open_saved,
};
pub use owned_node::OwnedNode;
pub use saved_node::SavedNode;
pub use turn::TURN_ITEMS;
pub use waiting::WaitingSessions;
