//! The log of a node: entries in their order, counted from 1; the state that a node keeps across a restart; and what
//! that state is saved to: a trait, which a database of a node meets, and a store in memory.
#![tactic(auto)]

ghost use Rattle.desk_log.specs.Laws.{PrefixOfItself, PrefixOfPrefix, PrefixOfLonger, FirstEntriesArePrefix};
ghost use Rattle.desk_log.specs.Laws.{PrefixIsFirstEntries, PrefixesAreOrdered, LatestIsLast, LatestIsNone};
ghost use Rattle.desk_log.specs.Laws.{LatestOfOneMore, RisingWithOneMore, PrefixOfRising, LaterIsGreater};
ghost use Rattle.desk_log.specs.Laws.{NumbersStandOnce, AppendedIsRising, RetriedStands};
ghost use Rattle.desk_log.specs.Laws.{ClientsDiffer, ClientRowsAreLatest, EachClientHasRow};

mod admission;
mod adoption;
mod answers;
mod clients;
mod equal;
mod following;
mod front;
mod group_node;
mod latest_places;
mod log;
mod memory_store;
mod saved;
mod sending;
mod state_store;

pub use admission::Admission;
pub use adoption::adopt_log;
pub use answers::Answers;
pub use clients::ClientRow;
pub use group_node::GroupNode;
pub use log::Log;
pub use memory_store::MemoryStore;
pub use saved::Saved;
pub use sending::{Sending, acknowledgement, push_to_others};
pub use state_store::StateStore;

/// What is true of all logs. It does nothing: its clauses are the laws.
pub fn laws()
    ensures prefix_of_itself { PrefixOfItself }
    ensures prefix_of_prefix { PrefixOfPrefix }
    ensures prefix_of_longer { PrefixOfLonger }
    ensures first_entries { FirstEntriesArePrefix }
    ensures prefix_is_first { PrefixIsFirstEntries }
    ensures prefixes_ordered { PrefixesAreOrdered }
    ensures latest_is_last { LatestIsLast }
    ensures latest_is_none { LatestIsNone }
    ensures latest_of_one_more { LatestOfOneMore }
    ensures rising_with_one_more { RisingWithOneMore }
    ensures prefix_of_rising { PrefixOfRising }
    ensures later_is_greater { LaterIsGreater }
    ensures numbers_stand_once { NumbersStandOnce }
    ensures appended_is_rising { AppendedIsRising }
    ensures retried_stands { RetriedStands }
    ensures clients_differ { ClientsDiffer }
    ensures rows_are_latest { ClientRowsAreLatest }
    ensures each_client_has_row { EachClientHasRow }
{}
