//! A node over epochs: what it keeps of past logs, and how it goes over to the next epoch where its own ends.
#![tactic(auto)]

ghost use Rattle.desk_epoch_node.specs.Laws.{BeginningsKeep, EndsByCount, EndsByReplacement, OthersAreQuiet};
ghost use Rattle.desk_epoch_node.specs.Laws.{RequestsMeetOneLog, StepsKeep, SuspicionsLead, TellingServes};

mod acts;
mod begin;
mod cut;
mod deed;
mod deeds;
mod epoch_node;
mod event;
mod past_logs;
mod past_row;
mod replacement;
mod standing;
mod step;
mod tell;

pub use cut::{Cut, cut_at_commit, first_cut, has_ended};
pub use deed::Deed;
pub use epoch_node::EpochNode;
pub use event::EpochEvent;
pub use past_logs::PastLogs;
pub use past_row::PastRow;
pub use replacement::{Replacement, named_by};
pub use standing::{Standing, standing_after};
pub use step::{Ended, EpochStep};
pub use tell::tell_log;

/// What is true of all nodes over epochs. It does nothing: its clauses are the laws.
pub fn laws()
    // An epoch ends after so many entries, where none of these names a replacement;
    ensures ends_by_count { EndsByCount }
    // the first that names one ends it.
    ensures ends_by_replacement { EndsByReplacement }
    // Who does not act in its epoch asks, takes what it is told, and says nothing else.
    ensures quiet { OthersAreQuiet }
    // A node begins an epoch as a first node that suspected its primary a few times.
    ensures begins { SuspicionsLead }
    // Who leads says of a request what the one log of all epochs makes of it.
    ensures one_log { RequestsMeetOneLog }
    // What was committed in all epochs stays committed, whatever comes to the node, and where it begins the next.
    ensures steps_keep { StepsKeep }
    ensures beginnings_keep { BeginningsKeep }
    // Who asks for what it has not committed, and is sent the log of its epoch, has that log whole.
    ensures telling { TellingServes }
{}
