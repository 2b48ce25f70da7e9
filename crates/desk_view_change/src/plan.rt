//! What a node is going to do while its view changes.

ghost use Rattle.std.specs.Prelude.{◌≤◌, []};
ghost use Rattle.desk_log.specs.Change.{nothing, change_after};
ghost use Rattle.desk_log.specs.SavedValue.{SavedValue, in_view};
ghost use Rattle.desk_view_change.specs.Plan.{IsPlan, HearsNothing};

use crate::offer::Offer;
use desk_log::{GroupNode, Log, Saved, Sending};
use desk_types::Packet;
use desk_types::limits::LAST_VIEW;

/// The log with which a primary starts its view, and its commit then.
#[derive(Drop)]
pub struct Start {
    pub log: Log,
    pub commit: u64,
}

/// What a node is going to do while its view changes: the view in which it is then, the log with which it starts that
/// view where it does, who asked for the view and who offered a log besides, and what it sends and answers.
#[derive(Drop)]
pub struct ViewChangePlan {
    pub view: u64,
    pub start: Option<Start>,
    pub asker: Option<u8>,
    pub offer: Option<(u8, Offer)>,
    pub sending: Sending,
}

impl ViewChangePlan {
    /// To be in a view, and to send packets.
    pub(crate) fn with_packets(view: u64, packets: Vec<(u8, Packet)>) -> ViewChangePlan
        requires { view ≤ LAST_VIEW }
        ensures plan { (s : SavedValue) → s.view ≤ view
            → IsPlan (change_after [] packets.items (nothing (in_view view s))) s result }
        ensures heard { HearsNothing view result }
    {
        ViewChangePlan {
            view,
            start: None,
            asker: None,
            offer: None,
            sending: Sending::packets(packets),
        }
    }

    /// To do nothing. It takes no memory.
    pub(crate) fn nothing(member: GroupNode, saved: &Saved) -> ViewChangePlan
        ensures { IsPlan (nothing saved.now) saved.now result }
    {
        ViewChangePlan::with_packets(saved.view(), Vec::new(member.alloc))
    }
}
