//! A member of a group that goes on over epochs, between the items that come to it.

ghost use Rattle.std.specs.Prelude.{◌≡◌, IfOk};
ghost use Rattle.desk_epoch_node.specs.EpochValue.{committed_cut};
ghost use Rattle.desk_epoch_replica.specs.MemberValue.{HasPast, new_member, member_suspects, member_refused_once};

use crate::heard::{HeardToken, heard_at_start};
use crate::limits::ASK_TICKS;
use crate::ticking::{one_more, rows_at_start};
use desk_epoch_node::EpochNode;
use desk_types::limits::SUSPECT_TICKS;
use desk_types::{Entry, WantOfMemory};
use std::alloc::Global;
use std::marker::Model;

/// A node over epochs, the ticks since it last heard of its primary or suspected it, those since it last asked for a
/// log and since each node was last told one, the token that each node last said where it asked, and how many items
/// were refused for want of memory.
pub struct EpochMember {
    pub(crate) node: EpochNode,
    pub(crate) ticks: u64,
    pub(crate) ask_ticks: u64,
    pub(crate) tell_ticks: Vec<u64>,
    pub(crate) heard: Vec<HeardToken>,
    pub(crate) refused: u64,
}

// Written out, so that callers need not prove each part's drop.
impl Drop for EpochMember {
    fn drop(self) {
        let EpochMember {
            node: _,
            ticks: _,
            ask_ticks: _,
            tell_ticks: _,
            heard: _,
            refused: _,
        } = self;
    }
}

impl Model for EpochMember {
    ghost use Rattle.desk_epoch_replica.specs.MemberValue.{HasPast, MemberValue};

    ghost Value = { MemberValue };

    ghost view = { λ m. record {
      node = m.node;
      ticks = m.ticks;
      ask_ticks = m.ask_ticks;
      tell_ticks = m.tell_ticks.items;
      heard = m.heard.items;
      refused = m.refused;
    } };

    ghost invariant = { λ m. HasPast m.node.past };
}

impl EpochMember {
    /// A member at its start. It takes memory for each node of the group.
    pub fn new(alloc: Global, node: EpochNode) -> Result<EpochMember, WantOfMemory>
        requires past { HasPast node.past }
        ensures { IfOk result (λ member. member ≡ new_member node) }
    {
        let n = node.node().member().n;
        let tell_ticks = rows_at_start(alloc, n)?;
        let heard = heard_at_start(alloc, n)?;
        Ok(EpochMember {
            node,
            ticks: 0,
            ask_ticks: ASK_TICKS,
            tell_ticks,
            heard,
            refused: 0,
        })
    }

    /// The node as the items so far left it.
    pub fn node(&self) -> &EpochNode
        ensures { result.now ≡ self.now.node }
    {
        &self.node
    }

    /// How many items were refused.
    pub fn refused(&self) -> u64
        ensures { result ≡ self.now.refused }
    {
        self.refused
    }

    /// Counts an item that was refused for want of memory.
    pub fn refuse(&mut self)
        ensures { self.new ≡ member_refused_once self.old }
    {
        self.refused = self.refused.saturating_add(1);
    }

    /// Whether the node suspects its primary at this tick.
    pub(crate) fn suspects(&self) -> bool
        ensures { result ≡ member_suspects self.now }
    {
        let node = self.node.node();
        let leads = node.member().leads(node.saved());
        !leads && one_more(SUSPECT_TICKS, self.ticks) == SUSPECT_TICKS
    }

    /// What the node has committed of its epoch, up to the epoch's end.
    pub fn committed(&self) -> &[Entry]
        ensures { result.now ≡ committed_cut self.now.node }
    {
        let count = self.node.committed();
        let log = self.node.node().saved().log();
        // What is committed stands in the log.
        prove!(count <= log.len());
        &log.entries()[..count as usize]
    }
}
