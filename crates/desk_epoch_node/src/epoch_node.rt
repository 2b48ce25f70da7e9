//! A node over epochs, and what it knows of them.

ghost use Rattle.std.specs.Prelude.{◌≡◌, ◌<◌, ◌≤◌, length};
ghost use Rattle.desk_types.specs.declared.limits.TheConstants.{LAST_PLACE};
ghost use Rattle.desk_log.specs.SavedValue.{committed_entries};
ghost use Rattle.desk_epoch_node.specs.Ends.{reaches_end};
ghost use Rattle.desk_epoch_node.specs.EpochValue.{IsInEpoch, committed_cut, has_next, standing_of};

use crate::cut::{Cut, cut_at_commit, first_cut};
use crate::past_logs::PastLogs;
use crate::standing::{Standing, standing_after};
use desk_node::Node;
use desk_types::limits::LAST_PLACE;
use std::marker::Model;

/// A node over epochs: the epoch that it is in, what it keeps of the logs of past epochs, how many entries end an
/// epoch, its own token, and its node of the epoch. Kept beside these: how much of the epoch it has committed, and what
/// it does under its number there.
pub struct EpochNode {
    pub(crate) epoch: u64,
    pub(crate) past: PastLogs,
    pub(crate) most: u64,
    pub(crate) token: u64,
    pub(crate) node: Node,
    pub(crate) cut: Cut,
    pub(crate) standing: Standing,
}

// Written out, so that callers need not prove each part's drop.
impl Drop for EpochNode {
    fn drop(self) {
        let EpochNode {
            epoch: _,
            past: _,
            most: _,
            token: _,
            node: _,
            cut: _,
            standing: _,
        } = self;
    }
}

impl Model for EpochNode {
    ghost use Rattle.desk_epoch_node.specs.EpochValue.{EpochValue, IsKept};

    ghost Value = { EpochValue };

    ghost view = { λ e. record { epoch = e.epoch; past = e.past; most = e.most; token = e.token; node = e.node } };

    ghost invariant = { λ e.
        IsKept (record { epoch = e.epoch; past = e.past; most = e.most; token = e.token; node = e.node }) e.cut
        e.standing };
}

impl EpochNode {
    /// A node in an epoch, counted from 0, with what it keeps of past logs, where an epoch ends after so many entries,
    /// 1 to 65,536, and with its token, which is 0 for those that begin a desk. The time is linear in what it has
    /// committed of the epoch.
    pub fn new(epoch: u64, past: PastLogs, most: u64, token: u64, node: Node) -> EpochNode
        requires { IsInEpoch (record { epoch = epoch; past = past; most = most; token = token; node = node }) }
        ensures { result ≡ record { epoch = epoch; past = past; most = most; token = token; node = node } }
    {
        let cut = cut_at_commit(first_cut(), 0, node.saved(), most);
        let standing = standing_after(past.replacements(), node.id(), token);
        EpochNode {
            epoch,
            past,
            most,
            token,
            node,
            cut,
            standing,
        }
    }

    /// The epoch that the node is in, counted from 0: past logs have an entry of each epoch at least.
    pub fn epoch(&self) -> u64
        ensures value { result ≡ self.now.epoch }
        ensures within { result < LAST_PLACE }
    {
        self.epoch
    }

    /// What the node keeps of the logs of past epochs.
    pub fn past(&self) -> &PastLogs
        ensures { result.now ≡ self.now.past }
    {
        &self.past
    }

    /// The node of the epoch, as the last step left it.
    pub fn node(&self) -> &Node
        ensures { result.now ≡ self.now.node }
    {
        &self.node
    }

    /// How many entries of the epoch, up to its end, the node has committed.
    pub fn committed(&self) -> u64
        ensures { result ≡ length (committed_cut self.now) }
    {
        self.cut.count
    }

    /// Whether the node has committed the end of its epoch.
    pub fn has_ended(&self) -> bool
        ensures { result ≡ reaches_end self.now.most (committed_entries self.now.node.saved) }
    {
        self.cut.ended
    }

    /// What the node does under its number in its epoch.
    pub fn standing(&self) -> Standing
        ensures { result ≡ standing_of self.now }
    {
        self.standing
    }

    /// How many entries end an epoch, 1 to 65,536.
    pub fn most(&self) -> u64
        ensures value { result ≡ self.now.most }
        ensures least { 1 ≤ result }
    {
        self.most
    }

    /// The node's own token, which is 0 for those that begin a desk.
    pub fn token(&self) -> u64
        ensures { result ≡ self.now.token }
    {
        self.token
    }

    /// Whether the places of one epoch more are within their limit.
    pub(crate) fn has_next(&self) -> bool
        ensures { result ≡ has_next self.now }
    {
        self.past.len() + self.most + self.most <= LAST_PLACE
    }
}
