//! A member of a group that goes on over epochs, with its stores.

ghost use Rattle.std.specs.Prelude.{◌≡◌, ◌<◌, ◌≤◌, ◌+◌, ◌⊎◌, List, false, length, None, Some, Err, IfOk, IfErr};
ghost use Rattle.std.specs.Prelude.{IfSome, MatchOption, MatchResult, OnOk, OnErr, true};
ghost use Rattle.std.specs.Option.{is_some};
ghost use Rattle.desk_types.specs.Group.{IsGroup};
ghost use Rattle.desk_types.specs.declared.command.Entry.{Entry as AnEntry};
ghost use Rattle.desk_types.specs.declared.refusal.Refusal.TheVariants as refusals;
ghost use Rattle.desk_node.specs.NodeValue.{node_from};
ghost use Rattle.desk_epoch_stores.specs.Refusals.{IsEpochRefusal};
ghost use Rattle.desk_epoch_stores.specs.Starting.{MayHoldNoMore, saved_cut};
ghost use Rattle.desk_epoch_node.specs.PastRows.{StandFor};
ghost use Rattle.desk_epoch_replica.specs.Follows.{ReplicaDoes, ReplicaFollows, ReplicaRefuses};
ghost use Rattle.desk_epoch_replica.specs.Follows.{reported_after, unsaved_after};
ghost use Rattle.desk_epoch_replica.specs.MemberValue.{HasPast, new_member};
ghost use Rattle.desk_epoch_replica.specs.ReplicaValue.{ReplicaValue, is_replaced, preparation_fault, takes_logs};
ghost use Rattle.desk_epoch_replica.specs.ReplicaValue.{with_stores};
ghost use Rattle.desk_epoch_replica.specs.Refusals.{IsStartRefusal};
ghost use Rattle.desk_epoch_replica.specs.Saves.{FailsToBegin, FailsToPrepare, IsPrepared, PreparesReplica};
ghost use Rattle.desk_epoch_replica.specs.Saves.{ReplicaBegins, FailsToSaveReplica, IsSavedReplica, SavesReplica};
ghost use Rattle.desk_epoch_replica.specs.PastPackets.{IsPastPacket};
ghost use Rattle.desk_epoch_replica.specs.Saves.{replica_base, replica_cut, may_begin};

use crate::epoch_member::EpochMember;
use crate::item::EpochItem;
use crate::replica_step::ReplicaStep;
use desk_epoch_node::{Ended, EpochNode, Standing, cut_at_commit, first_cut, tell_log};
use desk_epoch_stores::{EndedStores, EpochStores, NodeStores, OpenedEpoch, reported_state};
use desk_log::{Log, Saved, StateStore};
use desk_types::{Entry, Owner, Packet, Refusal, WantOfMemory};
use std::alloc::Global;
use std::marker::Model;

/// Whether all of a state's log is committed and of its epoch, which ends after so many entries, `most`, at least 1, or
/// after one that names a replacement.
fn holds_whole_log(left: &Saved, most: u64) -> bool
    requires least { 1 ≤ most }
    ensures { result ≡ true → saved_cut most left.now ≡ left.now.log }
{
    let cut = cut_at_commit(first_cut(), 0, left, most);
    cut.count >= left.log().len()
}

/// A member of a group that goes on over epochs, with its stores. A log that it was told is held until all of it is
/// published.
pub struct EpochReplica<T: EpochStores> {
    member: EpochMember,
    stores: NodeStores<T>,
    reported: Option<Saved>,
    unsaved: bool,
}

// Written out, so that callers need not prove each part's drop.
impl<T: EpochStores + Drop> Drop for EpochReplica<T> {
    fn drop(self) {
        let EpochReplica {
            member: _,
            stores: _,
            reported: _,
            unsaved: _,
        } = self;
    }
}

impl<T: EpochStores> Model for EpochReplica<T> {
    ghost use Rattle.desk_epoch_replica.specs.ReplicaValue.{ReplicaValue};

    ghost Value = { ReplicaValue T T.Store };

    ghost view = { λ r. record {
      member = r.member;
      stores = r.stores.stores;
      current = r.stores.current;
      next = r.stores.next;
      reported = r.reported;
      unsaved = r.unsaved;
    } };
}

impl<T: EpochStores> EpochReplica<T> {
    /// The replica of a node that starts in an epoch, with its token, which is 0 for those that begin a desk, and with
    /// what opens the stores of others. It takes memory for each node of the group. Where that is refused, Err gives
    /// back what opens the stores, and that of the epoch is closed.
    pub fn start(
        alloc: Global,
        stores: T,
        opened: OpenedEpoch<T>,
        owner: Owner,
        token: u64,
    ) -> Result<EpochReplica<T>, T>
        requires group { IsGroup owner.n }
        requires id { owner.id < owner.n }
        requires past { HasPast opened.past }
        ensures member { IfOk result (λ r. r.member ≡ new_member (record {
          epoch = opened.epoch;
          past = opened.past;
          most = opened.most;
          token = token;
          node = node_from owner opened.saved;
        })) }
        ensures stores { IfOk result (λ r. (r.stores ≡ stores) × (r.current ≡ opened.store) × (r.next ≡ None)) }
        ensures reported { IfOk result (λ r. r.reported ≡ None) }
        ensures saved { IfOk result (λ r. IsSavedReplica T.Store.StateStore r) }
        ensures refused { IfErr result (λ back. MayHoldNoMore T.may_hold stores back) }
    {
        let (node, store) = opened.into_node(alloc, owner, token);
        let epoch = node.epoch();
        match EpochMember::new(alloc, node) {
            Ok(member) => Ok(EpochReplica {
                member,
                stores: NodeStores::new(stores, store),
                reported: None,
                unsaved: false,
            }),
            Err(_) => {
                let mut stores = stores;
                let _ = stores.close(epoch, store);
                Err(stores)
            }
        }
    }

    /// The stores that it has open, which are to be closed where it ends.
    pub fn into_stores(self) -> EndedStores<T, T::Store>
        ensures { result ≡ record {
          stores = self.stores;
          epoch = self.member.node.epoch;
          current = self.current;
          next = self.next;
        } }
    {
        let epoch = self.node().epoch();
        let EpochReplica {
            member: _,
            stores,
            reported: _,
            unsaved: _,
        } = self;
        let (stores, current, next) = stores.into_parts();
        EndedStores {
            stores,
            epoch,
            current,
            next,
        }
    }

    /// The node over epochs, as the items so far left it.
    pub fn node(&self) -> &EpochNode
        ensures { result.now ≡ self.now.member.node }
    {
        self.member.node()
    }

    /// How many items were refused for want of memory since the start. The count stays at its greatest value.
    pub fn refused(&self) -> u64
        ensures { result ≡ self.now.member.refused }
    {
        self.member.refused()
    }

    /// How many entries the logs of its past have.
    pub fn past_len(&self) -> u64
        ensures { result ≡ replica_base self.now }
    {
        self.member.node().past().len()
    }

    /// What it has committed after them.
    pub fn committed(&self) -> &[Entry]
        ensures { result.now ≡ replica_cut self.now }
    {
        self.member.committed()
    }

    /// The state of the epoch before, whose log it was told, as long as not all of that log is published. These are the
    /// last entries of its past.
    pub fn reported(&self) -> Option<&Saved>
        ensures { MatchOption result (self.now.reported ≡ None) (λ s. self.now.reported ≡ Some s.now) }
    {
        self.reported.as_ref()
    }

    /// Notes that all of the log that it was told is published, where that log is saved.
    pub fn forget_reported(&mut self)
        requires saved { self.old.unsaved ≡ false }
        ensures { self.new ≡ record {
          member = self.old.member;
          stores = self.old.stores;
          current = self.old.current;
          next = self.old.next;
          reported = None;
          unsaved = false;
        } }
    {
        self.reported = None;
    }

    /// Whether it takes a log that it is told.
    fn takes_logs(&self) -> bool
        ensures { result ≡ takes_logs self.now }
    {
        self.stores.is_ready() && self.reported.is_none()
    }

    /// Holds a log that it was told, which is yet to be saved.
    fn note_report(&mut self, log: Option<Log>)
        ensures { self.new ≡ record {
          member = self.old.member;
          stores = self.old.stores;
          current = self.old.current;
          next = self.old.next;
          reported = reported_after self.old.reported log;
          unsaved = unsaved_after self.old.unsaved log;
        } }
    {
        if let Some(log) = log {
            self.reported = Some(reported_state(log));
            self.unsaved = true;
        }
    }

    /// Does an item in memory, and gives what is to be sent and answered once it is saved. A log that it is told is
    /// dropped where the next store is not open, or the log before is not published. Where memory is refused the item
    /// is counted, and nothing else changes.
    pub fn act(&mut self, item: EpochItem) -> Result<ReplicaStep, WantOfMemory>
        ensures did { IfOk result (λ step. (past : List AnEntry) → StandFor past self.old.member.node.past →
            ReplicaDoes past self.old item step self.new) }
        ensures err { OnErr result (ReplicaRefuses self.old self.new) }
        ensures follows { ReplicaFollows self.old self.new }
    {
        let takes = self.takes_logs();
        let (step, log) = self.member.act(takes, item)?;
        self.note_report(log);
        Ok(step)
    }

    /// The packet by which it tells the log of a past epoch after a place. None where the log has no such place, its
    /// store cannot be opened or has an entry that is not committed, or one after the epoch's end, or memory is
    /// refused.
    pub fn past_packet(&mut self, epoch: u64, base: u64) -> Option<Packet>
        ensures packet { IfSome result (IsPastPacket (T.may_hold self.old.stores epoch) self.old.member.node base) }
        ensures rest { self.new ≡ with_stores self.new.stores self.old }
        ensures stores { MayHoldNoMore T.may_hold self.old.stores self.new.stores }
    {
        let left = self.stores.state_of(epoch)?;
        let node = self.member.node();
        if !holds_whole_log(&left, node.most()) {
            return None;
        }
        tell_log(node.node().id(), left.log(), base).ok()?
    }

    /// Counts an item that was refused for want of memory.
    pub fn count_refused(&mut self)
        ensures refused { ReplicaRefuses self.old self.new }
        ensures follows { ReplicaFollows self.old self.new }
    {
        self.member.refuse();
    }

    /// Saves what items made of it, where the caller knows how many entries `committed` had when it was saved last. Of
    /// a log that it was told the state with that log is saved first, in the store of its epoch, and then the first
    /// state of the next epoch in the next store. After a `StoreFault` nothing more may be saved.
    pub fn save(&mut self, known: u64) -> Result<(), Refusal>
        requires { (before : ReplicaValue T T.Store) × IsSavedReplica T.Store.StateStore before
            × ReplicaFollows before self.old × (known ≡ length (replica_cut before)) }
        ensures { MatchResult result (λ _. SavesReplica T.Store.StateStore self.old self.new)
            (λ r. FailsToSaveReplica T.Store.StateStore self.old self.new × (r ≡ refusals.StoreFault)) }
    {
        let EpochReplica {
            member,
            stores,
            reported,
            unsaved,
        } = self;
        if !*unsaved {
            return stores.save(member.node().node().saved(), known);
        }
        let Some(reported) = reported else {
            unreachable!();
        };
        let before = stores.begin_with_rest(member.node(), reported, known)?;
        let _ = stores.close(member.node().epoch().saturating_sub(1), before);
        *unsaved = false;
        Ok(())
    }

    /// Opens the store of the next epoch, where it is not open. After a refusal nothing has changed but what opens the
    /// stores, which may hold no more than before. After `WantOfMemory` it may be tried again. After another refusal
    /// the replica cannot go on.
    pub fn prepare(&mut self) -> Result<(), Refusal>
        ensures member { self.new.member ≡ self.old.member }
        ensures current { self.new.current ≡ self.old.current }
        ensures reported { (self.new.reported ≡ self.old.reported) × (self.new.unsaved ≡ self.old.unsaved) }
        ensures ready { OnOk result (is_some self.new.next ≡ true) }
        ensures refused { OnErr result (self.new ≡ with_stores self.new.stores self.old) }
        ensures fault { IfErr result IsEpochRefusal }
        ensures stores { MayHoldNoMore T.may_hold self.old.stores self.new.stores }
        ensures held { self.old.next ≡ None → IfSome self.new.next
            (λ store. T.may_hold self.old.stores (self.old.member.node.epoch + 1) (T.Store.last store)) }
    {
        self.stores.prepare(self.member.node())
    }

    /// Whether it was replaced: another node acts in its place.
    fn is_replaced(&self) -> bool
        ensures { result ≡ is_replaced self.now }
    {
        match self.member.node().standing() {
            Standing::Acts | Standing::Awaits => false,
            Standing::Replaced => true,
        }
    }

    /// What stops a replica that cannot prepare a beginning: `NodeStopped` where it was replaced, else `StoreFault`,
    /// also where a store is missing or another node's.
    pub(crate) fn preparation_fault(&self) -> Refusal
        ensures { result ≡ preparation_fault self.now }
    {
        if self.is_replaced() {
            Refusal::NodeStopped
        } else {
            Refusal::StoreFault
        }
    }

    /// Opens the store of the next epoch, as `prepare` does. One that was replaced begins no epoch any more: it is
    /// refused by `NodeStopped`.
    pub fn prepare_unless_replaced(&mut self) -> Result<(), Refusal>
        ensures prepares { PreparesReplica T.may_hold self.old self.new }
        ensures fault { IfErr result IsStartRefusal }
        ensures ready { OnOk result (IsPrepared self.new) }
        ensures refused { OnErr result (FailsToPrepare T.may_hold self.old self.new) }
        ensures replaced { is_replaced self.old ≡ true → result ≡ Err refusals.NodeStopped }
    {
        if self.is_replaced() {
            return Err(Refusal::NodeStopped);
        }
        self.prepare()
    }

    /// Begins the next epoch where it has committed the end of its own, there is one more, the next store is open, and
    /// no log that it was told is unpublished. Ok is what is to be sent first, and the replica is saved. After
    /// `WantOfMemory` nothing has changed. After `StoreFault` the save failed. Then nothing may be sent in the new
    /// epoch, which a start finds as one that has not begun.
    pub fn begin_next(&mut self) -> Result<Option<ReplicaStep>, Refusal>
        requires saved { IsSavedReplica T.Store.StateStore self.old }
        ensures begun { IfOk result (λ begun. MatchOption begun (self.new ≡ self.old)
            (λ step. ReplicaBegins T.Store.StateStore self.old step self.new)) }
        ensures waits { IfOk result (λ begun. begun ≡ None → may_begin self.old ≡ false) }
        ensures refused { IfErr result (λ r. r ≡ refusals.WantOfMemory → self.new ≡ self.old) }
        ensures unsaved { IfErr result (λ r. r ≡ refusals.StoreFault → FailsToBegin self.old self.new) }
        ensures left { OnErr result (self.new.current ≡ self.old.current) }
        ensures fault { IfErr result (λ r. (r ≡ refusals.WantOfMemory) ⊎ (r ≡ refusals.StoreFault)) }
    {
        if self.reported.is_some() {
            return Ok(None);
        }
        let Some(ended) = self.member.begin_next(&mut self.stores)? else {
            return Ok(None);
        };
        let Ended { node, packets } = ended;
        drop(node);
        let epoch = self.member.node().epoch();
        Ok(Some(ReplicaStep::Began { epoch, packets }))
    }
}
