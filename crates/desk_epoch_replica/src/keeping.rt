//! A replica over epochs as what a keeper does its items to and saves.

use crate::deferring_replica::DeferringReplica;
use crate::item::EpochItem;
use crate::outgoing::{first_packets, only_answer};
use desk_epoch_stores::EpochStores;
use desk_mailbox::Item;
use desk_replica::{ItemStep, Replica, SavedReplica};
use desk_types::{Entry, Refusal, WantOfMemory};
use std::alloc::Global;

impl<T: EpochStores> Replica for DeferringReplica<T> {
    ghost use Rattle.desk_epoch_replica.specs.Deferring.{DeferringDoes, DeferringFollows, DeferringRefuses};
    ghost use Rattle.desk_epoch_replica.specs.DeferringSaves.{deferring_still, deferring_further};

    ghost does = { DeferringDoes T.may_hold };

    ghost refuses = { DeferringRefuses };

    ghost follows = { DeferringFollows T.may_hold };

    fn do_item(&mut self, alloc: Global, item: Item) -> Result<ItemStep, WantOfMemory> {
        match item {
            Item::Request { entry, .. } => self.act(alloc, EpochItem::Request(entry)),
            Item::Packet(packet) => self.act(alloc, EpochItem::Packet(packet)),
            Item::Tick => self.tick(alloc),
            Item::Stop => Ok(only_answer(alloc, Vec::new(alloc), None)),
        }
    }

    fn count_refused(&mut self) {
        self.replica.count_refused();
    }

    ghost follows_still = { λ r. deferring_still T.may_hold r };

    ghost follows_further = { λ old mid new first last. deferring_further T.may_hold old mid new first last };
}

impl<T: EpochStores> SavedReplica for DeferringReplica<T> {
    ghost use Rattle.desk_epoch_replica.specs.DeferringSaves.{deferring_saving, deferring_past_counts};
    ghost use Rattle.desk_epoch_replica.specs.DeferringSaves.{deferring_saved_last, deferring_saved_same};
    ghost use Rattle.desk_epoch_replica.specs.DeferringSaves.{deferring_refused_saved, deferring_followed_on};
    ghost use Rattle.desk_epoch_replica.specs.DeferringSaves.{deferring_saved_on, deferring_failed_on};
    ghost use Rattle.desk_epoch_replica.specs.DeferringSaves.{deferring_forgotten_on, deferring_followed_keeps};
    ghost use Rattle.desk_epoch_replica.specs.DeferringSaves.{deferring_saved_keeps, deferring_keeps_further};
    ghost use Rattle.desk_epoch_replica.specs.DeferringBeginnings.{deferring_begun_on, deferring_prepared_on};

    ghost saving = { deferring_saving T.may_hold T.Store.StateStore };

    fn past_len(&self) -> u64 {
        let reported = match self.replica.reported() {
            Some(saved) => saved.log().len(),
            None => 0,
        };
        self.replica.past_len().saturating_sub(reported)
    }

    fn reported(&self) -> &[Entry] {
        match self.replica.reported() {
            Some(saved) => saved.log().entries(),
            None => &self.replica.committed()[..0],
        }
    }

    fn committed(&self) -> &[Entry] {
        self.replica.committed()
    }

    fn save(&mut self, known: u64) -> Result<(), Refusal> {
        self.replica.save(known)
    }

    fn forget_reported(&mut self) {
        self.replica.forget_reported();
    }

    // The requests that are held are done again at ticks of the next epoch.
    fn begin_next(&mut self) -> Result<Option<ItemStep>, Refusal> {
        let alloc = self.replica.node().node().member().alloc;
        match self.replica.begin_next() {
            Ok(Some(step)) => Ok(Some(first_packets(alloc, step))),
            Ok(None) => Ok(None),
            Err(refusal) => Err(refusal),
        }
    }

    fn prepare(&mut self) -> Result<(), Refusal> {
        match self.replica.prepare_unless_replaced() {
            Ok(()) => Ok(()),
            Err(refusal) => {
                if refusal.is_want_of_memory() {
                    return Err(refusal);
                }
                Err(self.replica.preparation_fault())
            }
        }
    }

    ghost past_counts = { λ r past stands. deferring_past_counts r past stands };

    ghost saved_last = { λ old new saves. deferring_saved_last _ old new saves };

    ghost saved_same = { λ old new saves. deferring_saved_same _ old new saves };

    ghost refused_saved = { λ old new refused is. deferring_refused_saved _ old new refused is };

    ghost followed_on = { λ old new follows. deferring_followed_on T.may_hold _ old new follows };

    ghost saved_on = { λ old new saves. deferring_saved_on T.may_hold _ old new saves };

    ghost failed_on = { λ old new fails. deferring_failed_on T.may_hold _ old new fails };

    ghost forgotten_on = { λ old new forgets. deferring_forgotten_on T.may_hold (record {
      last = T.Store.last;
      stopped = T.Store.stopped;
      keeps = T.Store.keeps;
      leaves = T.Store.leaves;
    }) T.Store.preserved_still old new forgets };

    ghost begun_on = { λ old new packets begins. deferring_begun_on T.may_hold _ old new packets begins };

    ghost prepared_on = { λ old new prepares. deferring_prepared_on T.may_hold (record {
      last = T.Store.last;
      stopped = T.Store.stopped;
      keeps = T.Store.keeps;
      leaves = T.Store.leaves;
    }) T.Store.preserved_still old new prepares };

    ghost followed_keeps = { λ old new follows. deferring_followed_keeps T.Store.keeps T.Store.preserved_still
        T.may_hold old new follows };

    ghost saved_keeps = { λ old new saves. deferring_saved_keeps _ old new saves };

    ghost keeps_further = { λ old mid new first last. deferring_keeps_further T.Store.keeps T.Store.preserved_further
        old mid new first last };
}
