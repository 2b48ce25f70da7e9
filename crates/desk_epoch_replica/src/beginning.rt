//! How a member begins the next epoch.

ghost use Rattle.std.specs.Prelude.{◌≡◌, ◌⊎◌, ◌&&◌, List, true, false, None, IfOk, IfErr, MatchOption, OnErr};
ghost use Rattle.std.specs.Option.{is_some};
ghost use Rattle.desk_types.specs.declared.command.Entry.{Entry as AnEntry};
ghost use Rattle.desk_types.specs.declared.refusal.Refusal.TheVariants as refusals;
ghost use Rattle.desk_epoch_node.specs.Does.{BeginsAfter, is_due};
ghost use Rattle.desk_epoch_node.specs.EpochValue.{committed_cut};
ghost use Rattle.desk_epoch_node.specs.PastRows.{StandFor};
ghost use Rattle.desk_epoch_replica.specs.MemberValue.{HasPast};
ghost use Rattle.desk_epoch_replica.specs.Saves.{EntersEpoch};

use crate::epoch_member::EpochMember;
use desk_epoch_node::Ended;
use desk_epoch_stores::{EpochStores, NodeStores};
use desk_log::StateStore;
use desk_types::Refusal;

impl EpochMember {
    /// Begins the next epoch, as `NodeStores::begin_next` does; its ticks are counted again.
    pub(crate) fn begin_next<T: EpochStores>(
        &mut self,
        stores: &mut NodeStores<T>,
    ) -> Result<Option<Ended>, Refusal>
        requires saved { T.Store.last stores.old.current ≡ self.old.node.node.saved }
        ensures begun { IfOk result (λ ended. MatchOption ended ((self.new ≡ self.old) × (stores.new ≡ stores.old))
            (λ ended. (is_due self.old.node ≡ true)
            × ((past : List AnEntry) → StandFor past self.old.node.past →
            BeginsAfter past (committed_cut self.old.node) self.old.node self.new.node ended.packets.items)
            × EntersEpoch self.old self.new
            × (T.Store.last stores.new.current ≡ self.new.node.node.saved)
            × (T.Store.stopped stores.new.current ≡ false))) }
        ensures waits { IfOk result (λ ended. ended ≡ None →
            (is_due self.old.node && is_some stores.old.next) ≡ false) }
        ensures refused { IfErr result (λ r. r ≡ refusals.WantOfMemory →
            (self.new ≡ self.old) × (stores.new ≡ stores.old)) }
        ensures unsaved { IfErr result (λ r. r ≡ refusals.StoreFault → (packets : List _)
            × ((past : List AnEntry) → StandFor past self.old.node.past →
            BeginsAfter past (committed_cut self.old.node) self.old.node self.new.node packets)) }
        ensures past { HasPast self.old.node.past }
        ensures left { OnErr result (stores.new.current ≡ stores.old.current) }
        ensures fault { IfErr result (λ r. (r ≡ refusals.WantOfMemory) ⊎ (r ≡ refusals.StoreFault)) }
    {
        let ended = stores.begin_next(&mut self.node)?;
        if ended.is_some() {
            self.ticks = 0;
        }
        Ok(ended)
    }
}
