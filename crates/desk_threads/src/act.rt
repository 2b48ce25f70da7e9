//! The part of an item that takes no thread: the step, and the save.

ghost use Rattle.std.specs.Prelude.{◌≡◌, ◌⊎◌, List, IfOk, IfErr};
ghost use Rattle.desk_types.specs.declared.refusal.Refusal.TheVariants as refusals;
ghost use Rattle.desk_types.specs.Refusal.{IsStoreRefusal};
ghost use Rattle.desk_types.specs.Refusal.{HasStored};
ghost use Rattle.desk_replica.specs.EpochPackets.{packets_of_step};
ghost use Rattle.desk_threads.specs.SavedItems.{DoesAndSaves, DoesAndFails};
ghost use Rattle.desk_replica.specs.Saving.{LogsGoOn, StaysSaved};

use desk_mailbox::Item;
use desk_replica::{ItemStep, SavedReplica};
use desk_types::Refusal;
use std::alloc::Global;

/// Does an item, and saves what it made of the replica.
pub(crate) fn act_and_save<R: SavedReplica>(
    alloc: Global,
    replica: &mut R,
    item: Item,
) -> Result<ItemStep, Refusal>
    requires { R.SavedReplica.saving.is_saved replica.old }
    ensures did { IfOk result (λ step. DoesAndSaves R.Replica R.SavedReplica.saving replica.old item
        (packets_of_step step) step.answers replica.new) }
    ensures refused { IfErr result (λ r. r ≡ refusals.WantOfMemory → R.Replica.refuses replica.old replica.new) }
    ensures fault { IfErr result (λ r. (r ≡ refusals.WantOfMemory) ⊎ IsStoreRefusal r) }
    ensures first { IfErr result (λ r. (r ≡ refusals.WantOfMemory) ⊎ (r ≡ refusals.StoreFault)) }
    ensures same { LogsGoOn R.SavedReplica.saving replica.old replica.new }
    ensures saved { HasStored result → StaysSaved R.SavedReplica.saving replica.old replica.new }
    ensures made { IfErr result (λ r. r ≡ refusals.StoreFault → (packets : List _) × (answers : List _)
        × DoesAndFails R.Replica R.SavedReplica.saving replica.old item packets answers replica.new) }
{
    let known = replica.committed().len() as u64;
    let Ok(step) = replica.do_item(alloc, item) else {
        return Err(Refusal::WantOfMemory);
    };
    match replica.save(known) {
        Ok(()) => Ok(step),
        Err(_) => Err(Refusal::StoreFault),
    }
}
