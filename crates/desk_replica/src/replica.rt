//! What a keeper does its items to.

use crate::item_step::ItemStep;
use desk_mailbox::Item;
use desk_types::WantOfMemory;
use std::alloc::Global;

/// A member of a group that does the items of a mailbox, one after the other, in memory. Its items that were refused
/// for want of memory are counted.
pub trait Replica {
    ghost use Rattle.std.specs.Prelude.{ℕ, List, IfOk, OnErr};
    ghost use Rattle.desk_types.specs.declared.epoch_packet.EpochPacket.{EpochPacket};
    ghost use Rattle.desk_mailbox.specs.declared.item.Item.{Item as AnItem};
    ghost use Rattle.desk_replica.specs.declared.answer.Answer.{Answer};
    ghost use Rattle.desk_replica.specs.EpochPackets.{packets_of_step};

    /// The item made this of it; these packets go out for it, and this is what it answers.
    ghost does: { Self → AnItem → List (ℕ × EpochPacket) → List Answer → Self → Type 0 };

    /// One refused item more was counted, and nothing else changed.
    ghost refuses: { Self → Self → Type 0 };

    /// It is the same member of the same group, and what it had committed stays committed.
    ghost follows: { Self → Self → Type 0 };

    /// Does an item. Where memory is refused the item is counted.
    fn do_item(&mut self, alloc: Global, item: Item) -> Result<ItemStep, WantOfMemory>
        ensures did { IfOk result (λ step. does self.old item (packets_of_step step) step.answers self.new) }
        ensures err { OnErr result (refuses self.old self.new) }
        ensures follows { follows self.old self.new };

    /// Counts an item that was refused for want of memory.
    fn count_refused(&mut self)
        ensures refused { refuses self.old self.new }
        ensures follows { follows self.old self.new };

    /// It follows what it was where nothing is done.
    ghost follows_still: { (r : Self) → follows r r };

    /// And over two parts of a time where it does over each.
    ghost follows_further: { (old mid new : Self) → follows old mid → follows mid new → follows old new };
}
