//! What a keeper does its items to, with what saves it.

use crate::item_step::ItemStep;
use crate::replica::Replica;
use desk_types::{Entry, Refusal};

/// A replica whose state is saved. All that it has committed are the logs of its past, a log after them that another
/// node reported to it, as long as not all of that is published, and what it has committed after it.
pub trait SavedReplica: Replica {
    ghost use Rattle.std.specs.Prelude.{◌≡◌, ◌⊎◌, ℕ, List, length, false, None, MatchResult};
    ghost use Rattle.std.specs.Prelude.{IfOk, IfErr, OnOk, MatchBool, MatchOption};
    ghost use Rattle.desk_types.specs.declared.command.Entry.{Entry as AnEntry};
    ghost use Rattle.desk_types.specs.declared.epoch_packet.EpochPacket.{EpochPacket};
    ghost use Rattle.desk_types.specs.declared.refusal.Refusal.TheVariants as refusals;
    ghost use Rattle.desk_types.specs.Refusal.{is_want_of_memory};
    ghost use Rattle.desk_replica.specs.EpochPackets.{packets_of_step};
    ghost use Rattle.desk_replica.specs.Saving.{Saving, LogsGoOn, ForgetsReported};
    ghost use Rattle.desk_replica.specs.Saving.{BeginsEpoch, HasSameLogs, StaysSaved};
    ghost use Rattle.desk_replica.specs.Endings.{IsEndingRefusal};

    /// Its logs, and what its saves make of it.
    ghost saving: { Saving Self };

    /// How many entries the logs of its past have.
    fn past_len(&self) -> u64
        ensures { result ≡ saving.base self.now };

    /// The log after them that another node reported to it, as long as not all of it is published; else no entries.
    fn reported(&self) -> &[Entry]
        ensures { result.now ≡ saving.reported self.now };

    /// What it has committed after that.
    fn committed(&self) -> &[Entry]
        ensures { result.now ≡ saving.cut self.now };

    /// Saves its state, where the caller knows how many entries `committed` had when it was saved last. After a fault,
    /// which is reported as `StoreFault`, nothing more may be saved.
    fn save(&mut self, known: u64) -> Result<(), Refusal>
        requires { (before : Self) × saving.is_saved before × Self.Replica.follows before self.old
            × (known ≡ length (saving.cut before)) }
        ensures { MatchResult result (λ _. saving.saves self.old self.new)
            (λ r. saving.fails self.old self.new × (r ≡ refusals.StoreFault)) };

    /// Notes that all of the log that was reported to it is published. From then on that is the last log of its past.
    fn forget_reported(&mut self)
        requires { saving.is_saved self.old }
        ensures { saving.forgets self.old self.new };

    /// Begins the next epoch where that is due and no log is reported to it, and saves its first state. The caller has
    /// published all that it has committed. Ok is what goes out after that. At `WantOfMemory` nothing changes, and it
    /// may be tried again. At `StoreFault` the save failed: it cannot go on, and nothing goes out.
    fn begin_next(&mut self) -> Result<Option<ItemStep>, Refusal>
        requires { saving.is_saved self.old }
        ensures begun { IfOk result (λ begun. MatchOption begun (self.new ≡ self.old)
            (λ step. saving.begins self.old (packets_of_step step) self.new)) }
        ensures waits { IfOk result (λ begun. begun ≡ None → saving.may_begin self.old ≡ false) }
        ensures refused { IfErr result (λ r. MatchBool (is_want_of_memory r) (self.new ≡ self.old)
            (saving.stops r self.old self.new × (BeginsEpoch saving self.old self.new
            ⊎ HasSameLogs saving self.old self.new))) }
        ensures fault { IfErr result (λ r. (r ≡ refusals.WantOfMemory) ⊎ (r ≡ refusals.StoreFault)) };

    /// Opens what the next beginning needs. Its state and its logs are as they were. At `WantOfMemory` it may be tried
    /// again. It cannot go on at `StoreFault`, where a store failed, or at `NodeStopped`, where another node acts in
    /// its place.
    fn prepare(&mut self) -> Result<(), Refusal>
        ensures prepared { OnOk result (saving.prepares self.old self.new) }
        ensures ready { OnOk result (saving.is_ready self.new) }
        ensures refused { IfErr result (λ r. MatchBool (is_want_of_memory r) (saving.prepares self.old self.new)
            (saving.stops r self.old self.new × HasSameLogs saving self.old self.new)) }
        ensures fault { IfErr result (λ r. (r ≡ refusals.WantOfMemory) ⊎ IsEndingRefusal r) };

    /// The logs of its past have so many entries.
    ghost past_counts: { (r : Self) (past : List AnEntry) → saving.stands r past → length past ≡ saving.base r };

    /// What it is after a save is what was saved.
    ghost saved_last: { (old new : Self) → saving.saves old new → saving.is_saved new };

    /// A save changes nothing of what is committed.
    ghost saved_same: { (old new : Self) → saving.saves old new →
        (saving.base new ≡ saving.base old) × (saving.reported new ≡ saving.reported old)
        × (saving.cut new ≡ saving.cut old) };

    /// An item that was refused changes nothing of what is saved.
    ghost refused_saved: { (old new : Self) → Self.Replica.refuses old new → saving.is_saved old →
        saving.is_saved new };

    /// Items in memory take nothing back of what is committed.
    ghost followed_on: { (old new : Self) → Self.Replica.follows old new → LogsGoOn saving old new };

    /// Nor does a save.
    ghost saved_on: { (old new : Self) → saving.saves old new → LogsGoOn saving old new };

    /// Nor does one that failed.
    ghost failed_on: { (old new : Self) → saving.fails old new → LogsGoOn saving old new };

    /// A log that was reported and published is one of its past.
    ghost forgotten_on: { (old new : Self) → saving.forgets old new → ForgetsReported saving old new };

    /// After a beginning its past has one log more, and its state is the one that was saved last.
    ghost begun_on: { (old new : Self) (packets : List (ℕ × EpochPacket)) → saving.begins old packets new →
        BeginsEpoch saving old new × StaysSaved saving old new };

    /// What was prepared changes nothing of that.
    ghost prepared_on: { (old new : Self) → saving.prepares old new → HasSameLogs saving old new
        × (saving.is_saved old → saving.is_saved new) × saving.keeps old new };

    /// Items in memory change nothing of what its store is to keep.
    ghost followed_keeps: { (old new : Self) → Self.Replica.follows old new → saving.keeps old new };

    /// Nor does a save.
    ghost saved_keeps: { (old new : Self) → saving.saves old new → saving.keeps old new };

    /// What its store is to keep stands over two parts of a time where it stands over each.
    ghost keeps_further: { (old mid new : Self) → saving.keeps old mid → saving.keeps mid new →
        saving.keeps old new };
}
