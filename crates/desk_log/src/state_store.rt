//! What the state of a node is saved to.

use crate::saved::Saved;
use desk_types::{Refusal, WantOfMemory};

/// Keeps the state of a node that was saved last.
pub trait StateStore {
    ghost use Rattle.std.specs.Prelude.{◌≡◌, ◌≤◌, Bool, false, length, take, IfOk, IfErr, OnOk, OnErr};
    ghost use Rattle.desk_types.specs.declared.refusal.Refusal.TheVariants as refusals;
    ghost use Rattle.desk_log.specs.SavedValue.{SavedValue};

    /// The state that was saved last.
    ghost last: { Self → SavedValue };

    /// Whether it has failed, and saves nothing more.
    ghost stopped: { Self → Bool };

    /// What has to stand from one moment to a later one, besides: of a database, its owner and its tables.
    ghost keeps: { Self → Self → Type 0 };

    /// What a save of a state leaves that failed: which state is found where the store is opened again.
    ghost leaves: { Self → SavedValue → Self → Type 0 };

    /// A copy of the state that was saved last.
    fn copy_last(&self) -> Result<Saved, WantOfMemory>
        requires running { stopped self.now ≡ false }
        ensures { IfOk result (λ saved. saved ≡ last self.now) };

    /// Saves a state, where the caller knows that its log and that of the state that was saved last begin with the same
    /// `known` entries. After a fault, which is reported as `StoreFault`, nothing more may be saved.
    fn save_state(&mut self, saved: &Saved, known: u64) -> Result<(), Refusal>
        requires running { stopped self.old ≡ false }
        requires within { (known ≤ length (last self.old).log) × (known ≤ length saved.now.log) }
        requires same { take known (last self.old).log ≡ take known saved.now.log }
        ensures last { OnOk result (last self.new ≡ saved.now) }
        ensures running { OnOk result (stopped self.new ≡ false) }
        ensures preserved { OnOk result (keeps self.old self.new) }
        ensures fault { IfErr result (λ r. r ≡ refusals.StoreFault) }
        ensures failed { OnErr result (leaves self.old saved.now self.new) };

    /// What has to stand, stands where nothing is done.
    ghost preserved_still: { (store : Self) → keeps store store };

    /// And over two parts of a time where it stands over each.
    ghost preserved_further: { (old mid new : Self) → keeps old mid → keeps mid new → keeps old new };
}
