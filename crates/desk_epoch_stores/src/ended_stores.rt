//! The stores of a node over epochs that has ended.

ghost use Rattle.desk_epoch_stores.specs.Starting.{MayHoldNoMore};

use crate::epoch_stores::EpochStores;

/// The stores that a node has open where it ends.
#[derive(Drop)]
pub struct EndedStores<T, S> {
    /// What opened them.
    pub stores: T,
    /// The epoch in which the node ended, counted from 0.
    pub epoch: u64,
    /// That of this epoch.
    pub current: S,
    /// That of the next epoch, where it is open.
    pub next: Option<S>,
}

impl<T: EpochStores> EndedStores<T, T::Store> {
    /// Closes them, and gives what opened them; and whether all that was saved stands in that of the node's epoch, as
    /// `EpochStores::close` says.
    pub fn close(self) -> (T, bool)
        ensures same { MayHoldNoMore T.may_hold self.stores result.0 }
    {
        let EndedStores {
            mut stores,
            epoch,
            current,
            next,
        } = self;
        if let Some(next) = next {
            // The node saved nothing there.
            let _ = stores.close(epoch.saturating_add(1), next);
        }
        let is_whole = stores.close(epoch, current);
        (stores, is_whole)
    }
}
