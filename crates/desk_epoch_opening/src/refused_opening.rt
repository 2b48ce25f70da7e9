//! A keeper of a node over epochs that was not opened.

ghost use Rattle.std.specs.Prelude.{◌≡◌, Some};

use desk_types::{Refusal, WantOfMemory};

/// Why the keeper of a node over epochs was not opened.
#[derive(Drop)]
pub struct RefusedOpening<T> {
    /// `WantOfMemory`; or what refused the opening of a store, `StoreFault` or `WrongFile`; or `NodeStopped`, where
    /// another node acts in its place.
    pub refusal: Refusal,
    /// What opens the stores, all of which are closed, and which can tell more. None where there was no memory for what
    /// it was handed to.
    pub stores: Option<T>,
}

impl<T> RefusedOpening<T> {
    /// A refusal where what opens the stores comes back.
    pub fn with(refusal: Refusal, stores: T) -> RefusedOpening<T>
        ensures { result ≡ record { refusal = refusal; stores = Some stores } }
    {
        RefusedOpening {
            refusal,
            stores: Some(stores),
        }
    }
}

impl<T> From<WantOfMemory> for RefusedOpening<T> {
    ghost use Rattle.std.specs.Prelude.{◌≡◌, None};
    ghost use Rattle.desk_types.specs.declared.refusal.Refusal.TheVariants as refusals;

    ghost from_gives = { λ _ r. r ≡ record { refusal = refusals.WantOfMemory; stores = None } };

    fn from(_refused: WantOfMemory) -> RefusedOpening<T> {
        RefusedOpening {
            refusal: Refusal::WantOfMemory,
            stores: None,
        }
    }
}
