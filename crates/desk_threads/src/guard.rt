//! A keeper that ends where it is let go.

ghost use Rattle.std.specs.Prelude.{◌≡◌, IfOk};

use crate::keeper::Keeper;
use crossbeam_utils::rule::Protocol;
use desk_published::{BoardName, NextEntry, PrefixRule, PublishedBoard, SeatView};
use desk_replica::SavedReplica;
use desk_types::{Entry, WantOfMemory};
use left_right::Absorb;
use std::alloc::Global;
use std::sync::Wait;

/// Holds a keeper, and ends it where the guard is dropped; so a keeper can be moved into a thread. Its drop waits for
/// readers that are in the board. The keeper stands in a block of memory of its own, so that a guard moves as a few
/// words.
pub struct KeeperGuard<B: BoardName, R: SavedReplica + Drop, W: Wait + Drop>
where
    PublishedBoard<B>: Absorb<NextEntry<B>, State = [Entry; 0]>,
    PrefixRule: Protocol<PublishedBoard<B>, SeatView>,
{
    pub(crate) keeper: Box<Keeper<B, R>>,
    rt: W,
}

// Ends a keeper, and lets go what it gives back.
fn end_keeper<B: BoardName, R: SavedReplica + Drop, W: Wait>(rt: &W, keeper: Keeper<B, R>) {
    let (taker, replica) = keeper.end(rt);
    drop(taker);
    drop(replica);
}

impl<B: BoardName, R: SavedReplica + Drop, W: Wait + Drop> KeeperGuard<B, R, W> {
    /// Holds a keeper, with what its end takes to wait. Where there is no memory for its block, the keeper is ended.
    pub fn new(
        alloc: Global,
        keeper: Keeper<B, R>,
        rt: W,
    ) -> Result<KeeperGuard<B, R, W>, WantOfMemory>
        ensures { IfOk result (λ guard. guard.keeper.value ≡ keeper) }
    {
        match Box::new(alloc, keeper) {
            Ok(keeper) => Ok(KeeperGuard { keeper, rt }),
            Err(refused) => {
                end_keeper(&rt, refused.value);
                Err(WantOfMemory)
            }
        }
    }

    /// The keeper, which has not ended.
    pub fn into_keeper(self) -> Keeper<B, R>
        ensures { result ≡ self.keeper.value }
    {
        let KeeperGuard { keeper, rt: _rt } = self;
        Box::into_inner(keeper)
    }
}

impl<B: BoardName, R: SavedReplica + Drop, W: Wait + Drop> Drop for KeeperGuard<B, R, W> {
    fn drop(self) {
        let KeeperGuard { keeper, rt } = self;
        // Who drops the guard ends the keeper, and those who wait hear of it.
        end_keeper(&rt, Box::into_inner(keeper));
    }
}
