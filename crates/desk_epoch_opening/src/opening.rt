//! The keeper of a node over epochs at its start.

ghost use Rattle.std.specs.Prelude.{◌≡◌, ◌⊎◌, ◌≤◌, ◌<◌, false, [], length, replicate, All, None};
ghost use Rattle.std.specs.Prelude.{IfOk, IfErr, IfSome, IsSome};
ghost use Rattle.desk_types.specs.Group.{IsGroup};
ghost use Rattle.desk_types.specs.declared.limits.TheConstants.{LOG_ENTRIES};
ghost use Rattle.desk_types.specs.declared.refusal.Refusal.TheVariants as refusals;
ghost use Rattle.desk_epoch_opening.specs.Opened.{IsOpened, StartsFrom};
ghost use Rattle.desk_epoch_replica.specs.MemberValue.{HasPast};
ghost use Rattle.desk_epoch_replica.specs.Refusals.{IsStartRefusal};
ghost use Rattle.desk_epoch_replica.specs.ReplicaValue.{is_replaced};
ghost use Rattle.desk_epoch_replica.specs.Saves.{IsSavedReplica};
ghost use Rattle.desk_epoch_stores.specs.Starting.{MayHoldNoMore};
ghost use Rattle.desk_mailbox.specs.Ends.{IsNewSender, capacity_of, first_numbers, no_sender_left, numbers_of};
ghost use Rattle.desk_mailbox.specs.Ends.{taken_by};
ghost use Rattle.desk_mailbox.specs.declared.TheConstants.{MAILBOX_ITEMS};
ghost use Rattle.desk_published.specs.Writer.{published};
ghost use Rattle.desk_threads.specs.Waiting.{idle};

use crate::publishing::publish_epochs;
use crate::refused_opening::RefusedOpening;
use desk_epoch_replica::{DeferringReplica, EpochReplica};
use desk_epoch_stores::{EpochStores, OpenedEpoch};
use desk_mailbox::{Item, Sender};
use desk_published::{BoardName, BoardWriter, NewHistory};
use desk_threads::{Keeper, SENDERS, SESSIONS, SessionEnds, open_replica};
use desk_types::{Owner, Refusal};
use std::alloc::Global;
use std::sync::Wait;

/// The replica of a node that starts in an epoch, which holds no requests. The store of the next epoch is opened, but
/// where memory is refused to that. Where it is refused otherwise, all stores are closed.
fn start_replica<T: EpochStores>(
    alloc: Global,
    stores: T,
    opened: OpenedEpoch<T>,
    owner: Owner,
    token: u64,
) -> Result<DeferringReplica<T>, RefusedOpening<T>>
    requires group { IsGroup owner.n }
    requires id { owner.id < owner.n }
    requires past { HasPast opened.past }
    ensures member { IfOk result (λ r. StartsFrom owner token opened.most opened.saved r.replica.member) }
    ensures epoch { IfOk result (λ r. r.replica.member.node.epoch ≡ opened.epoch) }
    ensures past { IfOk result (λ r. r.replica.member.node.past ≡ opened.past) }
    ensures stores { IfOk result (λ r. MayHoldNoMore T.may_hold stores r.replica.stores) }
    ensures store { IfOk result (λ r. T.Store.last r.replica.current ≡ opened.saved) }
    ensures reported { IfOk result (λ r. r.replica.reported ≡ None) }
    ensures deferred { IfOk result (λ r. r.deferred.items ≡ []) }
    ensures saved { IfOk result (λ r. IsSavedReplica T.Store.StateStore r.replica) }
    ensures acting { IfOk result (λ r. is_replaced r.replica ≡ false) }
    ensures fault { IfErr result (λ refused. IsStartRefusal refused.refusal) }
    ensures back { IfErr result (λ refused. IsSome refused.stores) }
    ensures same { IfErr result (λ refused. IfSome refused.stores (MayHoldNoMore T.may_hold stores)) }
{
    let mut replica = match EpochReplica::start(alloc, stores, opened, owner, token) {
        Ok(replica) => replica,
        Err(stores) => return Err(RefusedOpening::with(Refusal::WantOfMemory, stores)),
    };
    match replica.prepare_unless_replaced() {
        Ok(()) => Ok(DeferringReplica::new(alloc, replica)),
        Err(refusal) => {
            // For want of memory it is tried again after a turn.
            if refusal.is_want_of_memory() {
                return Ok(DeferringReplica::new(alloc, replica));
            }
            let (back, _) = replica.into_stores().close();
            Err(RefusedOpening::with(refusal, back))
        }
    }
}

/// The keeper of a node over epochs, each of which ends after so many entries, `most`, 1 to 65,536. It is the owner's
/// node with its token, which is 0 for those that begin a desk. It goes on in the first epoch that is not over, as it
/// was saved last there, and has heard nothing since. With it come the senders and the ends of sessions that
/// `open_replica` gives. All that is committed over all epochs is published before the first item. Err is
/// `WantOfMemory`, or what refused the opening of a store, also of that of the next epoch: `StoreFault` or `WrongFile`.
/// It is `NodeStopped` where another node acts in its place.
pub fn open_epochs<B: BoardName, T: EpochStores + Drop, R: Wait>(
    rt: &R,
    alloc: Global,
    history: NewHistory,
    owner: Owner,
    token: u64,
    most: u64,
    stores: T,
) -> Result<
    (
        Keeper<B, DeferringReplica<T>>,
        Vec<Sender<Item>>,
        Vec<SessionEnds<B>>,
    ),
    RefusedOpening<T>,
>
    requires book { history.seen.book ≡ B.book }
    requires domain { owner.domain ≡ B.domain }
    requires group { IsGroup owner.n }
    requires id { owner.id < owner.n }
    requires least { 1 ≤ most }
    requires most { most ≤ LOG_ENTRIES }
    ensures opened { IfOk result (λ ends. IsOpened T.Store.StateStore (T.may_hold stores) owner token most
        ends.0.replica.replica (published ends.0.writer.inner)) }
    ensures stores { IfOk result (λ ends. MayHoldNoMore T.may_hold stores ends.0.replica.replica.stores) }
    ensures reported { IfOk result (λ ends. ends.0.replica.replica.reported ≡ None) }
    ensures deferred { IfOk result (λ ends. ends.0.replica.deferred.items ≡ []) }
    // A node in whose place another acts is not opened.
    ensures acting { IfOk result (λ ends. is_replaced ends.0.replica.replica ≡ false) }
    ensures running { IfOk result (λ ends. ends.0.stopped ≡ false) }
    ensures taken { IfOk result (λ ends. taken_by ends.0.taker ≡ []) }
    ensures left { IfOk result (λ ends. no_sender_left ends.0.taker ≡ false) }
    ensures senders { IfOk result (λ ends. All (IsNewSender ends.0.taker) ends.1.items) }
    ensures senders_count { IfOk result (λ ends. length ends.1.items ≡ SENDERS) }
    ensures numbers { IfOk result (λ ends. numbers_of ends.1.items ≡ first_numbers SENDERS) }
    ensures capacity { IfOk result (λ ends. capacity_of ends.0.taker ≡ MAILBOX_ITEMS) }
    ensures waiting { IfOk result (λ ends. ends.0.waiting ≡ replicate SESSIONS idle) }
    ensures sessions_count { IfOk result (λ ends. length ends.2.items ≡ SESSIONS) }
    ensures readers { IfOk result (λ ends. All (λ s. s.reader.pass ≡ published ends.0.writer.inner)
        ends.2.items) }
    ensures fault { IfErr result (λ refused. IsStartRefusal refused.refusal) }
    // What opens the stores tells which of them is missing or another node's.
    ensures back { IfErr result (λ refused. refused.refusal ≡ refusals.WrongFile → IsSome refused.stores) }
    ensures same { IfErr result (λ refused. IfSome refused.stores (MayHoldNoMore T.may_hold stores)) }
{
    let mut stores = stores;
    let Ok(writer) = BoardWriter::<B>::new(alloc, &owner.domain, history, SESSIONS) else {
        return Err(RefusedOpening::with(Refusal::WantOfMemory, stores));
    };
    let (writer, outcome) = publish_epochs(rt, alloc, writer, &mut stores, most);
    let opened = match outcome {
        Ok(opened) => opened,
        Err(refusal) => {
            writer.end(rt);
            return Err(RefusedOpening::with(refusal, stores));
        }
    };
    let replica = match start_replica(alloc, stores, opened, owner, token) {
        Ok(replica) => replica,
        Err(refused) => {
            writer.end(rt);
            return Err(refused);
        }
    };
    match open_replica(rt, alloc, writer, replica) {
        Ok(ends) => Ok(ends),
        Err(refusal) => Err(RefusedOpening {
            refusal,
            stores: None,
        }),
    }
}
