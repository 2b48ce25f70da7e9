//! How what a node's epochs have committed is published as they are opened.

ghost use Rattle.std.specs.Prelude.{◌≡◌, ◌≤◌, ◌++◌, [], true, false, length, IfOk, IfErr};
ghost use Rattle.desk_types.specs.declared.limits.TheConstants.{LOG_ENTRIES};
ghost use Rattle.desk_epoch_opening.specs.Pasts.{past_in};
ghost use Rattle.desk_epoch_node.specs.PastRows.{StandFor};
ghost use Rattle.desk_epoch_stores.specs.Refusals.{IsEpochRefusal};
ghost use Rattle.desk_epoch_stores.specs.Starting.{MayHoldLogs, MayHoldNoMore, is_finished, saved_cut};
ghost use Rattle.desk_published.specs.Writer.{followed_by, published};

use desk_epoch_stores::{EpochStores, OpenedEpoch};
use desk_published::{BoardName, BoardWriter};
use desk_types::limits::LAST_PLACE;
use desk_types::{Entry, Refusal};
use std::alloc::Global;
use std::sync::Wait;

/// How many entries are published at once. A writer never gives back the room that one publish took.
const PART_ENTRIES: usize = 4_096;

/// Publishes entries after all that the writer has noted. True where there was memory to publish all of them.
fn publish_part<B: BoardName, R: Wait>(
    rt: &R,
    writer: BoardWriter<B>,
    entries: &[Entry],
) -> (BoardWriter<B>, bool)
    ensures noted { result.1 ≡ true → result.0.noted ≡ writer.noted ++ entries.now }
    ensures shown { result.1 ≡ true → published result.0.inner ≡ result.0.noted }
{
    let base = writer.noted_len();
    writer.publish_after(rt, base, entries, true)
}

/// Publishes entries after all that the writer has noted, in parts of `PART_ENTRIES`. True where there was memory to
/// publish all of them.
fn publish_parts<B: BoardName, R: Wait>(
    rt: &R,
    writer: BoardWriter<B>,
    entries: &[Entry],
) -> (BoardWriter<B>, bool)
    ensures noted { result.1 ≡ true → result.0.noted ≡ writer.noted ++ entries.now }
    ensures shown { result.1 ≡ true → published result.0.inner ≡ result.0.noted }
{
    let mut writer = writer;
    let mut rest = entries;
    'parts: while rest.len() > PART_ENTRIES {
        let (part, after) = rest.split_at(PART_ENTRIES);
        let (back, is_shown) = publish_part(rt, writer, part);
        writer = back;
        if !is_shown {
            return (writer, false);
        }
        rest = after;
    }
    publish_part(rt, writer, rest)
}

/// Publishes what is committed of an epoch, where the writer has noted the logs before it and no more. True where there
/// was memory to publish all of it.
fn publish_epoch<B: BoardName, T: EpochStores, R: Wait>(
    rt: &R,
    writer: BoardWriter<B>,
    opened: &OpenedEpoch<T>,
) -> (BoardWriter<B>, bool)
    requires past { length writer.noted ≡ opened.now.past.length }
    ensures noted { result.1 ≡ true →
        result.0.noted ≡ writer.noted ++ saved_cut opened.now.most opened.now.saved }
    ensures shown { result.1 ≡ true → published result.0.inner ≡ result.0.noted }
{
    publish_parts(rt, writer, opened.committed())
}

/// Opens a node's epochs from the first on, up to the first that is not over, and publishes what is committed of each.
/// So the log of a past epoch is in memory only until it is published. An epoch ends after so many entries, 1 to
/// 65,536. Err is `WantOfMemory`, also where there is no memory to publish all, or what refused the opening of a store;
/// no store is open then.
pub(crate) fn publish_epochs<B: BoardName, T: EpochStores, R: Wait>(
    rt: &R,
    alloc: Global,
    writer: BoardWriter<B>,
    stores: &mut T,
    most: u64,
) -> (BoardWriter<B>, Result<OpenedEpoch<T>, Refusal>)
    requires least { 1 ≤ most }
    requires most { most ≤ LOG_ENTRIES }
    requires nothing { writer.noted ≡ [] }
    ensures most { IfOk result.1 (λ o. o.most ≡ most) }
    ensures current { IfOk result.1 (λ o. is_finished most o.past.length o.saved ≡ false) }
    ensures held { IfOk result.1 (λ o. T.may_hold stores.old o.epoch o.saved) }
    ensures logs { IfOk result.1 (λ o. MayHoldLogs (T.may_hold stores.old) most o.epoch
        (past_in o.past result.0.noted)) }
    ensures past { IfOk result.1 (λ o. StandFor (past_in o.past result.0.noted) o.past) }
    ensures noted { IfOk result.1 (λ o. result.0.noted
        ≡ followed_by o.past.length result.0.noted (saved_cut most o.saved)) }
    ensures shown { IfOk result.1 (λ _. published result.0.inner ≡ result.0.noted) }
    ensures fault { IfErr result.1 IsEpochRefusal }
    ensures same { MayHoldNoMore T.may_hold stores.old stores.new }
{
    let mut writer = writer;
    let mut opened = match OpenedEpoch::first(alloc, stores, most) {
        Ok(opened) => opened,
        Err(refusal) => return (writer, Err(refusal)),
    };
    for epoch in 0..LAST_PLACE {
        let (back, whole) = publish_epoch(rt, writer, &opened);
        writer = back;
        if !whole {
            let _ = opened.close(stores);
            return (writer, Err(Refusal::WantOfMemory));
        }
        if !opened.is_finished() {
            return (writer, Ok(opened));
        }
        opened = match opened.next(stores) {
            Ok(next) => next,
            Err(refusal) => return (writer, Err(refusal)),
        };
    }
    // Each epoch has an entry at least.
    unreachable!()
}
