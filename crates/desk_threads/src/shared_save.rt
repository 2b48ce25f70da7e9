//! A turn of items: their steps in memory, one save, one publish, their packets, and what their sessions get, in
//! this order.

ghost use Rattle.std.specs.Prelude.{◌≡◌, ◌≢◌, ◌<◌, ◌≤◌, ◌++◌, ◌∷◌, List, Some, None, true, false, length, map};
ghost use Rattle.std.specs.Prelude.{option_to_list, IfOk, IfErr, OnOk, OnErr, MatchBool};
ghost use Rattle.std.specs.List.{AllZip};
ghost use mathlib.Core.List.{IsPrefix};
ghost use Rattle.desk_mailbox.specs.Ends.{taken_by, IsSameTaker};
ghost use Rattle.desk_mailbox.specs.declared.item.Item.TheVariants as items;
ghost use Rattle.desk_types.specs.declared.refusal.Refusal.TheVariants as refusals;
ghost use Rattle.desk_published.specs.Writer.{EqualsPrefix, published};
ghost use Rattle.desk_threads.specs.Waiting.{after_stop, HearsAll, Tells};
ghost use Rattle.desk_threads.specs.EndingItems.{OnlyLastEnds};
ghost use Rattle.desk_threads.specs.Telling.{after_items, NotesItems, TellsOfStop, TellsRoundLate};
ghost use Rattle.desk_threads.specs.Turns.{packets_of_steps, answers_of_steps, MetAndSaved};
ghost use Rattle.desk_threads.specs.Runs.{items_in, stand, EndsInStop, TakesTurn};
ghost use Rattle.desk_threads.specs.SavedItems.{MeetsAndFails};
ghost use Rattle.desk_replica.specs.Saving.{MayForget};
ghost use Rattle.desk_threads.specs.Noted.{IsNoted, PublishesOn, replica_history};

use crate::handing::Out;
use crate::keeper::Keeper;
use crate::publishing::publish_committed;
use crate::turn::{Turn, hand_steps};
use crate::waiting::WaitingSessions;
use desk_mailbox::Item;
use desk_published::{BoardName, BoardWriter};
use desk_replica::SavedReplica;
use desk_types::Refusal;
use std::alloc::Global;
use std::sync::Wait;

/// Does an item that was taken, and those that are there after it, so many in all at most, and saves what all of them
/// made.
fn act_all_and_save<B: BoardName, R: SavedReplica, W: Wait>(
    rt: &W,
    alloc: Global,
    turn: Turn<B, R>,
    item: Item,
    most: usize,
) -> (Turn<B, R>, Result<(), Refusal>)
    requires saved { R.SavedReplica.saving.is_saved turn.replica }
    requires positive { 0 < most }
    requires late { turn.late ≡ None }
    ensures taker { IsSameTaker turn.taker result.0.taker }
    ensures did { (sent : List _) × (length sent < most)
        × (taken_by result.0.taker ≡ taken_by turn.taker ++ sent)
        × MetAndSaved R.Replica R.SavedReplica.saving turn.replica turn.steps.items (item ∷ items_in sent) result.1
        result.0.replica result.0.steps.items
        × NotesItems (item ∷ items_in sent) turn.waiting result.0.waiting result.0.late
        × OnlyLastEnds (item ∷ items_in sent) }
    ensures fault { IfErr result.1 (λ r. r ≡ refusals.StoreFault) }
{
    let known = turn.replica.committed().len() as u64;
    let turn = turn.add(alloc, item);
    let turn = turn.fill(rt, alloc, most);
    turn.save(known)
}

// Whether the last item of a turn is a stop.
fn is_stop(late: &Option<Item>) -> bool
    ensures { result ≡ true → late.now ≡ Some items.Stop }
{
    matches!(late, Some(Item::Stop))
}

// Tells those who wait of a tick or a stop.
fn note_late<B: BoardName>(waiting: &mut WaitingSessions<B>, late: &Option<Item>)
    ensures { waiting.new ≡ after_items (option_to_list late.now) waiting.old }
{
    match late {
        None => {}
        Some(item) => waiting.note(item),
    }
}

/// Publishes what a turn committed, hands its packets out, and tells its sessions, once it is saved.
fn end_saved<B: BoardName, R: SavedReplica, W: Wait, O: Out>(
    rt: &W,
    alloc: Global,
    writer: BoardWriter<B>,
    turn: Turn<B, R>,
    out: &mut O,
) -> Keeper<B, R>
    requires last { R.SavedReplica.saving.is_saved turn.replica }
    requires noted { IsNoted R.SavedReplica.saving turn.replica writer.noted }
    requires shown { EqualsPrefix (published writer.inner)
        (replica_history R.SavedReplica.saving turn.replica writer.noted) }
    requires held { EqualsPrefix (published writer.inner) writer.noted }
    requires reached { R.SavedReplica.saving.base turn.replica ≤ length (published writer.inner) }
    requires domain { (R.SavedReplica.saving.owner turn.replica).domain ≡ B.domain }
    ensures taker { result.taker ≡ turn.taker }
    ensures replica { MayForget R.SavedReplica.saving turn.replica result.replica }
    ensures stopped { result.stopped ≡ false }
    ensures gave { O.Out.takes out.old (packets_of_steps turn.steps.items) out.new }
    ensures grows { IsPrefix (published writer.inner) (published result.writer.inner) }
    ensures publishes { PublishesOn R.SavedReplica.saving turn.replica (published writer.inner)
        (published result.writer.inner) }
    ensures whole { MatchBool result.all_published
        (published result.writer.inner ≡ replica_history R.SavedReplica.saving turn.replica (published writer.inner))
        (published result.writer.inner ≢ replica_history R.SavedReplica.saving turn.replica (published writer.inner)) }
    ensures reported { (heard : List _) × AllZip (HearsAll (answers_of_steps turn.steps.items)) turn.waiting heard
        × TellsRoundLate (published result.writer.inner) turn.late heard result.waiting }
{
    let Turn {
        taker,
        mut replica,
        mut waiting,
        steps,
        late,
        is_over: _,
    } = turn;
    let (writer, all_published) = publish_committed(rt, writer, &mut replica, true);
    hand_steps(out, &mut waiting, steps);
    // who is answered in this turn hears so before a tick or a stop can end the wait
    waiting.tell(rt, &writer);
    note_late(&mut waiting, &late);
    drop(late);
    waiting.tell(rt, &writer);
    Keeper {
        taker,
        replica,
        writer,
        waiting,
        stopped: false,
        all_published,
        alloc,
    }
}

/// Refuses all that wait, where a turn was not saved. Nothing is published, and nothing goes out.
fn end_unsaved<B: BoardName, R: SavedReplica, W: Wait>(
    rt: &W,
    alloc: Global,
    writer: BoardWriter<B>,
    turn: Turn<B, R>,
) -> Keeper<B, R>
    requires noted { IsNoted R.SavedReplica.saving turn.replica writer.noted }
    requires shown { EqualsPrefix (published writer.inner)
        (replica_history R.SavedReplica.saving turn.replica writer.noted) }
    requires held { EqualsPrefix (published writer.inner) writer.noted }
    requires reached { R.SavedReplica.saving.base turn.replica ≤ length (published writer.inner) }
    requires domain { (R.SavedReplica.saving.owner turn.replica).domain ≡ B.domain }
    ensures taker { result.taker ≡ turn.taker }
    ensures replica { result.replica ≡ turn.replica }
    ensures stopped { result.stopped ≡ true }
    ensures writer { result.writer ≡ writer }
    ensures reported { AllZip (Tells (published writer.inner))
        (map after_stop (after_items (option_to_list turn.late) turn.waiting)) result.waiting }
{
    let Turn {
        taker,
        replica,
        mut waiting,
        steps,
        late,
        is_over: _,
    } = turn;
    drop(steps);
    note_late(&mut waiting, &late);
    drop(late);
    waiting.stop();
    waiting.tell(rt, &writer);
    Keeper {
        taker,
        replica,
        writer,
        waiting,
        stopped: true,
        all_published: false,
        alloc,
    }
}

impl<B: BoardName, R: SavedReplica> Keeper<B, R> {
    // Does an item that was taken, and those that are there after it, so many in all at most, where the store has not
    // failed. False after `Stop`.
    pub(crate) fn serve_turn<W: Wait, O: Out>(
        self,
        rt: &W,
        item: Item,
        most: usize,
        out: &mut O,
    ) -> (Keeper<B, R>, Result<bool, Refusal>)
        requires running { self.stopped ≡ false }
        requires positive { 0 < most }
        ensures taker { IsSameTaker self.taker result.0.taker }
        ensures did { OnOk result.1 ((sent : List _) × (taken_by result.0.taker ≡ taken_by self.taker ++ sent)
            × TakesTurn O.Out R.Replica R.SavedReplica.saving most (item ∷ items_in sent)
            (stand self.replica self.waiting (published self.writer.inner)
            self.all_published out.old)
            (stand result.0.replica result.0.waiting (published result.0.writer.inner)
            result.0.all_published out.new)) }
        ensures stopped { IfOk result.1 (λ more. more ≡ false → (sent : List _)
            × (taken_by result.0.taker ≡ taken_by self.taker ++ sent) × EndsInStop (item ∷ items_in sent)) }
        ensures failed { OnErr result.1 ((sent : List _) × (length sent < most)
            × OnlyLastEnds (item ∷ items_in sent) × (taken_by result.0.taker ≡ taken_by self.taker ++ sent)
            × (out.new ≡ out.old)
            × (published result.0.writer.inner ≡ published self.writer.inner)
            × TellsOfStop (published self.writer.inner) (item ∷ items_in sent) self.waiting
            result.0.waiting
            × MeetsAndFails R.Replica R.SavedReplica.saving self.replica (item ∷ items_in sent)
            result.0.replica) }
        ensures running { OnOk result.1 (result.0.stopped ≡ false) }
        ensures stops { OnErr result.1 (result.0.stopped ≡ true) }
        ensures fault { IfErr result.1 (λ r. r ≡ refusals.StoreFault) }
    {
        let Keeper {
            taker,
            replica,
            writer,
            waiting,
            stopped: _,
            all_published: _,
            alloc,
        } = self;
        let turn = Turn::new(alloc, taker, replica, waiting);
        let (turn, outcome) = act_all_and_save(rt, alloc, turn, item, most);
        match outcome {
            Ok(()) => {
                let goes_on = !is_stop(&turn.late);
                let keeper = end_saved(rt, alloc, writer, turn, out);
                (keeper, Ok(goes_on))
            }
            Err(refusal) => {
                let keeper = end_unsaved(rt, alloc, writer, turn);
                (keeper, Err(refusal))
            }
        }
    }
}
