//! One item: its step, its save, its publish, its packets, and what its session gets, in this order.

ghost use Rattle.std.specs.Prelude.{◌≡◌, ◌≢◌, ◌⊎◌, ◌∷◌, [], List, Err, true, false, IfOk, IfErr, OnErr, MatchBool};
ghost use mathlib.Core.List.{IsPrefix};
ghost use Rattle.desk_types.specs.declared.refusal.Refusal.TheVariants as refusals;
ghost use Rattle.desk_threads.specs.ItemAnswers.{HearAndAreInformed, AreInformed, waiting_on};
ghost use Rattle.desk_threads.specs.Waiting.{after_item};
ghost use Rattle.desk_published.specs.Writer.{published};
ghost use Rattle.desk_types.specs.Refusal.{IsStoreRefusal};
ghost use Rattle.desk_types.specs.Refusal.{HasStored};
ghost use Rattle.desk_threads.specs.Filed.{goes_on_after};
ghost use Rattle.desk_threads.specs.SavedItems.{DoesAndForgets, DoesAndFails, PublishesItem, RefusesAndForgets};
ghost use Rattle.desk_replica.specs.Saving.{GoesOnAndForgets, StaysSaved};
ghost use Rattle.desk_threads.specs.Noted.{replica_history};
ghost use Rattle.desk_threads.specs.Telling.{TellsOfStop};

use crate::act::act_and_save;
use crate::handing::{Out, hand_all};
use crate::keeper::Keeper;
use crate::publishing::publish_committed;
use crate::waiting::WaitingSessions;
use desk_mailbox::Item;
use desk_published::BoardName;
use desk_replica::{ItemStep, SavedReplica};
use desk_types::Refusal;
use std::sync::Wait;

// Whether the keeper goes on: it stops where the store failed.
fn goes_on_after(outcome: &Result<ItemStep, Refusal>) -> bool
    ensures { result ≡ goes_on_after outcome.now }
{
    match outcome {
        Ok(_) => true,
        Err(refusal) => refusal.is_want_of_memory(),
    }
}

// Who waits waits on where the keeper goes on, and else is to hear that it stops.
fn stop_unless<B: BoardName>(waiting: &mut WaitingSessions<B>, goes_on: bool)
    ensures { waiting.new ≡ waiting_on goes_on waiting.old }
{
    if !goes_on {
        waiting.stop();
    }
}

impl<B: BoardName, R: SavedReplica> Keeper<B, R> {
    // Does one item, where the store has not failed.
    fn serve<W: Wait, O: Out>(
        self,
        rt: &W,
        item: Item,
        out: &mut O,
    ) -> (Keeper<B, R>, Result<bool, Refusal>)
        requires { self.stopped ≡ false }
        ensures taker { result.0.taker ≡ self.taker }
        ensures did { IfOk result.1 (λ whole. (packets : List _) × (answers : List _)
            × DoesAndForgets R.Replica R.SavedReplica.saving self.replica item packets answers result.0.replica
            × O.Out.takes out.old packets out.new) }
        // Who waits hears what was answered, and is informed of what is published then.
        ensures reported { IfOk result.1 (λ whole. (packets : List _) × (answers : List _)
            × DoesAndForgets R.Replica R.SavedReplica.saving self.replica item packets answers result.0.replica
            × HearAndAreInformed (published result.0.writer.inner) answers
            (after_item item self.waiting) result.0.waiting) }
        // At `WantOfMemory` nothing was answered, and they wait on.
        ensures reported_unanswered { IfErr result.1 (λ r. r ≡ refusals.WantOfMemory →
            AreInformed (published result.0.writer.inner) (after_item item self.waiting) result.0.waiting) }
        // At `StoreFault` and `NodeStopped` all that wait are refused by `NodeStopped`.
        ensures reported_stopped { IfErr result.1 (λ r. IsStoreRefusal r →
            TellsOfStop (published result.0.writer.inner) (item ∷ []) self.waiting result.0.waiting) }
        ensures unpublished { IfErr result.1 (λ r. IsStoreRefusal r →
            published result.0.writer.inner ≡ published self.writer.inner) }
        ensures stops { IfErr result.1 (λ r. IsStoreRefusal r → result.0.stopped ≡ true) }
        ensures first { IfErr result.1 (λ r. (r ≡ refusals.WantOfMemory) ⊎ (r ≡ refusals.StoreFault)) }
        ensures refused { IfErr result.1 (λ r. r ≡ refusals.WantOfMemory →
            RefusesAndForgets R.Replica R.SavedReplica.saving self.replica result.0.replica) }
        ensures fault { IfErr result.1 (λ r. (r ≡ refusals.WantOfMemory) ⊎ IsStoreRefusal r) }
        ensures silent { OnErr result.1 (out.new ≡ out.old) }
        ensures same { GoesOnAndForgets R.SavedReplica.saving self.replica result.0.replica }
        ensures running { HasStored result.1 → result.0.stopped ≡ false }
        ensures saved { HasStored result.1 → StaysSaved R.SavedReplica.saving self.replica result.0.replica }
        // At `StoreFault` the item was done, and the save of what it made failed.
        ensures made { IfErr result.1 (λ r. r ≡ refusals.StoreFault → (packets : List _) × (answers : List _)
            × DoesAndFails R.Replica R.SavedReplica.saving self.replica item packets answers result.0.replica) }
        ensures shown { IsPrefix (published result.0.writer.inner)
            (replica_history R.SavedReplica.saving result.0.replica result.0.writer.noted) }
        ensures grows { IsPrefix (published self.writer.inner)
            (published result.0.writer.inner) }
        // What was published goes on, after the logs of its past, which were published before.
        ensures publishes { HasStored result.1 → PublishesItem R.Replica R.SavedReplica.saving self.replica item
            (published self.writer.inner) (published result.0.writer.inner) result.0.replica }
        ensures whole { IfOk result.1 (λ whole. MatchBool whole
            (published result.0.writer.inner
            ≡ replica_history R.SavedReplica.saving result.0.replica result.0.writer.noted)
            (published result.0.writer.inner
            ≢ replica_history R.SavedReplica.saving result.0.replica result.0.writer.noted)) }
    {
        let Keeper {
            taker,
            mut replica,
            writer,
            mut waiting,
            stopped: _,
            all_published: _,
            alloc,
        } = self;
        waiting.note(&item);
        let outcome = act_and_save(alloc, &mut replica, item);
        let goes_on = goes_on_after(&outcome);
        stop_unless(&mut waiting, goes_on);
        let (writer, whole) = publish_committed(rt, writer, &mut replica, goes_on);
        let answer = match outcome {
            Ok(
                ItemStep {
                    epoch,
                    purpose,
                    packets,
                    answers,
                },
            ) => {
                hand_all(out, epoch, purpose, packets);
                waiting.hear(&answers);
                Ok(whole)
            }
            Err(refusal) => Err(refusal),
        };
        waiting.tell(rt, &writer);
        let keeper = Keeper {
            taker,
            replica,
            writer,
            waiting,
            stopped: !goes_on,
            all_published: whole,
            alloc,
        };
        (keeper, answer)
    }

    // Tells those who wait, and who puts this item, that the keeper stops.
    pub(crate) fn refuse<W: Wait>(self, rt: &W, item: &Item) -> Keeper<B, R>
        ensures taker { result.taker ≡ self.taker }
        ensures replica { result.replica ≡ self.replica }
        ensures stopped { result.stopped ≡ self.stopped }
        ensures writer { result.writer ≡ self.writer }
        ensures all_published { result.all_published ≡ self.all_published }
        ensures reported { TellsOfStop (published self.writer.inner) (item.now ∷ []) self.waiting
            result.waiting }
    {
        let Keeper {
            taker,
            replica,
            writer,
            mut waiting,
            stopped,
            all_published,
            alloc,
        } = self;
        waiting.note(item);
        waiting.stop();
        waiting.tell(rt, &writer);
        Keeper {
            taker,
            replica,
            writer,
            waiting,
            stopped,
            all_published,
            alloc,
        }
    }

    /// Does one item: its step, its save, one publish; then its packets go out, and then those get their answers who
    /// wait for what is published or refused. True exactly where all that its replica has committed is published. Where
    /// memory is refused (`WantOfMemory`) the item is counted, nothing goes out, and those who wait wait on. Where the
    /// store failed (`StoreFault`) nothing more is published and nothing goes out, and all who wait are refused by
    /// `NodeStopped`; so is each later item, at which the replica stays as it is. It waits for readers in the board.
    pub fn handle<W: Wait, O: Out>(
        self,
        rt: &W,
        item: Item,
        out: &mut O,
    ) -> (Keeper<B, R>, Result<bool, Refusal>)
        ensures taker { result.0.taker ≡ self.taker }
        ensures did { IfOk result.1 (λ whole. (packets : List _) × (answers : List _)
            × DoesAndForgets R.Replica R.SavedReplica.saving self.replica item packets answers result.0.replica
            × O.Out.takes out.old packets out.new) }
        // Who waits hears what was answered, and is informed of what is published then.
        ensures reported { IfOk result.1 (λ whole. (packets : List _) × (answers : List _)
            × DoesAndForgets R.Replica R.SavedReplica.saving self.replica item packets answers result.0.replica
            × HearAndAreInformed (published result.0.writer.inner) answers
            (after_item item self.waiting) result.0.waiting) }
        // At `WantOfMemory` nothing was answered, and they wait on.
        ensures reported_unanswered { IfErr result.1 (λ r. r ≡ refusals.WantOfMemory →
            AreInformed (published result.0.writer.inner) (after_item item self.waiting) result.0.waiting) }
        // At `StoreFault` and `NodeStopped` all that wait are refused by `NodeStopped`.
        ensures reported_stopped { IfErr result.1 (λ r. IsStoreRefusal r →
            TellsOfStop (published result.0.writer.inner) (item ∷ []) self.waiting result.0.waiting) }
        ensures unpublished { IfErr result.1 (λ r. IsStoreRefusal r →
            published result.0.writer.inner ≡ published self.writer.inner) }
        ensures stops { IfErr result.1 (λ r. IsStoreRefusal r → result.0.stopped ≡ true) }
        // The first fault is `StoreFault`; then each item is refused by `NodeStopped`, and the replica stays.
        ensures first { self.stopped ≡ false →
            IfErr result.1 (λ r. (r ≡ refusals.WantOfMemory) ⊎ (r ≡ refusals.StoreFault)) }
        ensures after { self.stopped ≡ true → (result.1 ≡ Err refusals.NodeStopped)
            × (result.0.replica ≡ self.replica) }
        ensures refused { IfErr result.1 (λ r. r ≡ refusals.WantOfMemory →
            RefusesAndForgets R.Replica R.SavedReplica.saving self.replica result.0.replica) }
        ensures fault { IfErr result.1 (λ r. (r ≡ refusals.WantOfMemory) ⊎ IsStoreRefusal r) }
        ensures silent { OnErr result.1 (out.new ≡ out.old) }
        ensures same { GoesOnAndForgets R.SavedReplica.saving self.replica result.0.replica }
        ensures running { HasStored result.1 → (self.stopped ≡ false) × (result.0.stopped ≡ false) }
        ensures saved { HasStored result.1 → StaysSaved R.SavedReplica.saving self.replica result.0.replica }
        // At `StoreFault` the item was done, and the save of what it made failed.
        ensures made { IfErr result.1 (λ r. r ≡ refusals.StoreFault → (packets : List _) × (answers : List _)
            × DoesAndFails R.Replica R.SavedReplica.saving self.replica item packets answers result.0.replica) }
        ensures shown { IsPrefix (published result.0.writer.inner)
            (replica_history R.SavedReplica.saving result.0.replica result.0.writer.noted) }
        ensures grows { IsPrefix (published self.writer.inner)
            (published result.0.writer.inner) }
        // What was published goes on, after the logs of its past, which were published before.
        ensures publishes { HasStored result.1 → PublishesItem R.Replica R.SavedReplica.saving self.replica item
            (published self.writer.inner) (published result.0.writer.inner) result.0.replica }
        ensures whole { IfOk result.1 (λ whole. MatchBool whole
            (published result.0.writer.inner
            ≡ replica_history R.SavedReplica.saving result.0.replica result.0.writer.noted)
            (published result.0.writer.inner
            ≢ replica_history R.SavedReplica.saving result.0.replica result.0.writer.noted)) }
    {
        if self.stopped {
            let keeper = self.refuse(rt, &item);
            drop(item);
            return (keeper, Err(Refusal::NodeStopped));
        }
        self.serve(rt, item, out)
    }
}
