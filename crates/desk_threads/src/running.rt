//! A keeper that does turn after turn.

ghost use Rattle.std.specs.Prelude.{◌≡◌, ◌<◌, ◌++◌, ◌∷◌, [], List, true, false, not, is_some};
ghost use Rattle.std.specs.Prelude.{IfOk, IfErr, OnOk, OnErr, MatchOption};
ghost use Rattle.desk_mailbox.specs.Ends.{taken_by, no_sender_left, IsSameTaker};
ghost use Rattle.desk_types.specs.declared.refusal.Refusal.TheVariants as refusals;
ghost use Rattle.desk_published.specs.Writer.{published};
ghost use Rattle.desk_threads.specs.Runs.{Ran, RanToLast, stand, RanInTurns, RanToEnd, RanToTurn};
ghost use Rattle.desk_threads.specs.Runs.{HasRunOut, AdvancesBetween, EndsFirstBy, EndsInStop, FailsInTurn, Stand};
ghost use Rattle.desk_threads.specs.Runs.{TakesTurn, items_in};
ghost use Rattle.desk_replica.specs.Endings.{IsEndingRefusal};
ghost use Rattle.desk_replica.specs.Saving.{StaysSaved};

use crate::handing::Out;
use crate::keeper::Keeper;
use desk_mailbox::{Item, SentItem};
use desk_published::BoardName;
use desk_replica::SavedReplica;
use desk_types::Refusal;
use std::sync::Wait;

impl<B: BoardName, R: SavedReplica> Keeper<B, R> {
    // Waits for an item. `None` where no sender is left.
    fn take<W: Wait>(self, rt: &W) -> (Keeper<B, R>, Option<SentItem<Item>>)
        ensures same { IsSameTaker self.taker result.0.taker }
        ensures took { MatchOption result.1 (taken_by result.0.taker ≡ taken_by self.taker)
            (λ sent. taken_by result.0.taker ≡ taken_by self.taker ++ sent ∷ []) }
        ensures left { no_sender_left result.0.taker ≡ not (is_some result.1) }
        ensures replica { result.0.replica ≡ self.replica }
        ensures stopped { result.0.stopped ≡ self.stopped }
        ensures waiting { result.0.waiting ≡ self.waiting }
        ensures writer { result.0.writer ≡ self.writer }
        ensures all_published { result.0.all_published ≡ self.all_published }
    {
        let Keeper {
            taker,
            replica,
            writer,
            waiting,
            stopped,
            all_published,
            alloc,
        } = self;
        let (taker, sent) = taker.take(rt);
        let keeper = Keeper {
            taker,
            replica,
            writer,
            waiting,
            stopped,
            all_published,
            alloc,
        };
        (keeper, sent)
    }

    // Does an item that was taken, and those that are there after it, so many in all at most, where the store has not
    // failed; and advances, where that turn was saved. False after `Stop`.
    fn serve_and_advance<W: Wait, O: Out>(
        self,
        rt: &W,
        item: Item,
        most: usize,
        out: &mut O,
    ) -> (Keeper<B, R>, Result<bool, Refusal>)
        requires running { self.stopped ≡ false }
        requires positive { 0 < most }
        ensures taker { IsSameTaker self.taker result.0.taker }
        ensures did { OnOk result.1 ((sent : List _) × (taken_by result.0.taker ≡ taken_by self.taker ++ sent)
            × (end : Stand O R) × TakesTurn O.Out R.Replica R.SavedReplica.saving most (item ∷ items_in sent)
            (stand self.replica self.waiting (published self.writer.inner) self.all_published out.old) end
            × AdvancesBetween O.Out R.SavedReplica.saving end (stand result.0.replica result.0.waiting
            (published result.0.writer.inner) result.0.all_published out.new)) }
        ensures stopped { IfOk result.1 (λ more. more ≡ false → (sent : List _)
            × (taken_by result.0.taker ≡ taken_by self.taker ++ sent) × EndsInStop (item ∷ items_in sent)) }
        ensures failed { IfErr result.1 (λ r. FailsInTurn O.Out R.Replica R.SavedReplica.saving most r item
            (taken_by self.taker) (stand self.replica self.waiting (published self.writer.inner)
            self.all_published out.old) (taken_by result.0.taker) (stand result.0.replica result.0.waiting
            (published result.0.writer.inner) result.0.all_published out.new)) }
        ensures running { OnOk result.1 (result.0.stopped ≡ false) }
        ensures stops { OnErr result.1 (result.0.stopped ≡ true) }
        ensures fault { IfErr result.1 IsEndingRefusal }
    {
        let (keeper, outcome) = self.serve_turn(rt, item, most, out);
        let more = match outcome {
            Ok(more) => more,
            Err(refusal) => return (keeper, Err(refusal)),
        };
        let (keeper, outcome) = keeper.advance(rt, out);
        match outcome {
            Ok(()) => (keeper, Ok(more)),
            Err(refusal) => (keeper, Err(refusal)),
        }
    }

    // Takes an item, and does it with those that are there after it, so many in all at most, and advances. False after
    // `Stop`, and where no sender is left.
    fn turn<W: Wait, O: Out>(
        self,
        rt: &W,
        most: usize,
        out: &mut O,
    ) -> (Keeper<B, R>, Result<bool, Refusal>)
        requires positive { 0 < most }
        ensures same { IsSameTaker self.taker result.0.taker }
        ensures went { IfOk result.1 (λ more. more ≡ true → RanInTurns O.Out R.Replica R.SavedReplica.saving most
            (taken_by self.taker) (stand self.replica self.waiting (published self.writer.inner)
            self.all_published out.old) (taken_by result.0.taker)
            (stand result.0.replica result.0.waiting (published result.0.writer.inner)
            result.0.all_published out.new)) }
        ensures turns { IfOk result.1 (λ more. more ≡ false → RanToEnd O.Out R.Replica R.SavedReplica.saving most
            (taken_by self.taker) (stand self.replica self.waiting (published self.writer.inner)
            self.all_published out.old) (taken_by result.0.taker)
            (stand result.0.replica result.0.waiting (published result.0.writer.inner)
            result.0.all_published out.new) (no_sender_left result.0.taker)) }
        ensures ends { IfOk result.1 (λ more. more ≡ false →
            HasRunOut (taken_by self.taker) (taken_by result.0.taker) (no_sender_left result.0.taker)) }
        ensures failed { IfErr result.1 (λ r. RanToTurn O.Out R.Replica R.SavedReplica.saving most r
            (taken_by self.taker) (stand self.replica self.waiting (published self.writer.inner)
            self.all_published out.old) (taken_by result.0.taker)
            (stand result.0.replica result.0.waiting (published result.0.writer.inner)
            result.0.all_published out.new)) }
        ensures saved { self.stopped ≡ false → OnOk result.1 ((result.0.stopped ≡ false)
            × StaysSaved R.SavedReplica.saving self.replica result.0.replica) }
        ensures fault { IfErr result.1 IsEndingRefusal }
        ensures first { self.stopped ≡ false → IfErr result.1 (λ r. EndsFirstBy R.SavedReplica.saving r
            result.0.replica) }
        ensures after { self.stopped ≡ true → IfErr result.1 (λ r. r ≡ refusals.NodeStopped) }
        ensures stops { OnErr result.1 (result.0.stopped ≡ true) }
        ensures still { OnOk result.1 (result.0.stopped ≡ self.stopped) }
    {
        let (keeper, sent) = self.take(rt);
        match sent {
            None => {
                let stop = Item::Stop;
                let keeper = keeper.refuse(rt, &stop);
                drop(stop);
                (keeper, Ok(false))
            }
            Some(sent) => {
                if keeper.stopped {
                    let keeper = keeper.refuse(rt, &sent.item);
                    drop(sent);
                    return (keeper, Err(Refusal::NodeStopped));
                }
                keeper.serve_and_advance(rt, sent.item, most, out)
            }
        }
    }

    /// Takes and does items until `Stop`, or until the mailbox reports that no sender is left; it waits while the
    /// mailbox is empty. The items that are there when it takes one, `most` in all and no more, are a turn: their steps
    /// are done in order, in memory; then one save, one publish, and the packets of each step, in order. A tick, a stop
    /// and a packet that may carry a log end their turn. An item that is refused for want of memory is counted, and
    /// ends nothing. After a turn that was saved the keeper begins the next epoch, where that is due and all is
    /// published, and prepares the beginning after that. Err is `StoreFault`, where the save of the last turn failed,
    /// or `NodeStopped` where the keeper had ended before; then nothing of the last turn went out or was published, and
    /// no session heard an answer of it. Err is what stopped the replica where a beginning failed, or could not be
    /// prepared: `StoreFault`, or `NodeStopped` where another node acts in its place; nothing of that went out.
    pub fn run_turns<W: Wait, O: Out>(
        self,
        rt: &W,
        most: usize,
        out: &mut O,
    ) -> (Keeper<B, R>, Result<(), Refusal>)
        requires positive { 0 < most }
        ensures same { IsSameTaker self.taker result.0.taker }
        ensures did { OnOk result.1 (Ran O.Out R.Replica R.SavedReplica.saving (taken_by self.taker)
            self.replica out.old (taken_by result.0.taker) result.0.replica out.new) }
        ensures turns { OnOk result.1 (RanToEnd O.Out R.Replica R.SavedReplica.saving most (taken_by self.taker)
            (stand self.replica self.waiting (published self.writer.inner)
            self.all_published out.old) (taken_by result.0.taker)
            (stand result.0.replica result.0.waiting (published result.0.writer.inner)
            result.0.all_published out.new) (no_sender_left result.0.taker)) }
        // It goes on past each item that is refused for want of memory.
        ensures ends { OnOk result.1 (HasRunOut (taken_by self.taker) (taken_by result.0.taker)
            (no_sender_left result.0.taker)) }
        ensures failed { IfErr result.1 (λ r. RanToTurn O.Out R.Replica R.SavedReplica.saving most r
            (taken_by self.taker) (stand self.replica self.waiting (published self.writer.inner)
            self.all_published out.old) (taken_by result.0.taker)
            (stand result.0.replica result.0.waiting (published result.0.writer.inner)
            result.0.all_published out.new)) }
        ensures saved { self.stopped ≡ false → OnOk result.1 ((result.0.stopped ≡ false)
            × StaysSaved R.SavedReplica.saving self.replica result.0.replica) }
        ensures fault { IfErr result.1 IsEndingRefusal }
        // The first fault is `StoreFault`, or what stops the replica as it advances. From then on it is `NodeStopped`.
        ensures first { self.stopped ≡ false → IfErr result.1 (λ r. EndsFirstBy R.SavedReplica.saving r
            result.0.replica) }
        ensures after { self.stopped ≡ true → IfErr result.1 (λ r. r ≡ refusals.NodeStopped) }
        ensures stops { OnErr result.1 (result.0.stopped ≡ true) }
    {
        let mut keeper = self;
        for _ in rt.forever() {
            let (back, outcome) = keeper.turn(rt, most, out);
            keeper = back;
            match outcome {
                Ok(true) => {}
                Ok(false) => return (keeper, Ok(())),
                Err(refusal) => return (keeper, Err(refusal)),
            }
        }
        unreachable!()
    }

    /// Takes and does items until `Stop`, or until the mailbox reports that no sender is left, each with a save of its
    /// own; it waits while the mailbox is empty. An item that is refused for want of memory is counted, and ends
    /// nothing. After an item whose state was saved the keeper advances, as in `run_turns`. Err is `StoreFault`, where
    /// the save of the last item failed, or `NodeStopped` where the keeper had ended before; then nothing of that item
    /// went out or was published. Err is what stopped the replica where a beginning failed, or could not be prepared:
    /// `StoreFault`, or `NodeStopped` where another node acts in its place; nothing of that went out.
    pub fn run<W: Wait, O: Out>(self, rt: &W, out: &mut O) -> (Keeper<B, R>, Result<(), Refusal>)
        ensures same { IsSameTaker self.taker result.0.taker }
        ensures did { OnOk result.1 (Ran O.Out R.Replica R.SavedReplica.saving (taken_by self.taker)
            self.replica out.old (taken_by result.0.taker) result.0.replica out.new) }
        // It goes on past each item that is refused for want of memory.
        ensures ends { OnOk result.1 (HasRunOut (taken_by self.taker) (taken_by result.0.taker)
            (no_sender_left result.0.taker)) }
        ensures failed { IfErr result.1 (λ r. RanToLast O.Out R.Replica R.SavedReplica.saving r (taken_by self.taker)
            (stand self.replica self.waiting (published self.writer.inner)
            self.all_published out.old) (taken_by result.0.taker)
            (stand result.0.replica result.0.waiting (published result.0.writer.inner)
            result.0.all_published out.new)) }
        // Its items are turns of one, so the sessions that wait get what those of turns get.
        ensures turns { OnOk result.1 (RanToEnd O.Out R.Replica R.SavedReplica.saving 1 (taken_by self.taker)
            (stand self.replica self.waiting (published self.writer.inner)
            self.all_published out.old) (taken_by result.0.taker)
            (stand result.0.replica result.0.waiting (published result.0.writer.inner)
            result.0.all_published out.new) (no_sender_left result.0.taker)) }
        ensures last { IfErr result.1 (λ r. RanToTurn O.Out R.Replica R.SavedReplica.saving 1 r (taken_by self.taker)
            (stand self.replica self.waiting (published self.writer.inner)
            self.all_published out.old) (taken_by result.0.taker)
            (stand result.0.replica result.0.waiting (published result.0.writer.inner)
            result.0.all_published out.new)) }
        ensures saved { self.stopped ≡ false → OnOk result.1 ((result.0.stopped ≡ false)
            × StaysSaved R.SavedReplica.saving self.replica result.0.replica) }
        ensures fault { IfErr result.1 IsEndingRefusal }
        // The first fault is `StoreFault`, or what stops the replica as it advances. From then on it is `NodeStopped`.
        ensures first { self.stopped ≡ false → IfErr result.1 (λ r. EndsFirstBy R.SavedReplica.saving r
            result.0.replica) }
        ensures after { self.stopped ≡ true → IfErr result.1 (λ r. r ≡ refusals.NodeStopped) }
        ensures stops { OnErr result.1 (result.0.stopped ≡ true) }
    {
        self.run_turns(rt, 1, out)
    }
}
