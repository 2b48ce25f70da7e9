//! What a keeper does between two turns: it begins the next epoch, and prepares the beginning after that.

ghost use Rattle.std.specs.Prelude.{◌≡◌, ◌⊎◌, List, [], map, true, false, IfErr, OnOk, OnErr};
ghost use Rattle.std.specs.List.{AllZip};
ghost use Rattle.desk_types.specs.Refusal.{is_want_of_memory};
ghost use Rattle.desk_types.specs.declared.refusal.Refusal.TheVariants as refusals;
ghost use Rattle.desk_published.specs.Writer.{published};
ghost use Rattle.desk_threads.specs.Runs.{AdvancesBetween, Stand, StopsBetween, stand};
ghost use Rattle.desk_replica.specs.Endings.{IsEndingRefusal};
ghost use Rattle.desk_replica.specs.Saving.{BeginsEpoch, HasSameLogs, MayBegin, MayPrepare};
ghost use Rattle.desk_threads.specs.Telling.{TellsOfStop};
ghost use Rattle.desk_threads.specs.Waiting.{Tells, after_stop};

use crate::handing::{Out, hand_all};
use crate::keeper::Keeper;
use crate::waiting::WaitingSessions;
use desk_published::{BoardName, BoardWriter};
use desk_replica::{ItemStep, SavedReplica};
use desk_types::Refusal;
use std::sync::Wait;

/// What was refused for want of memory is tried again after a turn. Any other refusal ends the keeper.
fn go_on_at_want_of_memory(refusal: Refusal) -> Result<(), Refusal>
    ensures goes_on { OnOk result (is_want_of_memory refusal ≡ true) }
    ensures ends { IfErr result (λ r. (r ≡ refusal) × (is_want_of_memory refusal ≡ false)) }
{
    if refusal.is_want_of_memory() {
        Ok(())
    } else {
        Err(refusal)
    }
}

/// Begins the next epoch of a replica where that is due, and hands the packets of that out, once it is saved. Err is
/// the refusal by which it failed, `StoreFault`; then nothing went out.
fn begin_next<R: SavedReplica, O: Out>(replica: &mut R, out: &mut O) -> Result<(), Refusal>
    requires { R.SavedReplica.saving.is_saved replica.old }
    ensures begins { OnOk result ((packets : List _)
        × MayBegin R.SavedReplica.saving replica.old packets replica.new × O.Out.takes out.old packets out.new) }
    ensures stops { IfErr result (λ r. (out.new ≡ out.old)
        × R.SavedReplica.saving.stops r replica.old replica.new
        × (BeginsEpoch R.SavedReplica.saving replica.old replica.new
        ⊎ HasSameLogs R.SavedReplica.saving replica.old replica.new)) }
    ensures fault { IfErr result (λ r. r ≡ refusals.StoreFault) }
{
    match replica.begin_next() {
        Ok(None) => Ok(()),
        Ok(Some(step)) => {
            let ItemStep {
                epoch,
                purpose,
                packets,
                answers: _,
            } = step;
            hand_all(out, epoch, purpose, packets);
            Ok(())
        }
        Err(refusal) => go_on_at_want_of_memory(refusal),
    }
}

/// Prepares the next beginning of a replica. Err is the refusal by which it failed.
fn prepare_next<R: SavedReplica>(replica: &mut R) -> Result<(), Refusal>
    ensures prepares { OnOk result (MayPrepare R.SavedReplica.saving replica.old replica.new) }
    ensures stops { IfErr result (λ r. R.SavedReplica.saving.stops r replica.old replica.new
        × HasSameLogs R.SavedReplica.saving replica.old replica.new) }
    ensures fault { IfErr result IsEndingRefusal }
{
    match replica.prepare() {
        Ok(()) => Ok(()),
        Err(refused) => go_on_at_want_of_memory(refused),
    }
}

/// Where the keeper stops, all that wait are refused.
fn tell_stop<B: BoardName, W: Wait>(
    rt: &W,
    writer: &BoardWriter<B>,
    waiting: &mut WaitingSessions<B>,
    outcome: &Result<(), Refusal>,
)
    ensures goes_on { OnOk outcome.now (waiting.new ≡ waiting.old) }
    ensures stops { OnErr outcome.now (AllZip (Tells (published writer.now.inner)) (map after_stop waiting.old)
        waiting.new) }
{
    if outcome.is_err() {
        waiting.stop();
        waiting.tell(rt, writer);
    }
}

impl<B: BoardName, R: SavedReplica> Keeper<B, R> {
    // Begins the next epoch where that is due. Err is the refusal by which it failed, `StoreFault`.
    fn begin<W: Wait, O: Out>(self, rt: &W, out: &mut O) -> (Keeper<B, R>, Result<(), Refusal>)
        requires running { self.stopped ≡ false }
        requires whole { self.all_published ≡ true }
        ensures taker { result.0.taker ≡ self.taker }
        ensures begins { OnOk result.1 ((packets : List _)
            × MayBegin R.SavedReplica.saving self.replica packets result.0.replica
            × O.Out.takes out.old packets out.new) }
        ensures waiting { OnOk result.1 (result.0.waiting ≡ self.waiting) }
        ensures writer { result.0.writer ≡ self.writer }
        ensures all_published { result.0.all_published ≡ self.all_published }
        ensures running { OnOk result.1 (result.0.stopped ≡ false) }
        ensures stopped { OnErr result.1 (result.0.stopped ≡ true) }
        ensures stops { IfErr result.1 (λ r. StopsBetween R.SavedReplica.saving r (stand self.replica self.waiting
            (published self.writer.inner) self.all_published out.old)
            (stand result.0.replica result.0.waiting (published result.0.writer.inner)
            result.0.all_published out.new)) }
        ensures fault { IfErr result.1 (λ r. r ≡ refusals.StoreFault) }
    {
        let Keeper {
            taker,
            mut replica,
            writer,
            mut waiting,
            stopped: _,
            all_published,
            alloc,
        } = self;
        let outcome = begin_next(&mut replica, out);
        tell_stop(rt, &writer, &mut waiting, &outcome);
        let keeper = Keeper {
            taker,
            replica,
            writer,
            waiting,
            stopped: outcome.is_err(),
            all_published,
            alloc,
        };
        (keeper, outcome)
    }

    // Prepares the next beginning. Err is the refusal by which it failed: `StoreFault`, or `NodeStopped` where another
    // node acts in its place.
    pub(crate) fn prepare<W: Wait>(self, rt: &W) -> (Keeper<B, R>, Result<(), Refusal>)
        requires running { self.stopped ≡ false }
        ensures taker { result.0.taker ≡ self.taker }
        ensures prepares { OnOk result.1 (MayPrepare R.SavedReplica.saving self.replica result.0.replica) }
        ensures waiting { OnOk result.1 (result.0.waiting ≡ self.waiting) }
        ensures writer { result.0.writer ≡ self.writer }
        ensures all_published { result.0.all_published ≡ self.all_published }
        ensures running { OnOk result.1 (result.0.stopped ≡ false) }
        ensures stopped { OnErr result.1 (result.0.stopped ≡ true) }
        ensures stops { IfErr result.1 (λ r. R.SavedReplica.saving.stops r self.replica result.0.replica) }
        ensures fault { IfErr result.1 IsEndingRefusal }
        ensures reported { OnErr result.1 (TellsOfStop (published self.writer.inner) [] self.waiting
            result.0.waiting) }
    {
        let Keeper {
            taker,
            mut replica,
            writer,
            mut waiting,
            stopped: _,
            all_published,
            alloc,
        } = self;
        let outcome = prepare_next(&mut replica);
        tell_stop(rt, &writer, &mut waiting, &outcome);
        let keeper = Keeper {
            taker,
            replica,
            writer,
            waiting,
            stopped: outcome.is_err(),
            all_published,
            alloc,
        };
        (keeper, outcome)
    }

    // Begins the next epoch where that is due and all that is committed is published. Err is the refusal by which it
    // failed, `StoreFault`.
    fn begin_where_due<W: Wait, O: Out>(
        self,
        rt: &W,
        out: &mut O,
    ) -> (Keeper<B, R>, Result<(), Refusal>)
        requires running { self.stopped ≡ false }
        ensures taker { result.0.taker ≡ self.taker }
        ensures begins { OnOk result.1 ((packets : List _)
            × MayBegin R.SavedReplica.saving self.replica packets result.0.replica
            × O.Out.takes out.old packets out.new
            × (self.all_published ≡ false → (packets ≡ []) × (result.0.replica ≡ self.replica))) }
        ensures waiting { OnOk result.1 (result.0.waiting ≡ self.waiting) }
        ensures writer { result.0.writer ≡ self.writer }
        ensures all_published { result.0.all_published ≡ self.all_published }
        ensures running { OnOk result.1 (result.0.stopped ≡ false) }
        ensures stopped { OnErr result.1 (result.0.stopped ≡ true) }
        ensures stops { IfErr result.1 (λ r. StopsBetween R.SavedReplica.saving r (stand self.replica self.waiting
            (published self.writer.inner) self.all_published out.old)
            (stand result.0.replica result.0.waiting (published result.0.writer.inner)
            result.0.all_published out.new)) }
        ensures fault { IfErr result.1 (λ r. r ≡ refusals.StoreFault) }
    {
        if !self.all_published {
            return (self, Ok(()));
        }
        self.begin(rt, out)
    }

    // What it does after a turn that was saved: where all that is committed is published it begins the next epoch, if
    // that is due, and it prepares the beginning after that. Err is the refusal by which one of the two failed:
    // `StoreFault`, or `NodeStopped` where another node acts in its place.
    pub(crate) fn advance<W: Wait, O: Out>(
        self,
        rt: &W,
        out: &mut O,
    ) -> (Keeper<B, R>, Result<(), Refusal>)
        requires running { self.stopped ≡ false }
        ensures taker { result.0.taker ≡ self.taker }
        ensures went { OnOk result.1 (AdvancesBetween O.Out R.SavedReplica.saving (stand self.replica self.waiting
            (published self.writer.inner) self.all_published out.old)
            (stand result.0.replica result.0.waiting (published result.0.writer.inner)
            result.0.all_published out.new)) }
        ensures failed { IfErr result.1 (λ r. (mid : Stand O R) × AdvancesBetween O.Out R.SavedReplica.saving
            (stand self.replica self.waiting (published self.writer.inner) self.all_published out.old) mid
            × StopsBetween R.SavedReplica.saving r mid (stand result.0.replica result.0.waiting
            (published result.0.writer.inner) result.0.all_published out.new)) }
        ensures running { OnOk result.1 (result.0.stopped ≡ false) }
        ensures stops { OnErr result.1 (result.0.stopped ≡ true) }
        ensures fault { IfErr result.1 IsEndingRefusal }
    {
        let (keeper, begun) = self.begin_where_due(rt, out);
        match begun {
            Ok(()) => keeper.prepare(rt),
            Err(refusal) => (keeper, Err(refusal)),
        }
    }
}
