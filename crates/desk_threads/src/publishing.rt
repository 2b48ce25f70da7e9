//! How what a replica has committed is published.

ghost use Rattle.std.specs.Prelude.{◌≡◌, ◌≢◌, ◌≤◌, true, false, length, MatchBool};
ghost use mathlib.Core.List.{IsPrefix};
ghost use Rattle.desk_published.specs.Writer.{EqualsPrefix, published};
ghost use Rattle.desk_replica.specs.Saving.{MayForget};
ghost use Rattle.desk_threads.specs.Noted.{IsNoted, replica_history};

use desk_published::{BoardName, BoardWriter};
use desk_replica::SavedReplica;
use std::sync::Wait;

/// Publishes the log that was reported to a replica, as far as there is memory, and lets the replica forget it once all
/// of it is published. Says whether all of it is.
fn publish_reported<B: BoardName, R: SavedReplica, W: Wait>(
    rt: &W,
    writer: BoardWriter<B>,
    replica: &mut R,
) -> (BoardWriter<B>, bool)
    requires saved { R.SavedReplica.saving.is_saved replica.old }
    requires noted { IsNoted R.SavedReplica.saving replica.old writer.noted }
    requires shown { EqualsPrefix (published writer.inner)
        (replica_history R.SavedReplica.saving replica.old writer.noted) }
    requires held { EqualsPrefix (published writer.inner) writer.noted }
    requires reached { R.SavedReplica.saving.base replica.old ≤ length (published writer.inner) }
    ensures noted { IsNoted R.SavedReplica.saving replica.new result.0.noted }
    ensures held { IsPrefix (published result.0.inner) result.0.noted }
    ensures reached { R.SavedReplica.saving.base replica.new ≤ length (published result.0.inner) }
    ensures grows { IsPrefix (published writer.inner) (published result.0.inner) }
    ensures shown { IsPrefix (published result.0.inner)
        (replica_history R.SavedReplica.saving replica.new result.0.noted) }
    // It is what was committed after past logs that were published before.
    ensures history { replica_history R.SavedReplica.saving replica.new result.0.noted
        ≡ replica_history R.SavedReplica.saving replica.old (published writer.inner) }
    ensures forgets { MatchBool result.1 (R.SavedReplica.saving.forgets replica.old replica.new)
        (replica.new ≡ replica.old) }
    ensures lags { result.1 ≡ false → published result.0.inner
        ≢ replica_history R.SavedReplica.saving replica.new result.0.noted }
{
    let count = replica.reported().len();
    if count == 0 {
        replica.forget_reported();
        return (writer, true);
    }
    let (writer, whole) = writer.publish_after(rt, replica.past_len(), replica.reported(), true);
    if !whole {
        return (writer, false);
    }
    replica.forget_reported();
    (writer, true)
}

/// Publishes what a replica has committed, as far as there is memory, where that is wanted: first the log that was
/// reported to it, which it forgets once all of that is published, and then what it has committed after that. True
/// exactly where all of it is published then; where nothing is wanted it is false, and nothing changes.
pub(crate) fn publish_committed<B: BoardName, R: SavedReplica, W: Wait>(
    rt: &W,
    writer: BoardWriter<B>,
    replica: &mut R,
    wanted: bool,
) -> (BoardWriter<B>, bool)
    requires saved { wanted ≡ true → R.SavedReplica.saving.is_saved replica.old }
    requires noted { IsNoted R.SavedReplica.saving replica.old writer.noted }
    requires shown { EqualsPrefix (published writer.inner)
        (replica_history R.SavedReplica.saving replica.old writer.noted) }
    requires held { EqualsPrefix (published writer.inner) writer.noted }
    requires reached { R.SavedReplica.saving.base replica.old ≤ length (published writer.inner) }
    ensures noted { IsNoted R.SavedReplica.saving replica.new result.0.noted }
    ensures held { IsPrefix (published result.0.inner) result.0.noted }
    ensures reached { R.SavedReplica.saving.base replica.new ≤ length (published result.0.inner) }
    ensures grows { IsPrefix (published writer.inner) (published result.0.inner) }
    ensures shown { IsPrefix (published result.0.inner)
        (replica_history R.SavedReplica.saving replica.new result.0.noted) }
    // It is what was committed after past logs that were published before.
    ensures history { replica_history R.SavedReplica.saving replica.new result.0.noted
        ≡ replica_history R.SavedReplica.saving replica.old (published writer.inner) }
    ensures forgets { MayForget R.SavedReplica.saving replica.old replica.new }
    ensures whole { wanted ≡ true → MatchBool result.1
        (published result.0.inner ≡ replica_history R.SavedReplica.saving replica.new result.0.noted)
        (published result.0.inner ≢ replica_history R.SavedReplica.saving replica.new result.0.noted) }
    ensures unwanted { wanted ≡ false → (result.0 ≡ writer) × (result.1 ≡ false) × (replica.new ≡ replica.old) }
{
    if !wanted {
        return (writer, false);
    }
    let (writer, forgot) = publish_reported(rt, writer, replica);
    if !forgot {
        return (writer, false);
    }
    writer.publish_after(rt, replica.past_len(), replica.committed(), true)
}
