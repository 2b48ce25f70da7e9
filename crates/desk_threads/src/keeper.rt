//! A keeper between two items.

ghost use Rattle.std.specs.Prelude.{◌≡◌, ◌≢◌, ◌≤◌, true, false, length, take};
ghost use Rattle.std.specs.Coded.{→_prop};
ghost use mathlib.Core.List.{IsPrefix};
ghost use Rattle.desk_published.specs.Writer.{EqualsPrefix, followed_by, published};
ghost use Rattle.desk_replica.specs.Saving.{to_publish};
ghost use Rattle.desk_threads.specs.Noted.{replica_history};

use crate::saved_node::SavedNode;
use crate::waiting::WaitingSessions;
use crossbeam_utils::rule::Protocol;
use desk_log::StateStore;
use desk_mailbox::{Item, Taker};
use desk_node::Node;
use desk_published::{BoardName, BoardWriter, NextEntry, PrefixRule, PublishedBoard, SeatView};
use desk_replica::SavedReplica;
use desk_types::Entry;
use left_right::Absorb;
use std::alloc::Global;
use std::sync::Wait;

/// Does the items of a mailbox. What its replica has committed it publishes, as far as there is memory. It is not
/// `Drop`: end it by `end`.
pub struct Keeper<B: BoardName, R: SavedReplica>
where
    PublishedBoard<B>: Absorb<NextEntry<B>, State = [Entry; 0]>,
    PrefixRule: Protocol<PublishedBoard<B>, SeatView>,
{
    pub(crate) taker: Taker<Item>,
    pub(crate) replica: R,
    pub(crate) writer: BoardWriter<B>,
    pub(crate) waiting: WaitingSessions<B>,
    /// Whether the store failed.
    pub(crate) stopped: bool,
    /// Whether all that its replica has committed is published, where the store has not failed.
    pub(crate) all_published: bool,
    pub(crate) alloc: Global,
    pub ghost past_noted: { R.SavedReplica.saving.base replica ≤ length writer.noted },
    // The logs of its past were published.
    pub ghost past_shown: { R.SavedReplica.saving.base replica ≤ length (published writer.inner) },
    pub ghost past_is: { R.SavedReplica.saving.stands replica
        (take (R.SavedReplica.saving.base replica) writer.noted) } by { R.SavedReplica.saving.stands_prop replica
            (take (R.SavedReplica.saving.base replica) writer.noted) },
    pub ghost next: { EqualsPrefix writer.noted (followed_by (R.SavedReplica.saving.base replica) writer.noted
        (to_publish R.SavedReplica.saving replica)) },
    pub ghost noted: { EqualsPrefix writer.noted (replica_history R.SavedReplica.saving replica writer.noted) },
    pub ghost held: { EqualsPrefix (published writer.inner) writer.noted },
    pub ghost shown: { EqualsPrefix (published writer.inner)
        (replica_history R.SavedReplica.saving replica writer.noted) },
    pub ghost domain_is: { (R.SavedReplica.saving.owner replica).domain ≡ B.domain },
    pub ghost last: { stopped ≡ false → R.SavedReplica.saving.is_saved replica } by { →_prop
        (R.SavedReplica.saving.saved_prop replica) },
    pub ghost whole: { stopped ≡ false → all_published ≡ true →
        published writer.inner ≡ replica_history R.SavedReplica.saving replica writer.noted },
    pub ghost partial: { stopped ≡ false → all_published ≡ false →
        published writer.inner ≢ replica_history R.SavedReplica.saving replica writer.noted },
}

impl<B: BoardName, S: StateStore> Keeper<B, SavedNode<S>> {
    /// How many items were refused for want of memory.
    pub fn refused(&self) -> u64
        ensures { result ≡ self.now.replica.owned.refused }
    {
        self.replica.owned.refused()
    }

    /// Its node, as the items so far left it.
    pub fn node(&self) -> &Node
        ensures { result.now ≡ self.now.replica.owned.node }
    {
        self.replica.owned.node()
    }
}

impl<B: BoardName, R: SavedReplica> Keeper<B, R> {
    /// How many entries are published. They are the first of those that its replica has committed.
    pub fn published_len(&self) -> u64
        ensures value { result ≡ length (published self.now.writer.inner) }
        ensures shown { IsPrefix (published self.now.writer.inner)
            (replica_history R.SavedReplica.saving self.now.replica self.now.writer.noted) }
    {
        self.writer.published_len()
    }

    /// Whether all that its replica has committed is published. It says nothing once the store has failed.
    pub fn has_published_all(&self) -> bool
        ensures whole { self.now.stopped ≡ false → result ≡ true →
            published self.now.writer.inner
            ≡ replica_history R.SavedReplica.saving self.now.replica self.now.writer.noted }
        ensures partial { self.now.stopped ≡ false → result ≡ false →
            published self.now.writer.inner
            ≢ replica_history R.SavedReplica.saving self.now.replica self.now.writer.noted }
    {
        self.all_published
    }

    /// Ends the board, and gives back the taker and the replica. From then on no reader can enter the board, and no
    /// session gets an answer. It waits for readers that are in the board.
    pub fn end<W: Wait>(self, rt: &W) -> (Taker<Item>, R)
        ensures taker { result.0 ≡ self.taker }
        ensures replica { result.1 ≡ self.replica }
    {
        let Keeper {
            taker,
            replica,
            writer,
            waiting,
            stopped: _,
            all_published: _,
            alloc: _,
        } = self;
        drop(waiting);
        writer.end(rt);
        (taker, replica)
    }
}
