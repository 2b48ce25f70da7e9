//! A keeper at its end, and what comes back to it.

ghost use Rattle.std.specs.Prelude.{◌≡◌, ◌<◌, ◌⊎◌, ◌++◌, [], false, length, OnOk};
ghost use Rattle.std.specs.Bool.{OnTrue};
ghost use mathlib.Core.List.{IsPrefix};
ghost use Rattle.desk_mailbox.specs.Ends.{put_by, taken_by, SendsTo, IsSameSender, IsSameTaker};
ghost use Rattle.desk_mailbox.specs.Gathered.{taken_at_end};
ghost use Rattle.desk_mailbox.specs.Rule.{items_of, IsFirstOf};
ghost use Rattle.desk_published.specs.Reads.{HasFailedOnce};
ghost use Rattle.desk_published.specs.Writer.{published};

use crate::keeper::Keeper;
use crate::saved_node::SavedNode;
use crossbeam_utils::rule::Protocol;
use desk_log::StateStore;
use desk_mailbox::{GatheredMailbox, Item, Sender};
use desk_published::{
    BoardName, BoardReader, BoardWriter, NextEntry, PrefixRule, PublishedBoard, SeatView,
};
use desk_replica::SavedReplica;
use desk_types::{Entry, WantOfMemory};
use left_right::Absorb;
use std::sync::Wait;

/// A keeper that does no more items, and what it found left in its mailbox. It is not `Drop`: end it by `end`.
pub struct Gathered<B: BoardName, R: SavedReplica>
where
    PublishedBoard<B>: Absorb<NextEntry<B>, State = [Entry; 0]>,
    PrefixRule: Protocol<PublishedBoard<B>, SeatView>,
{
    pub(crate) mailbox: GatheredMailbox<Item>,
    pub(crate) replica: R,
    pub(crate) writer: BoardWriter<B>,
}

/// Ends the items of a keeper. What it took is what it did; nothing of its mailbox is taken yet.
pub fn gather<B: BoardName, R: SavedReplica>(keeper: Keeper<B, R>) -> Gathered<B, R>
    ensures taker { result.mailbox.taker ≡ keeper.taker }
    ensures taken { taken_at_end result.mailbox ≡ taken_by keeper.taker }
    ensures left { result.mailbox.left.items ≡ [] }
    ensures replica { result.replica ≡ keeper.replica }
    ensures writer { result.writer ≡ keeper.writer }
{
    let Keeper {
        taker,
        replica,
        writer,
        waiting,
        stopped: _,
        all_published: _,
        alloc,
    } = keeper;
    drop(waiting);
    Gathered {
        mailbox: GatheredMailbox::new(alloc, taker),
        replica,
        writer,
    }
}

impl<B: BoardName, S: StateStore> Gathered<B, SavedNode<S>> {
    /// How many items were refused for want of memory.
    pub fn refused(&self) -> u64
        ensures { result ≡ self.now.replica.owned.refused }
    {
        self.replica.owned.refused()
    }
}

impl<B: BoardName, R: SavedReplica> Gathered<B, R> {
    /// Takes what is left in the mailbox. After Ok all that this sender put was done or counted as refused, or is
    /// left, each once and in order; also where memory was refused, when the rest is still in the mailbox, nothing
    /// else was taken of it. It waits where a sender is in the middle of a put.
    pub fn sender<W: Wait>(
        self,
        rt: &W,
        sender: Sender<Item>,
    ) -> (Gathered<B, R>, Sender<Item>, Result<(), WantOfMemory>)
        requires { SendsTo self.mailbox.taker sender }
        ensures taker { IsSameTaker self.mailbox.taker result.0.mailbox.taker }
        ensures sender { IsSameSender sender result.1 }
        ensures put { put_by result.1 ≡ put_by sender }
        ensures taken { taken_at_end result.0.mailbox ≡ taken_at_end self.mailbox }
        ensures left { (more : _) × (result.0.mailbox.left.items ≡ self.mailbox.left.items ++ more) }
        ensures replica { result.0.replica ≡ self.replica }
        ensures writer { result.0.writer ≡ self.writer }
        ensures gathered { OnOk result.2
            (items_of sender.number (taken_at_end self.mailbox ++ result.0.mailbox.left.items) ≡ put_by sender) }
        ensures at_most { IsFirstOf
            (items_of sender.number (taken_at_end self.mailbox ++ result.0.mailbox.left.items)) (put_by sender) }
    {
        let Gathered {
            mailbox,
            replica,
            writer,
        } = self;
        let (mailbox, sender, outcome) = mailbox.sender(rt, sender);
        let gathered = Gathered {
            mailbox,
            replica,
            writer,
        };
        match outcome {
            Ok(()) => (gathered, sender, Ok(())),
            Err(_) => (gathered, sender, Err(WantOfMemory)),
        }
    }

    /// Whether all that the reader has seen or learned is a prefix of what is published. False only where that is more
    /// than is published, or where the read gave no answer.
    pub fn reader(self, reader: BoardReader<B>) -> (Gathered<B, R>, BoardReader<B>, bool)
        ensures mailbox { result.0.mailbox ≡ self.mailbox }
        ensures replica { result.0.replica ≡ self.replica }
        ensures writer { result.0.writer ≡ self.writer }
        ensures pass { IsPrefix reader.pass result.1.pass }
        ensures gathered { OnTrue result.2
            (IsPrefix result.1.pass (published result.0.writer.inner)) }
        ensures missed { result.2 ≡ false → HasFailedOnce reader.failed_reads result.1.failed_reads
            ⊎ (length (published result.0.writer.inner) < length result.1.pass) }
    {
        let (reader, entered) = reader.read(|_board| ());
        let covered = entered.is_some() && self.writer.covers(&reader);
        (self, reader, covered)
    }

    /// Ends the board, and gives back the replica. It waits for readers that are in the board.
    pub fn end<W: Wait>(self, rt: &W) -> R
        ensures { result ≡ self.replica }
    {
        let Gathered {
            mailbox,
            replica,
            writer,
        } = self;
        drop(mailbox);
        writer.end(rt);
        replica
    }
}
