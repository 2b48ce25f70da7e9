//! A wire that a contract knows to be of the mailbox for which it was made.

ghost use Rattle.std.specs.Prelude.{◌≡◌, None};
ghost use Rattle.desk_types.specs.declared.refusal.Refusal.TheVariants as refusals;
ghost use Rattle.desk_mailbox.specs.Ends.{IsSameSender};

use super::talking::SessionParts;
use crossbeam_channel::Receiver;
use desk_published::Reported;
use desk_sessions::{KeeperWords, Line, Wire};
use desk_threads::{BoardName, BoardReader, Item, Sender, SessionEnds};
use desk_types::{Entry, Refusal};
use std::snapshot::Snapshot;
use std::sync::Wait;

/// A wire, with the sender that it began with.
#[derive(Drop)]
pub(super) struct KnownWire<B: BoardName> {
    wire: Wire<B>,
    home: Snapshot<Sender<Item>>,
    ghost same: { IsSameSender home.value wire.sender },
}

impl<B: BoardName> KnownWire<B> {
    /// The wire of a sender, with the keeper's words to its session.
    pub(super) fn new(sender: Sender<Item>, reported: Receiver<Reported<B>>) -> KnownWire<B>
        ensures { result.home.value ≡ sender }
    {
        let home = Snapshot::of(&sender);
        KnownWire {
            wire: Wire {
                sender,
                words: KeeperWords::new(reported),
            },
            home,
        }
    }

    /// The sender, and the ends of its session with a reader.
    pub(super) fn into_parts(self, reader: BoardReader<B>) -> SessionParts<B>
        ensures { IsSameSender self.home.value result.sender }
    {
        let KnownWire { wire, home: _ } = self;
        let Wire { sender, words } = wire;
        SessionParts {
            sender,
            ends: SessionEnds {
                words: words.into_channel(),
                reader,
            },
        }
    }
}

impl<B: BoardName> Line<B> for KnownWire<B> {
    ghost use Rattle.std.specs.Prelude.{None};
    ghost use Rattle.desk_mailbox.specs.declared.item.Item.{Item as AnItem};
    ghost use Rattle.desk_mailbox.specs.declared.sender.Sender.{Sender as ASender};

    ghost exchanged = { λ w. None };

    ghost Preserved = { ASender AnItem };

    ghost preserved = { λ w. w.home.value };

    fn ask<R: Wait>(self, rt: &R, entry: Entry) -> (KnownWire<B>, Result<Reported<B>, Refusal>) {
        let KnownWire { wire, home } = self;
        let (wire, reported) = wire.ask(rt, entry);
        (KnownWire { wire, home }, reported)
    }
}
