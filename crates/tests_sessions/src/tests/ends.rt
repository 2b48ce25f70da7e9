//! Those who put items into a node's mailbox, and those who read its board.

ghost use Rattle.std.specs.Prelude.{All, IfSome};
ghost use Rattle.desk_mailbox.specs.Ends.{SendsTo};

use super::talking::SessionParts;
use desk_log::StateStore;
use desk_threads::{
    BoardName, Gathered, Item, KeeperGuard, SENDERS, SESSIONS, SavedNode, Sender, SessionEnds,
};
use std::sync::Wait;

/// The senders of a node's mailbox, and the ends of its sessions.
#[derive(Drop)]
pub(super) struct NodeEnds<B: BoardName> {
    pub(super) senders: Vec<Sender<Item>>,
    pub(super) sessions: Vec<SessionEnds<B>>,
}

/// What was taken of a node's ends: the last sender, and the first two sessions.
pub(super) type TakenEnds<B> = (Sender<Item>, SessionParts<B>, SessionParts<B>);

/// The last sender, and the first two sessions.
pub(super) fn take_all<B: BoardName, S: StateStore + Drop, R: Wait + Drop>(
    guard: &KeeperGuard<B, SavedNode<S>, R>,
    ends: &mut NodeEnds<B>,
) -> Option<TakenEnds<B>>
    requires all { All (SendsTo guard.now.keeper.value.taker) ends.old.senders.items }
    ensures rest { All (SendsTo guard.now.keeper.value.taker) ends.new.senders.items }
    ensures peer { IfSome result (λ taken. SendsTo guard.now.keeper.value.taker taken.0) }
    ensures first { IfSome result (λ taken. SendsTo guard.now.keeper.value.taker taken.1.sender) }
    ensures second { IfSome result (λ taken. SendsTo guard.now.keeper.value.taker taken.2.sender) }
{
    let Some(peer) = ends.senders.pop() else {
        return None;
    };
    let Some(first) = take_session(guard, ends) else {
        return None;
    };
    match take_session(guard, ends) {
        Some(second) => Some((peer, first, second)),
        None => None,
    }
}

/// Gives a sender back.
pub(super) fn give_sender<B: BoardName, S: StateStore + Drop, R: Wait + Drop>(
    guard: &KeeperGuard<B, SavedNode<S>, R>,
    ends: &mut NodeEnds<B>,
    sender: Sender<Item>,
)
    requires all { All (SendsTo guard.now.keeper.value.taker) ends.old.senders.items }
    requires sends { SendsTo guard.now.keeper.value.taker sender }
    ensures { All (SendsTo guard.now.keeper.value.taker) ends.new.senders.items }
{
    drop(ends.senders.push(sender));
}

/// The first session. Its sender is the one of the same number, while none was taken but the last.
fn take_session<B: BoardName, S: StateStore + Drop, R: Wait + Drop>(
    guard: &KeeperGuard<B, SavedNode<S>, R>,
    ends: &mut NodeEnds<B>,
) -> Option<SessionParts<B>>
    requires all { All (SendsTo guard.now.keeper.value.taker) ends.old.senders.items }
    ensures rest { All (SendsTo guard.now.keeper.value.taker) ends.new.senders.items }
    ensures sends { IfSome result (λ parts. SendsTo guard.now.keeper.value.taker parts.sender) }
{
    if ends.senders.is_empty() || ends.sessions.is_empty() {
        return None;
    }
    Some(SessionParts {
        sender: ends.senders.remove(0),
        ends: ends.sessions.remove(0),
    })
}

/// Gives a session back.
pub(super) fn give_session<B: BoardName, S: StateStore + Drop, R: Wait + Drop>(
    guard: &KeeperGuard<B, SavedNode<S>, R>,
    ends: &mut NodeEnds<B>,
    parts: SessionParts<B>,
)
    requires all { All (SendsTo guard.now.keeper.value.taker) ends.old.senders.items }
    requires sends { SendsTo guard.now.keeper.value.taker parts.sender }
    ensures { All (SendsTo guard.now.keeper.value.taker) ends.new.senders.items }
{
    let SessionParts {
        sender,
        ends: session,
    } = parts;
    give_sender(guard, ends, sender);
    drop(ends.sessions.push(session));
}

/// Whether there is one more sender, and all that it put was done or is left.
fn gather_sender<B: BoardName, S: StateStore, R: Wait>(
    rt: &R,
    gathered: Gathered<B, SavedNode<S>>,
    senders: &mut Vec<Sender<Item>>,
) -> (Gathered<B, SavedNode<S>>, bool)
    requires { All (SendsTo gathered.mailbox.taker) senders.old.items }
    ensures { All (SendsTo result.0.mailbox.taker) senders.new.items }
{
    match senders.pop() {
        Some(sender) => {
            let (gathered, sender, outcome) = gathered.sender(rt, sender);
            drop(sender);
            (gathered, outcome.is_ok())
        }
        None => (gathered, false),
    }
}

/// Whether there is one more session, and all that it read or was told is published.
fn gather_reader<B: BoardName, S: StateStore>(
    gathered: Gathered<B, SavedNode<S>>,
    sessions: &mut Vec<SessionEnds<B>>,
) -> (Gathered<B, SavedNode<S>>, bool) {
    match sessions.pop() {
        Some(ends) => {
            let SessionEnds { words, reader } = ends;
            drop(words);
            let (gathered, reader, is_gathered) = gathered.reader(reader);
            drop(reader);
            (gathered, is_gathered)
        }
        None => (gathered, false),
    }
}

/// Whether all that was put into a node's mailbox was done or is left, and all that its sessions saw is published.
pub(super) fn gather_ends<B: BoardName, S: StateStore, R: Wait>(
    rt: &R,
    gathered: Gathered<B, SavedNode<S>>,
    ends: NodeEnds<B>,
) -> (Gathered<B, SavedNode<S>>, bool)
    requires { All (SendsTo gathered.mailbox.taker) ends.senders.items }
{
    let NodeEnds { senders, sessions } = ends;
    let mut gathered = gathered;
    let mut senders = senders;
    let mut sessions = sessions;
    let mut is_whole = true;
    for _ in 0..SENDERS {
        let (back, is_gathered) = gather_sender(rt, gathered, &mut senders);
        gathered = back;
        is_whole = is_whole && is_gathered;
    }
    for _ in 0..SESSIONS {
        let (back, is_gathered) = gather_reader(gathered, &mut sessions);
        gathered = back;
        is_whole = is_whole && is_gathered;
    }
    (gathered, is_whole)
}
