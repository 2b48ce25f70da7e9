//! A keeper at its start, with those who put items and those who read.

ghost use Rattle.std.specs.Prelude.{◌≡◌, ◌<◌, ◌⊎◌, ◌++◌, ◌∷◌, true, false, [], length, replicate, All, IfOk, IfErr};
ghost use Rattle.desk_types.specs.Group.{IsGroup};
ghost use Rattle.desk_types.specs.declared.refusal.Refusal.TheVariants as refusals;
ghost use Rattle.desk_log.specs.SavedValue.{committed_entries};
ghost use Rattle.desk_published.specs.Writer.{EqualsPrefix, published};
ghost use Rattle.desk_replica.specs.Endings.{IsEndingRefusal};
ghost use Rattle.desk_replica.specs.Saving.{MayPrepare};
ghost use Rattle.desk_threads.specs.Noted.{IsNoted, replica_history};
ghost use Rattle.desk_threads.specs.Waiting.{idle};
ghost use Rattle.desk_mailbox.specs.Ends.{capacity_of, taken_by, no_sender_left, first_numbers, numbers_of};
ghost use Rattle.desk_mailbox.specs.Ends.{IsNewSender};
ghost use Rattle.desk_mailbox.specs.declared.TheConstants.{MAILBOX_ITEMS};
ghost use Rattle.desk_node.specs.NodeValue.{node_from};

use crate::keeper::Keeper;
use crate::owned_node::OwnedNode;
use crate::saved_node::SavedNode;
use crate::waiting::WaitingSessions;
use crossbeam_channel::{Receiver, Sender as WordSender, bounded};
use crossbeam_utils::rule::Protocol;
use desk_log::StateStore;
use desk_mailbox::{Item, MAILBOX_ITEMS, Sender, Taker, open_mailbox};
use desk_node::Node;
use desk_published::{
    BoardName, BoardReader, BoardWriter, NewHistory, NextEntry, PrefixRule, PublishedBoard,
    Reported, SeatView,
};
use desk_replica::SavedReplica;
use desk_types::{Entry, Owner, Refusal, WantOfMemory};
use left_right::Absorb;
use std::alloc::Global;
use std::sync::Wait;

/// The sessions that a node serves at once. Each has a reader of the board, which is given its place as the node opens.
pub const SESSIONS: usize = 8;

/// The senders for packets of the other nodes.
pub const PEERS: usize = 4;

/// The senders for ticks.
pub const TIMERS: usize = 1;

/// All senders of a keeper's mailbox: first those of the sessions, then those of the peers, then the timer's.
pub const SENDERS: usize = SESSIONS + PEERS + TIMERS;

/// The words that wait for a session at most.
const SESSION_WORDS: usize = 2;

/// What a session gets its answers by, and its reader.
#[derive(Drop)]
pub struct SessionEnds<B: BoardName>
where
    PrefixRule: Protocol<PublishedBoard<B>, SeatView>,
{
    pub words: Receiver<Reported<B>>,
    pub reader: BoardReader<B>,
}

// The ends of one session, which gets what its number waits for.
fn open_session<B: BoardName>(
    alloc: Global,
    writer: &BoardWriter<B>,
    waiting: &mut WaitingSessions<B>,
) -> Result<SessionEnds<B>, WantOfMemory>
    ensures reader { IfOk result (λ ends. ends.reader.pass ≡ published writer.now.inner) }
    ensures waiting { IfOk result (λ _. waiting.new ≡ waiting.old ++ idle ∷ []) }
{
    let (to, words): (WordSender<Reported<B>>, Receiver<Reported<B>>) = bounded(
        alloc,
        SESSION_WORDS,
    )?;
    waiting.add(to)?;
    let reader = writer.reader()?;
    Ok(SessionEnds { words, reader })
}

// The ends of all sessions, in the order of their numbers.
#[tactic(auto, using(crate::proofs::IdleSessions::idle_more))]
fn open_sessions<B: BoardName>(
    alloc: Global,
    writer: &BoardWriter<B>,
    waiting: &mut WaitingSessions<B>,
) -> Result<Vec<SessionEnds<B>>, WantOfMemory>
    requires nobody { waiting.old ≡ [] }
    ensures count { IfOk result (λ all. length all.items ≡ SESSIONS) }
    ensures readers { IfOk result
        (λ all. All (λ ends. ends.reader.pass ≡ published writer.now.inner) all.items) }
    ensures waiting { IfOk result (λ _. waiting.new ≡ replicate SESSIONS idle) }
{
    let mut all = Vec::new(alloc);
    for k in 0..SESSIONS {
        all.push(open_session(alloc, writer, waiting)?)?;
    }
    Ok(all)
}

// The writer of a node's board, with all that the node has committed published.
#[tactic(auto, using(crate::proofs::PublishedPrefixes::shown_front))]
fn open_writer<B: BoardName, R: Wait>(
    rt: &R,
    alloc: Global,
    history: NewHistory,
    node: &Node,
) -> Result<BoardWriter<B>, WantOfMemory>
    requires book { history.seen.book ≡ B.book }
    requires node { node.now.domain ≡ B.domain }
    ensures shown { IfOk result (λ p. published p.inner ≡ committed_entries node.now.saved) }
    ensures noted { IfOk result (λ p. EqualsPrefix p.noted (committed_entries node.now.saved)) }
    ensures held { IfOk result (λ p. EqualsPrefix (published p.inner) p.noted) }
    ensures front { IfOk result (λ p. EqualsPrefix (published p.inner) (committed_entries node.now.saved)) }
{
    let writer: BoardWriter<B> = BoardWriter::new(alloc, node.domain(), history, SESSIONS)?;
    let (writer, whole) = writer.publish(rt, node.saved(), true);
    if whole {
        return Ok(writer);
    }
    writer.end(rt);
    Err(WantOfMemory)
}

// The mailbox of a keeper with its sessions.
struct Front<B: BoardName>
where
    PublishedBoard<B>: Absorb<NextEntry<B>, State = [Entry; 0]>,
    PrefixRule: Protocol<PublishedBoard<B>, SeatView>,
{
    taker: Taker<Item>,
    senders: Vec<Sender<Item>>,
    waiting: WaitingSessions<B>,
    sessions: Vec<SessionEnds<B>>,
}

// Opens the mailbox and the sessions of a keeper that has this writer.
fn open_front<B: BoardName>(
    alloc: Global,
    writer: &BoardWriter<B>,
) -> Result<Front<B>, WantOfMemory>
    ensures taken { IfOk result (λ front. taken_by front.taker ≡ []) }
    ensures left { IfOk result (λ front. no_sender_left front.taker ≡ false) }
    ensures senders { IfOk result (λ front. All (IsNewSender front.taker) front.senders.items) }
    ensures senders_count { IfOk result (λ front. length front.senders.items ≡ SENDERS) }
    ensures numbers { IfOk result (λ front. numbers_of front.senders.items ≡ first_numbers SENDERS) }
    ensures capacity { IfOk result (λ front. capacity_of front.taker ≡ MAILBOX_ITEMS) }
    ensures waiting { IfOk result (λ front. front.waiting ≡ replicate SESSIONS idle) }
    ensures sessions_count { IfOk result (λ front. length front.sessions.items ≡ SESSIONS) }
    ensures readers { IfOk result (λ front. All (λ s. s.reader.pass ≡ published writer.now.inner)
        front.sessions.items) }
{
    let (taker, senders) = open_mailbox::<Item>(alloc, MAILBOX_ITEMS, SENDERS)?;
    let mut waiting = WaitingSessions::new(alloc);
    let sessions = open_sessions(alloc, writer, &mut waiting)?;
    Ok(Front {
        taker,
        senders,
        waiting,
        sessions,
    })
}

/// A keeper of a replica that is saved, all of whose committed entries the writer has published; with the senders of
/// its mailbox, which holds `MAILBOX_ITEMS` items, and what the first of these, the sessions, get their answers by and
/// read. Sender k has number k, from 0, and none of the sessions has asked anything. The k-th end of a session belongs
/// to sender k, which no clause says of its channel. What the next beginning of the replica needs is opened here; where
/// memory is refused to that, after a turn. Err is `WantOfMemory` where there is no memory for the mailbox or the
/// sessions, and else what stops the replica: `StoreFault` where the beginning could not be prepared, and `NodeStopped`
/// where another node acts in its place.
pub fn open_replica<B: BoardName, R: SavedReplica + Drop, W: Wait>(
    rt: &W,
    alloc: Global,
    writer: BoardWriter<B>,
    replica: R,
) -> Result<(Keeper<B, R>, Vec<Sender<Item>>, Vec<SessionEnds<B>>), Refusal>
    requires domain { (R.SavedReplica.saving.owner replica).domain ≡ B.domain }
    requires saved { R.SavedReplica.saving.is_saved replica }
    requires noted { IsNoted R.SavedReplica.saving replica writer.noted }
    requires held { EqualsPrefix (published writer.inner) writer.noted }
    requires whole { published writer.inner ≡ replica_history R.SavedReplica.saving replica writer.noted }
    ensures replica { IfOk result (λ ends. MayPrepare R.SavedReplica.saving replica ends.0.replica) }
    ensures writer { IfOk result (λ ends. ends.0.writer ≡ writer) }
    ensures running { IfOk result (λ ends. ends.0.stopped ≡ false) }
    ensures all_published { IfOk result (λ ends. ends.0.all_published ≡ true) }
    ensures taken { IfOk result (λ ends. taken_by ends.0.taker ≡ []) }
    ensures left { IfOk result (λ ends. no_sender_left ends.0.taker ≡ false) }
    ensures senders { IfOk result (λ ends. All (IsNewSender ends.0.taker) ends.1.items) }
    ensures senders_count { IfOk result (λ ends. length ends.1.items ≡ SENDERS) }
    ensures numbers { IfOk result (λ ends. numbers_of ends.1.items ≡ first_numbers SENDERS) }
    ensures capacity { IfOk result (λ ends. capacity_of ends.0.taker ≡ MAILBOX_ITEMS) }
    ensures waiting { IfOk result (λ ends. ends.0.waiting ≡ replicate SESSIONS idle) }
    ensures sessions_count { IfOk result (λ ends. length ends.2.items ≡ SESSIONS) }
    ensures readers { IfOk result (λ ends. All (λ s. s.reader.pass ≡ published ends.0.writer.inner)
        ends.2.items) }
    ensures refused { IfErr result (λ r. (r ≡ refusals.WantOfMemory)
        ⊎ ((end : R) × R.SavedReplica.saving.stops r replica end)) }
    ensures fault { IfErr result (λ r. (r ≡ refusals.WantOfMemory) ⊎ IsEndingRefusal r) }
{
    let Ok(front) = open_front(alloc, &writer) else {
        writer.end(rt);
        drop(replica);
        return Err(Refusal::WantOfMemory);
    };
    let Front {
        taker,
        senders,
        waiting,
        sessions,
    } = front;
    let keeper = Keeper {
        taker,
        replica,
        writer,
        waiting,
        stopped: false,
        all_published: true,
        alloc,
    };
    let (keeper, prepared) = keeper.prepare(rt);
    match prepared {
        Ok(()) => Ok((keeper, senders, sessions)),
        Err(refusal) => {
            let (_taker, _replica) = keeper.end(rt);
            Err(refusal)
        }
    }
}

/// A keeper of a node whose state the store saved last, with the senders of its mailbox, which holds `MAILBOX_ITEMS`
/// items, and what the first of these, the sessions, get their answers by and read. Sender k has number k, from 0, and
/// none of the sessions has asked anything. The k-th end of a session belongs to sender k, which no clause says of its
/// channel. All that the node has committed is published before the first item, so its readers begin with that. Err
/// where there is no memory for it.
pub fn open_keeper<B: BoardName, S: StateStore + Drop, R: Wait>(
    rt: &R,
    alloc: Global,
    history: NewHistory,
    node: Node,
    store: S,
) -> Result<
    (
        Keeper<B, SavedNode<S>>,
        Vec<Sender<Item>>,
        Vec<SessionEnds<B>>,
    ),
    WantOfMemory,
>
    requires book { history.seen.book ≡ B.book }
    requires node { node.domain ≡ B.domain }
    requires running { S.stopped store ≡ false }
    requires last { S.last store ≡ node.saved }
    ensures owned { IfOk result (λ ends. ends.0.replica.owned ≡ record { node = node; ticks = 0; refused = 0 }) }
    ensures store { IfOk result (λ ends. ends.0.replica.store ≡ store) }
    ensures running { IfOk result (λ ends. ends.0.stopped ≡ false) }
    ensures taken { IfOk result (λ ends. taken_by ends.0.taker ≡ []) }
    ensures left { IfOk result (λ ends. no_sender_left ends.0.taker ≡ false) }
    ensures senders { IfOk result (λ ends. All (IsNewSender ends.0.taker) ends.1.items) }
    ensures senders_count { IfOk result (λ ends. length ends.1.items ≡ SENDERS) }
    ensures numbers { IfOk result (λ ends. numbers_of ends.1.items ≡ first_numbers SENDERS) }
    ensures capacity { IfOk result (λ ends. capacity_of ends.0.taker ≡ MAILBOX_ITEMS) }
    ensures waiting { IfOk result (λ ends. ends.0.waiting ≡ replicate SESSIONS idle) }
    ensures sessions_count { IfOk result (λ ends. length ends.2.items ≡ SESSIONS) }
    ensures shown { IfOk result (λ ends. published ends.0.writer.inner ≡ committed_entries node.saved) }
    ensures readers { IfOk result (λ ends. All (λ s. s.reader.pass ≡ published ends.0.writer.inner)
        ends.2.items) }
{
    let Ok(owned) = OwnedNode::new(alloc, node) else {
        drop(store);
        return Err(WantOfMemory);
    };
    let Ok(writer) = open_writer(rt, alloc, history, owned.node()) else {
        drop(owned);
        drop(store);
        return Err(WantOfMemory);
    };
    let replica = SavedNode { owned, store };
    let Ok(ends) = open_replica(rt, alloc, writer, replica) else {
        return Err(WantOfMemory);
    };
    Ok(ends)
}

// The node whose state the store saved last.
fn saved_node<S: StateStore>(alloc: Global, owner: Owner, store: &S) -> Result<Node, WantOfMemory>
    requires group { IsGroup owner.n }
    requires id { owner.id < owner.n }
    requires running { S.stopped store.now ≡ false }
    ensures { IfOk result (λ node. node ≡ node_from owner (S.last store.now)) }
{
    let Owner { id, n, domain } = owner;
    let last = store.copy_last()?;
    Ok(Node::from_saved(alloc, id, n, domain, last))
}

/// A keeper of the node of the group whose state the store saved last, which has heard nothing since; with the senders
/// and the ends of sessions that `open_keeper` gives. Err where there is no memory for it.
pub fn open_saved<B: BoardName, S: StateStore + Drop, R: Wait>(
    rt: &R,
    alloc: Global,
    history: NewHistory,
    owner: Owner,
    store: S,
) -> Result<
    (
        Keeper<B, SavedNode<S>>,
        Vec<Sender<Item>>,
        Vec<SessionEnds<B>>,
    ),
    WantOfMemory,
>
    requires book { history.seen.book ≡ B.book }
    requires domain { owner.domain ≡ B.domain }
    requires group { IsGroup owner.n }
    requires id { owner.id < owner.n }
    requires running { S.stopped store ≡ false }
    ensures owned { IfOk result (λ ends. ends.0.replica.owned
        ≡ record { node = node_from owner (S.last store); ticks = 0; refused = 0 }) }
    ensures store { IfOk result (λ ends. ends.0.replica.store ≡ store) }
    ensures running { IfOk result (λ ends. ends.0.stopped ≡ false) }
    ensures taken { IfOk result (λ ends. taken_by ends.0.taker ≡ []) }
    ensures left { IfOk result (λ ends. no_sender_left ends.0.taker ≡ false) }
    ensures senders { IfOk result (λ ends. All (IsNewSender ends.0.taker) ends.1.items) }
    ensures senders_count { IfOk result (λ ends. length ends.1.items ≡ SENDERS) }
    ensures numbers { IfOk result (λ ends. numbers_of ends.1.items ≡ first_numbers SENDERS) }
    ensures capacity { IfOk result (λ ends. capacity_of ends.0.taker ≡ MAILBOX_ITEMS) }
    ensures waiting { IfOk result (λ ends. ends.0.waiting ≡ replicate SESSIONS idle) }
    ensures sessions_count { IfOk result (λ ends. length ends.2.items ≡ SESSIONS) }
    ensures shown { IfOk result (λ ends. published ends.0.writer.inner ≡ committed_entries (S.last store)) }
    ensures readers { IfOk result (λ ends. All (λ s. s.reader.pass ≡ published ends.0.writer.inner)
        ends.2.items) }
{
    let Ok(node) = saved_node(alloc, owner, &store) else {
        drop(store);
        return Err(WantOfMemory);
    };
    open_keeper::<B, S, R>(rt, alloc, history, node, store)
}
