//! What is left in a mailbox, gathered where memory is refused.

ghost use Rattle.std.specs.Prelude.{◌≡◌, All, IfSome};
ghost use Rattle.desk_mailbox.specs.Ends.{SendsTo, IsSameSender, IsNewSender};

use super::super::keeping::{Given, end_keeper, handled_in_turns, item_of, put_with};
use super::super::opening::open_at;
use desk_log::{MemoryStore, StateStore};
use desk_mailbox::{GatheredMailbox, SentItem, Taker, open_mailbox};
use desk_threads::{BoardName, Item, Keeper, NewHistory, OwnedNode, SavedNode, Sender, gather};
use desk_types::Domain;
use std::alloc::Global;
use std::marker::Brand;
use std::sync::Wait;

/// What a sender puts.
const PUT: &[u64] = &[10, 11, 12, 13, 14, 15];

/// Puts `PUT`, and says whether all was put.
fn put_numbers<R: Wait>(rt: &R, sender: Sender<u64>) -> (Sender<u64>, bool)
    ensures { IsSameSender sender result.0 }
{
    let mut sender = sender;
    let mut is_put = true;
    for number in PUT {
        let (back, put) = sender.put(rt, *number);
        sender = back;
        is_put = is_put && put.is_ok();
    }
    (sender, is_put)
}

/// Whether these are the first of `PUT`, of sender 0.
fn is_front(left: &[SentItem<u64>]) -> bool {
    for (sent, number) in left.iter().zip(PUT) {
        if sent.sender != 0 || sent.item != *number {
            return false;
        }
    }
    left.len() <= PUT.len()
}

/// Whether all that a sender put is left at last, in its order, and where memory was refused the first of it.
fn is_left<R: Wait>(rt: &R, mailbox: GatheredMailbox<u64>, sender: Sender<u64>) -> bool
    requires { SendsTo mailbox.taker sender }
{
    let (mailbox, sender, first) = mailbox.sender(rt, sender);
    let is_well = is_front(mailbox.left.as_slice());
    let is_whole = mailbox.left.len() == PUT.len();
    let (mailbox, sender, second) = mailbox.sender(rt, sender);
    drop(sender);
    is_well
        && is_whole == first.is_ok()
        && second.is_ok()
        && is_front(mailbox.left.as_slice())
        && mailbox.left.len() == PUT.len()
}

/// The sender of a mailbox.
fn pop_sender<T: Drop>(taker: &Taker<T>, senders: Vec<Sender<T>>) -> Option<Sender<T>>
    requires { All (IsNewSender taker.now) senders.items }
    ensures { IfSome result (SendsTo taker.now) }
{
    let mut senders = senders;
    senders.pop()
}

/// Whether a mailbox of one sender is gathered at last, if memory for it is there.
fn is_mailbox_gathered<R: Wait>(rt: &R, alloc: Global) -> bool {
    let Ok((taker, senders)) = open_mailbox::<u64>(alloc, PUT.len(), 1) else {
        return true;
    };
    let Some(sender) = pop_sender(&taker, senders) else {
        drop(taker);
        return false;
    };
    let (sender, is_put) = put_numbers(rt, sender);
    is_put && is_left(rt, GatheredMailbox::new(alloc, taker), sender)
}

#[test]
fn a_mailbox_is_gathered_at_last(rt: HostRuntime) {
    let alloc = rt.alloc();
    assert!(rt; is_mailbox_gathered(&rt, alloc));
}

/// What a keeper does before it ends, and what is in its mailbox then.
struct EndRow {
    /// What it does in one turn, which a stop ends, if it does that.
    turn: &'static [Given],
    after: &'static [Given],
    /// What is left in the mailbox, as `order_of` gives it.
    left: u64,
    /// The entries of the log where no item was refused. All of them are committed.
    entries: u64,
}

/// Nothing is done, or one turn is done, after which others wait.
const ROWS: &[EndRow] = &[
    EndRow {
        turn: &[],
        after: &[
            Given::Request(7),
            Given::Tick,
            Given::Answer(1),
            Given::Tick,
        ],
        left: 7_121,
        entries: 0,
    },
    EndRow {
        turn: &[Given::Request(7), Given::Answer(1), Given::Stop],
        after: &[
            Given::Request(8),
            Given::Tick,
            Given::Answer(2),
            Given::Stop,
        ],
        left: 8_123,
        entries: 1,
    },
];

/// Puts items.
fn put_items<R: Wait>(rt: &R, alloc: Global, sender: Sender<Item>, items: &[Given]) -> Sender<Item>
    ensures { IsSameSender sender result }
{
    let mut sender = sender;
    for given in items {
        sender = put_with(rt, sender, item_of(alloc, *given));
    }
    sender
}

/// A digit for each item, in order: the client of a request, 1 for a tick, 2 for a packet and 3 for a stop.
fn order_of(left: &[SentItem<Item>]) -> u64 {
    let mut order = 0u64;
    for sent in left {
        let digit = match &sent.item {
            Item::Request { entry, .. } => entry.client.get(),
            Item::Tick => 1,
            Item::Packet(_) => 2,
            Item::Stop => 3,
        };
        order = order.wrapping_mul(10).wrapping_add(digit);
    }
    order
}

/// Puts what waits for a keeper, and has it do its turn, if it does one.
fn do_turn<B: BoardName, S: StateStore, R: Wait>(
    rt: &R,
    alloc: Global,
    keeper: Keeper<B, SavedNode<S>>,
    sender: Sender<Item>,
    row: &EndRow,
) -> (Keeper<B, SavedNode<S>>, Sender<Item>)
    requires { SendsTo keeper.taker sender }
    ensures { SendsTo result.0.taker result.1 }
{
    let sender = put_items(rt, alloc, sender, row.turn);
    let sender = put_items(rt, alloc, sender, row.after);
    if row.turn.is_empty() {
        return (keeper, sender);
    }
    let (keeper, _, _, _) = handled_in_turns(rt, keeper, 64);
    (keeper, sender)
}

/// Whether in the mailbox of a keeper that ends is left what it did not take, each item once and in order.
fn is_rest_left<B: BoardName, S: StateStore + Drop, R: Wait>(
    rt: &R,
    alloc: Global,
    keeper: Keeper<B, SavedNode<S>>,
    sender: Sender<Item>,
    row: &EndRow,
) -> bool
    requires { SendsTo keeper.taker sender }
{
    let (taker, preserved) = keeper.end(rt);
    drop(preserved);
    let mailbox = GatheredMailbox::new(alloc, taker);
    let (mailbox, sender, first) = mailbox.sender(rt, sender);
    let (mailbox, sender, second) = mailbox.sender(rt, sender);
    drop(sender);
    let _ = (first, second);
    order_of(mailbox.left.as_slice()) == row.left
}

/// Whether a node did what its keeper took.
fn is_taken_done(preserved: &OwnedNode, row: &EndRow) -> bool {
    let saved = preserved.node().saved();
    let done = (saved.log().len(), saved.commit());
    preserved.refused() != 0 || done == (row.entries, row.entries)
}

/// Whether a keeper that ends finds all that a sender put, at the second time at the latest, and did what it took.
fn is_found<B: BoardName, S: StateStore + Drop, R: Wait>(
    rt: &R,
    keeper: Keeper<B, SavedNode<S>>,
    sender: Sender<Item>,
    row: &EndRow,
) -> bool
    requires { SendsTo keeper.taker sender }
{
    let gathered = gather(keeper);
    let (gathered, sender, first) = gathered.sender(rt, sender);
    let (gathered, sender, second) = gathered.sender(rt, sender);
    drop(sender);
    let _ = first;
    let (preserved, store) = gathered.end(rt).into_parts();
    drop(store);
    second.is_ok() && is_taken_done(&preserved, row)
}

/// The last sender of a keeper.
fn pop_keepers<B: BoardName, S: StateStore>(
    keeper: &Keeper<B, SavedNode<S>>,
    senders: Vec<Sender<Item>>,
) -> Option<Sender<Item>>
    requires { All (IsNewSender keeper.now.taker) senders.items }
    ensures { IfSome result (SendsTo keeper.now.taker) }
{
    let mut senders = senders;
    senders.pop()
}

/// What is gathered of a keeper.
#[derive(Clone, Copy)]
enum Gathering {
    Keeper,
    /// What it took of, once it has ended.
    Mailbox,
}

/// Whether that is gathered of a new keeper, if memory for it is there.
fn is_keeper_gathered<B: BoardName, R: Wait>(
    rt: &R,
    alloc: Global,
    history: NewHistory,
    domain: &Domain,
    row: &EndRow,
    gathering: Gathering,
) -> bool
    requires book { history.seen.book ≡ B.book }
    requires domain { domain.now ≡ B.domain }
{
    let store = MemoryStore::new(alloc);
    let Ok((keeper, senders, sessions)) = open_at::<B, _, R>(rt, alloc, history, 0, domain, store)
    else {
        return true;
    };
    drop(sessions);
    match pop_keepers(&keeper, senders) {
        Some(sender) => {
            let (keeper, sender) = do_turn(rt, alloc, keeper, sender, row);
            match gathering {
                Gathering::Keeper => is_found(rt, keeper, sender, row),
                Gathering::Mailbox => is_rest_left(rt, alloc, keeper, sender, row),
            }
        }
        None => {
            drop(end_keeper(rt, keeper));
            false
        }
    }
}

/// The same by the name of its board.
fn is_gathered<R: Wait>(rt: &R, alloc: Global, row: &EndRow, gathering: Gathering) -> bool {
    let Ok(domain) = Domain::new(alloc, "desk.example") else {
        return true;
    };
    is_keeper_gathered::<Brand, R>(rt, alloc, NewHistory::new(), &domain, row, gathering)
}

#[test]
fn a_keeper_is_gathered_at_last(rt: HostRuntime) {
    let alloc = rt.alloc();
    for row in ROWS {
        assert!(rt; is_gathered(&rt, alloc, row, Gathering::Keeper));
    }
}

#[test]
fn what_a_keeper_did_not_take_is_left_at_last(rt: HostRuntime) {
    let alloc = rt.alloc();
    for row in ROWS {
        assert!(rt; is_gathered(&rt, alloc, row, Gathering::Mailbox));
    }
}
