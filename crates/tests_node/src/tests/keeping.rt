//! A keeper that does items in this thread, and tells of them by numbers.

ghost use Rattle.desk_mailbox.specs.Ends.{IsSameSender, IsSameTaker};

use crossbeam_utils::rule::Protocol;
use desk_codec::get_packet;
use desk_log::StateStore;
use desk_published::{NextEntry, PrefixRule, PublishedBoard, SeatView};
use desk_threads::{BoardName, Item, Keeper, Out, SESSIONS, SavedNode, SavedReplica, Sender};
use desk_types::{
    ClientId, Command, Entry, EpochPacket, Message, Packet, Purpose, Refusal, RequestNumber,
    UnitName, WantOfMemory,
};
use left_right::Absorb;
use std::alloc::Global;
use std::sync::Wait;

/// The number of the session that puts requests: the last.
pub(super) const SESSION: u64 = SESSIONS as u64 - 1;

/// Where a keeper stands.
#[derive(Clone, Copy, PartialEq, Eq)]
pub(super) struct Stand {
    /// The view of its node.
    pub(super) view: u64,
    /// The entries of its log, how many of them are committed, and how many of these are published.
    pub(super) entries: u64,
    pub(super) commit: u64,
    pub(super) published: u64,
    /// The items that were refused for want of memory.
    pub(super) refused: u64,
}

/// Where nothing stands that was given.
const NOWHERE: Stand = Stand {
    view: u64::MAX,
    entries: u64::MAX,
    commit: u64::MAX,
    published: u64::MAX,
    refused: u64::MAX,
};

/// What a keeper made of an item.
#[derive(Clone, Copy, PartialEq, Eq)]
pub(super) enum Made {
    /// It is done, and all that is committed is published.
    Done,
    /// It is done, and not all that is committed is published.
    Unpublished,
    WantOfMemory,
    StoreFault,
    NodeStopped,
    Refused,
}

/// The packets that went out.
#[derive(Clone, Copy, PartialEq, Eq)]
pub(super) struct Sent {
    pub(super) packets: u64,
    /// Two digits for each, in order: whom it goes to, three more for a commit; and the place that it tells.
    pub(super) order: u64,
}

/// None.
const UNSENT: Sent = Sent {
    packets: 0,
    order: 0,
};

/// How a keeper does its items.
#[derive(Clone, Copy)]
pub(super) enum Way {
    /// One by one, each with a save of its own.
    Items,
    /// In turns: so many of them share a save at most.
    Turns(u64),
}

/// What holds a keeper, and puts into its mailbox. Those who drive it by rows know no more of it.
pub(super) trait Keeps: Drop {
    /// Does an item: what it made of it, and how many packets went out.
    fn do_item(self, item: Item) -> (Self, Made, u64);

    /// Puts an item into the mailbox, until that is closed.
    fn put(self, item: Item) -> Self;

    /// Closes the mailbox.
    fn close(self) -> Self;

    /// Does what is in the mailbox, so many items a turn at most: what came of it, and what went out. Without a stop in
    /// it, it does not end before the mailbox is closed.
    fn do_turns(self, most: u64) -> (Self, Made, Sent);

    /// Where the keeper stands.
    fn stand(&self) -> Stand;
}

/// What a keeper is given.
#[derive(Clone, Copy)]
pub(super) enum Given {
    /// The request of a client.
    Request(u64),
    /// Node 1 has the entries up to a place.
    Answer(u64),
    /// A packet, by its bytes.
    Packet(&'static [u8]),
    /// A packet of this epoch, and for this, by its bytes.
    Under(u64, Purpose, &'static [u8]),
    Tick,
    Stop,
}

/// A StartView of node 1: view 1, commit 0, and a log of one entry, in which client 7 has `E1` sign on.
pub(super) const START_VIEW: &[u8] = b"\x01\x06\x01\0\0\0\0\0\0\0\x01\0\0\0\0\0\0\0\0\0\0\0\x01\
\0\0\0\0\0\0\0\x07\0\0\0\0\0\0\0\x01\0\x0c\x0a\0\0\0\0\0\0\0\0\x02E1";

/// A Prepare of node 1: view 1, place 2, commit 1, and the same of client 8.
pub(super) const PREPARE: &[u8] =
    b"\x01\x01\x01\0\0\0\0\0\0\0\x01\0\0\0\0\0\0\0\x02\0\0\0\0\0\0\0\x01\
\0\0\0\0\0\0\0\x08\0\0\0\0\0\0\0\x01\0\x0c\x0a\0\0\0\0\0\0\0\0\x02E1";

/// The Prepare after it: place 3, and the same of client 9.
pub(super) const NEXT_PREPARE: &[u8] =
    b"\x01\x01\x01\0\0\0\0\0\0\0\x01\0\0\0\0\0\0\0\x03\0\0\0\0\0\0\0\x01\
\0\0\0\0\0\0\0\x09\0\0\0\0\0\0\0\x01\0\x0c\x0a\0\0\0\0\0\0\0\0\x02E1";

/// An item that is a packet of an epoch.
fn item_under(epoch: u64, purpose: Purpose, packet: Packet) -> Item {
    Item::Packet(EpochPacket {
        epoch,
        purpose,
        packet,
    })
}

/// Node 1 has the entries up to this place.
pub(super) fn answer_of_node_1(place: u64) -> Option<Item> {
    let message = Message::PrepareOk {
        from: 1,
        view: 0,
        place,
    };
    if !message.is_in_range() {
        drop(message);
        return None;
    }
    Some(item_under(0, Purpose::Step, Packet::new(message)))
}

/// Client 7 and the like of it ask for the sign-on of a unit.
fn request_of(alloc: Global, client: u64) -> Option<Item> {
    let unit = UnitName::new(alloc, "E1").ok()?;
    let entry = Entry {
        client: ClientId::new(client)?,
        number: RequestNumber::new(1)?,
        command: Command::SignOn { at: 0, unit },
    };
    Some(Item::Request {
        session: SESSION,
        entry,
    })
}

/// The packet of bytes, of this epoch, and for this.
fn packet_of(alloc: Global, epoch: u64, purpose: Purpose, bytes: &[u8]) -> Option<Item> {
    match get_packet(alloc, bytes) {
        Ok(packet) => Some(item_under(epoch, purpose, packet)),
        Err(_) => None,
    }
}

fn item_once(alloc: Global, given: Given) -> Option<Item> {
    match given {
        Given::Request(client) => request_of(alloc, client),
        Given::Answer(place) => answer_of_node_1(place),
        Given::Packet(bytes) => packet_of(alloc, 0, Purpose::Step, bytes),
        Given::Under(epoch, purpose, bytes) => packet_of(alloc, epoch, purpose, bytes),
        Given::Tick => Some(Item::Tick),
        Given::Stop => Some(Item::Stop),
    }
}

/// The item, also where memory for it was refused once.
pub(super) fn item_of(alloc: Global, given: Given) -> Item {
    match item_once(alloc, given) {
        Some(item) => item,
        None => item_once(alloc, given).unwrap_or(Item::Stop),
    }
}

/// Gives a keeper an item: what it made of it, and how many packets went out.
pub(super) fn give<K: Keeps>(alloc: Global, keeper: K, given: Given) -> (K, Made, u64) {
    keeper.do_item(item_of(alloc, given))
}

/// Puts items into the mailbox of a keeper, in order.
pub(super) fn put_all<K: Keeps>(alloc: Global, keeper: K, items: &[Given]) -> K {
    let mut keeper = keeper;
    for given in items {
        keeper = keeper.put(item_of(alloc, *given));
    }
    keeper
}

/// The digits of a packet; two nines where it is of a later epoch.
fn digits_of(to: u8, sent: &EpochPacket) -> u64 {
    if sent.epoch != 0 || sent.purpose != Purpose::Step {
        return 99;
    }
    let (first, place) = match sent.packet.message() {
        Message::Prepare { place, .. } => (to, *place),
        Message::PrepareOk { place, .. } => (to, *place),
        Message::Commit { commit, .. } => (to.wrapping_add(3), *commit),
        _ => (9, 9),
    };
    (first as u64).wrapping_mul(10).wrapping_add(place)
}

/// Counts packets.
#[derive(Drop)]
struct Count {
    sent: Sent,
}

impl Out for Count {
    ghost takes = { λ _ _ _. Unit {0} };

    fn hand(&mut self, to: u8, packet: EpochPacket) {
        let digits = digits_of(to, &packet);
        drop(packet);
        let Sent { packets, order } = self.sent;
        self.sent = Sent {
            packets: packets.saturating_add(1),
            order: order.wrapping_mul(100).wrapping_add(digits),
        };
    }

    ghost takes_none = { λ _. tt };

    ghost takes_then = { λ _ _ _ _ _ _ _. tt };
}

/// What the outcome of an item comes to.
fn made_of(outcome: &Result<bool, Refusal>) -> Made {
    match outcome {
        Ok(true) => Made::Done,
        Ok(false) => Made::Unpublished,
        Err(Refusal::WantOfMemory) => Made::WantOfMemory,
        Err(Refusal::StoreFault) => Made::StoreFault,
        Err(Refusal::NodeStopped) => Made::NodeStopped,
        Err(_) => Made::Refused,
    }
}

/// Where a keeper stands.
fn stand_of<B: BoardName, S: StateStore>(keeper: &Keeper<B, SavedNode<S>>) -> Stand {
    Stand {
        view: keeper.node().saved().view(),
        entries: keeper.node().saved().log().len(),
        commit: keeper.node().saved().commit(),
        published: keeper.published_len(),
        refused: keeper.refused(),
    }
}

/// Ends a keeper: the store of its node.
pub(super) fn end_keeper<B: BoardName, S: StateStore + Drop, R: Wait>(
    rt: &R,
    keeper: Keeper<B, SavedNode<S>>,
) -> S {
    let (taker, preserved) = keeper.end(rt);
    let (owned, store) = preserved.into_parts();
    drop(taker);
    drop(owned);
    store
}

/// Ends what may be a keeper: the store of its node.
fn end_held<B: BoardName, S: StateStore + Drop, R: Wait>(
    rt: &R,
    held: Option<Keeper<B, SavedNode<S>>>,
) -> Option<S> {
    match held {
        Some(keeper) => Some(end_keeper(rt, keeper)),
        None => None,
    }
}

/// A keeper in a block of memory of its own, with what it waits by. It is taken out for each item or for its turns, and
/// put back.
pub(super) struct Held<B: BoardName, S: StateStore + Drop, R: Wait + Drop>
where
    PublishedBoard<B>: Absorb<NextEntry<B>, State = [Entry; 0]>,
    PrefixRule: Protocol<PublishedBoard<B>, SeatView>,
    SavedNode<S>: SavedReplica,
{
    keeper: Box<Option<Keeper<B, SavedNode<S>>>>,
    /// Puts into its mailbox, until that is closed.
    sender: Option<Sender<Item>>,
    /// Where it stood when it was put back.
    stand: Stand,
    rt: R,
}

impl<B: BoardName, S: StateStore + Drop, R: Wait + Drop> Drop for Held<B, S, R> {
    fn drop(self) {
        drop(self.end());
    }
}

/// What a keeper makes of an item, how many packets go out, and where it stands then.
fn handled<B: BoardName, S: StateStore, R: Wait>(
    rt: &R,
    keeper: Keeper<B, SavedNode<S>>,
    item: Item,
) -> (Keeper<B, SavedNode<S>>, Made, u64, Stand) {
    let mut out = Count { sent: UNSENT };
    let (keeper, outcome) = keeper.handle(rt, item, &mut out);
    let made = made_of(&outcome);
    drop(outcome);
    let stand = stand_of(&keeper);
    (keeper, made, out.sent.packets, stand)
}

/// What the outcome of turns comes to, where all that is committed is published, or not all.
fn made_of_turns(outcome: Result<(), Refusal>, is_published: bool) -> Made {
    let outcome = match outcome {
        Ok(()) => Ok(is_published),
        Err(refusal) => Err(refusal),
    };
    made_of(&outcome)
}

/// What a keeper makes of what is in its mailbox, which is closed or has a stop in it, what goes out, and where it
/// stands then.
pub(super) fn handled_in_turns<B: BoardName, S: StateStore, R: Wait>(
    rt: &R,
    keeper: Keeper<B, SavedNode<S>>,
    most: u64,
) -> (Keeper<B, SavedNode<S>>, Made, Sent, Stand)
    ensures { IsSameTaker keeper.taker result.0.taker }
{
    let mut out = Count { sent: UNSENT };
    let (keeper, outcome) = keeper.run_turns(rt, (most as usize).max(1), &mut out);
    let stand = stand_of(&keeper);
    let is_published = keeper.has_published_all() && stand.published == stand.commit;
    let made = made_of_turns(outcome, is_published);
    (keeper, made, out.sent, stand)
}

/// Puts an item, and once more where there was no memory for that.
pub(super) fn put_with<R: Wait>(rt: &R, sender: Sender<Item>, item: Item) -> Sender<Item>
    ensures { IsSameSender sender result }
{
    let (sender, put) = sender.put(rt, item);
    match put {
        Ok(()) => sender,
        Err(item) => {
            let (sender, put) = sender.put(rt, item);
            drop(put);
            sender
        }
    }
}

/// Has the keeper of a block do an item.
fn do_in_block<B: BoardName, S: StateStore + Drop, R: Wait>(
    rt: &R,
    block: &mut Box<Option<Keeper<B, SavedNode<S>>>>,
    item: Item,
) -> (Made, u64, Stand) {
    match Box::replace(block, None) {
        Some(keeper) => {
            let (keeper, made, packets, stand) = handled(rt, keeper, item);
            drop(end_held(rt, Box::replace(block, Some(keeper))));
            (made, packets, stand)
        }
        None => {
            drop(item);
            (Made::Refused, 0, NOWHERE)
        }
    }
}

/// Has the keeper of a block do what is in its mailbox, in turns.
fn do_turns_in_block<B: BoardName, S: StateStore + Drop, R: Wait>(
    rt: &R,
    block: &mut Box<Option<Keeper<B, SavedNode<S>>>>,
    most: u64,
) -> (Made, Sent, Stand) {
    match Box::replace(block, None) {
        Some(keeper) => {
            let (keeper, made, sent, stand) = handled_in_turns(rt, keeper, most);
            drop(end_held(rt, Box::replace(block, Some(keeper))));
            (made, sent, stand)
        }
        None => (Made::Refused, UNSENT, NOWHERE),
    }
}

impl<B: BoardName, S: StateStore + Drop, R: Wait + Drop + Copy> Keeps for Held<B, S, R> {
    fn do_item(self, item: Item) -> (Held<B, S, R>, Made, u64) {
        let mut held = self;
        let (made, packets, stand) = do_in_block(&held.rt, &mut held.keeper, item);
        held.stand = stand;
        (held, made, packets)
    }

    fn put(self, item: Item) -> Held<B, S, R> {
        let mut held = self;
        match held.sender.take() {
            Some(sender) => held.sender = Some(put_with(&held.rt, sender, item)),
            None => drop(item),
        }
        held
    }

    fn close(self) -> Held<B, S, R> {
        let mut held = self;
        drop(held.sender.take());
        held
    }

    fn do_turns(self, most: u64) -> (Held<B, S, R>, Made, Sent) {
        let mut held = self;
        let (made, sent, stand) = do_turns_in_block(&held.rt, &mut held.keeper, most);
        held.stand = stand;
        (held, made, sent)
    }

    fn stand(&self) -> Stand {
        self.stand
    }
}

impl<B: BoardName, S: StateStore + Drop, R: Wait + Drop> Held<B, S, R> {
    /// Holds a keeper, with one that puts into its mailbox. Where there is no memory for its block, it is ended.
    pub(super) fn new(
        rt: R,
        alloc: Global,
        keeper: Keeper<B, SavedNode<S>>,
        sender: Option<Sender<Item>>,
    ) -> Result<Held<B, S, R>, WantOfMemory> {
        let stand = stand_of(&keeper);
        match Box::new(alloc, Some(keeper)) {
            Ok(keeper) => Ok(Held {
                keeper,
                sender,
                stand,
                rt,
            }),
            Err(refused) => {
                drop(sender);
                drop(end_held(&rt, refused.value));
                Err(WantOfMemory)
            }
        }
    }

    /// Ends the keeper: the store of its node.
    pub(super) fn end(self) -> Option<S> {
        let Held {
            keeper,
            sender,
            stand: _,
            rt,
        } = self;
        drop(sender);
        end_held(&rt, Box::into_inner(keeper))
    }
}
