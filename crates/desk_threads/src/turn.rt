//! Items that are done one after the other in memory, before the save that they share.

ghost use Rattle.std.specs.Prelude.{◌≡◌, ◌≤◌, ◌<◌, ◌∷◌, [], List, length, None, false, IfErr};
ghost use Rattle.std.specs.List.{AllZip};
ghost use Rattle.desk_mailbox.specs.Ends.{taken_by, IsSameTaker};
ghost use Rattle.desk_threads.specs.Waiting.{HearsAll};
ghost use Rattle.desk_threads.specs.EndingItems.{may_carry_log, ends_turn};
ghost use Rattle.desk_threads.specs.Telling.{late_of, NotesItems};
ghost use Rattle.desk_threads.specs.Turns.{packets_of_steps, answers_of_steps, MetMore, TookMore, NotesMore};
ghost use Rattle.desk_threads.specs.Turns.{AddsToTurn, EndsInSave};
ghost use Rattle.desk_types.specs.declared.refusal.Refusal.TheVariants as refusals;

use crate::handing::{Out, hand_all};
use crate::waiting::WaitingSessions;
use desk_mailbox::{Item, Taker};
use desk_published::BoardName;
use desk_replica::{ItemStep, Replica, SavedReplica};
use desk_types::{Message, Refusal};
use std::alloc::Global;
use std::sync::Wait;

/// The nodes of the program have so many items share a save, at most.
pub const TURN_ITEMS: usize = 64;

/// Items that were taken and done, and are not saved yet.
pub(crate) struct Turn<B: BoardName, R: Replica> {
    pub(crate) taker: Taker<Item>,
    pub(crate) replica: R,
    pub(crate) waiting: WaitingSessions<B>,
    /// What they made, in order.
    pub(crate) steps: Vec<ItemStep>,
    /// A tick or a stop, which is the last of them. The sessions that wait hear of it after all others.
    pub(crate) late: Option<Item>,
    /// Whether it takes no more items.
    pub(crate) is_over: bool,
    ghost open: { is_over ≡ false → late ≡ None },
}

/// A tick or a stop once more.
fn late_item(item: &Item) -> Option<Item>
    ensures { result ≡ late_of item.now }
{
    match item {
        Item::Request { .. } => None,
        Item::Packet(_) => None,
        Item::Tick => Some(Item::Tick),
        Item::Stop => Some(Item::Stop),
    }
}

/// Whether it, or a packet that goes out for it, may carry a log.
fn may_carry_log(message: &Message) -> bool
    ensures { result ≡ may_carry_log message.now }
{
    match message {
        Message::Prepare { .. } => false,
        Message::PrepareOk { .. } => false,
        Message::Commit { .. } => false,
        Message::StartViewChange { .. } => true,
        Message::DoViewChange { .. } => true,
        Message::StartView { .. } => true,
        Message::GetState { .. } => true,
        Message::NewState { .. } => true,
    }
}

/// Whether it ends its turn: a tick and a stop do, and a packet that may carry a log, so that no turn holds many logs.
fn ends_turn(item: &Item) -> bool
    ensures value { result ≡ ends_turn item.now }
    ensures early { result ≡ false → late_of item.now ≡ None }
{
    match item {
        Item::Request { .. } => false,
        Item::Packet(sent) => may_carry_log(sent.packet.message()),
        Item::Tick => true,
        Item::Stop => true,
    }
}

/// Refuses an item for whose step there is no room: it is not done, and it is counted.
fn refuse_item<R: Replica>(replica: &mut R, item: Item)
    ensures refused { R.refuses replica.old replica.new }
    ensures follows { R.follows replica.old replica.new }
{
    drop(item);
    replica.count_refused();
}

/// Does an item, and puts what it made after the steps before. Where there is no room for that it is refused, as for
/// any want of memory, and is not done.
fn act_later<R: Replica>(alloc: Global, replica: &mut R, steps: &mut Vec<ItemStep>, item: Item)
    ensures did { MetMore R.Replica replica.old steps.old.items (item ∷ []) replica.new steps.new.items }
    ensures follows { R.follows replica.old replica.new }
{
    if steps.reserve(1).is_err() {
        refuse_item(replica, item);
        return;
    }
    match replica.do_item(alloc, item) {
        Ok(step) => steps.push_reserved(step),
        Err(_) => {}
    }
}

/// Hands the packets of steps out, in order, and tells the sessions that wait of the answers.
pub(crate) fn hand_steps<B: BoardName, O: Out>(
    out: &mut O,
    waiting: &mut WaitingSessions<B>,
    steps: Vec<ItemStep>,
)
    ensures gave { O.Out.takes out.old (packets_of_steps steps.items) out.new }
    ensures heard { AllZip (HearsAll (answers_of_steps steps.items)) waiting.old waiting.new }
{
    for ItemStep {
        epoch,
        purpose,
        packets,
        answers,
    } in steps {
        hand_all(out, epoch, purpose, packets);
        waiting.hear(&answers);
    }
}

impl<B: BoardName, R: Replica> Turn<B, R> {
    /// No items yet. It takes no memory.
    pub(crate) fn new(
        alloc: Global,
        taker: Taker<Item>,
        replica: R,
        waiting: WaitingSessions<B>,
    ) -> Turn<B, R>
        ensures taker { result.taker ≡ taker }
        ensures replica { result.replica ≡ replica }
        ensures waiting { result.waiting ≡ waiting }
        ensures steps { result.steps.items ≡ [] }
        ensures late { result.late ≡ None }
    {
        Turn {
            taker,
            replica,
            waiting,
            steps: Vec::new(alloc),
            late: None,
            is_over: false,
        }
    }

    /// Does an item that was taken.
    pub(crate) fn add(self, alloc: Global, item: Item) -> Turn<B, R>
        requires { self.late ≡ None }
        ensures taker { result.taker ≡ self.taker }
        ensures did { MetMore R.Replica self.replica self.steps.items (item ∷ []) result.replica result.steps.items }
        ensures noted { NotesItems (item ∷ []) self.waiting result.waiting result.late }
        ensures over { result.is_over ≡ ends_turn item }
        ensures follows { R.follows self.replica result.replica }
    {
        let Turn {
            taker,
            mut replica,
            mut waiting,
            mut steps,
            late: _,
            is_over: _,
        } = self;
        let late = late_item(&item);
        let is_over = ends_turn(&item);
        if late.is_none() {
            waiting.note(&item);
        }
        act_later(alloc, &mut replica, &mut steps, item);
        Turn {
            taker,
            replica,
            waiting,
            steps,
            late,
            is_over,
        }
    }

    // Takes an item that is there, where the turn takes more, and does it. False where none was taken.
    fn add_next<W: Wait>(self, rt: &W, alloc: Global) -> (Turn<B, R>, bool)
        ensures taker { IsSameTaker self.taker result.0.taker }
        ensures did { (sent : List _) × (length sent ≤ 1) × TookMore R.Replica (taken_by self.taker) self.replica
            self.steps.items sent (taken_by result.0.taker) result.0.replica result.0.steps.items
            × NotesMore sent self.waiting self.late result.0.waiting result.0.late
            × AddsToTurn sent self.is_over result.0.is_over }
        ensures follows { R.follows self.replica result.0.replica }
    {
        if self.is_over {
            return (self, false);
        }
        let Turn {
            taker,
            replica,
            waiting,
            steps,
            late,
            is_over,
        } = self;
        let (taker, sent) = taker.try_take(rt);
        let turn = Turn {
            taker,
            replica,
            waiting,
            steps,
            late,
            is_over,
        };
        match sent {
            None => (turn, false),
            Some(sent) => (turn.add(alloc, sent.item), true),
        }
    }

    /// Takes and does items as long as some are there and the turn takes more; with the one that it has they are so
    /// many at most.
    pub(crate) fn fill<W: Wait>(self, rt: &W, alloc: Global, most: usize) -> Turn<B, R>
        requires positive { 0 < most }
        ensures taker { IsSameTaker self.taker result.taker }
        ensures did { (sent : List _) × (length sent < most) × TookMore R.Replica (taken_by self.taker) self.replica
            self.steps.items sent (taken_by result.taker) result.replica result.steps.items
            × NotesMore sent self.waiting self.late result.waiting result.late
            × AddsToTurn sent self.is_over result.is_over }
        ensures follows { R.follows self.replica result.replica }
    {
        let mut turn = self;
        for added in 1..most {
            let (back, more) = turn.add_next(rt, alloc);
            turn = back;
            if !more {
                return turn;
            }
        }
        turn
    }
}

impl<B: BoardName, R: SavedReplica> Turn<B, R> {
    /// Saves what the items made, where the caller knows how much was committed when it was saved last.
    pub(crate) fn save(self, known: u64) -> (Turn<B, R>, Result<(), Refusal>)
        requires { (before : R) × R.SavedReplica.saving.is_saved before × R.Replica.follows before self.replica
            × (known ≡ length (R.SavedReplica.saving.cut before)) }
        ensures taker { result.0.taker ≡ self.taker }
        ensures waiting { result.0.waiting ≡ self.waiting }
        ensures steps { result.0.steps.items ≡ self.steps.items }
        ensures late { result.0.late ≡ self.late }
        ensures saved { EndsInSave R.SavedReplica.saving self.replica result.1 result.0.replica }
        ensures fault { IfErr result.1 (λ r. r ≡ refusals.StoreFault) }
    {
        let Turn {
            taker,
            mut replica,
            waiting,
            steps,
            late,
            is_over,
        } = self;
        let outcome = replica.save(known);
        let turn = Turn {
            taker,
            replica,
            waiting,
            steps,
            late,
            is_over,
        };
        (turn, outcome)
    }
}
