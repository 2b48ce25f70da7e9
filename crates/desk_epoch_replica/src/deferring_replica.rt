//! A replica over epochs that does requests again in the next epoch.

ghost use Rattle.std.specs.Prelude.{◌≡◌, ◌<◌, [], length, IfOk, OnErr};
ghost use Rattle.std.specs.Vec.{vec_capacity};
ghost use Rattle.desk_epoch_replica.specs.declared.replica_step.ReplicaStep.TheVariants as out;
ghost use Rattle.desk_epoch_replica.specs.Deferring.{ActsOn, DeferringFollows, DeferringRefuses, Sends, Ticks};
ghost use Rattle.desk_epoch_replica.specs.Deferring.{deferred_after, with_deferred};
ghost use Rattle.desk_epoch_replica.specs.Outgoing.{step_answers};
ghost use Rattle.desk_replica.specs.EpochPackets.{packets_of_step};

use crate::epoch_replica::EpochReplica;
use crate::item::EpochItem;
use crate::limits::DEFERRED_REQUESTS;
use crate::outgoing::{answer_or_deferred, only_answer, only_packets, own_step, split_own};
use crate::replica_step::{EpochAnswer, ReplicaStep};
use desk_epoch_stores::EpochStores;
use desk_node::Step;
use desk_replica::ItemStep;
use desk_types::{Entry, Packet, Purpose, WantOfMemory};
use std::alloc::Global;

/// A replica over epochs, and the requests that came to it after the end of its epoch's log, the first first. Each is
/// done again at a tick of the next epoch.
#[derive(Drop)]
pub struct DeferringReplica<T: EpochStores> {
    pub(crate) replica: EpochReplica<T>,
    pub(crate) deferred: Vec<Entry>,
}

/// Room for one packet.
fn room_for_one(alloc: Global) -> Result<Vec<(u8, Packet)>, WantOfMemory>
    ensures { IfOk result (λ room. (room.items ≡ []) × (0 < vec_capacity room)) }
{
    let mut room = Vec::new(alloc);
    room.reserve(1)?;
    Ok(room)
}

impl<T: EpochStores> DeferringReplica<T> {
    /// A replica that holds no requests. It takes no memory.
    pub fn new(alloc: Global, replica: EpochReplica<T>) -> DeferringReplica<T>
        ensures replica { result.replica ≡ replica }
        ensures deferred { result.deferred.items ≡ [] }
    {
        DeferringReplica {
            replica,
            deferred: Vec::new(alloc),
        }
    }

    /// What does the items.
    pub fn replica(&self) -> &EpochReplica<T>
        ensures { result.now ≡ self.now.replica }
    {
        &self.replica
    }

    /// What does the items, without the requests that are held.
    pub fn into_replica(self) -> EpochReplica<T>
        ensures { result ≡ self.replica }
    {
        let DeferringReplica {
            replica,
            deferred: _,
        } = self;
        replica
    }

    /// How many requests are held.
    pub fn deferred(&self) -> usize
        ensures { result ≡ length self.now.deferred.items }
    {
        self.deferred.len()
    }

    /// Makes room for a request more, and for a packet.
    fn make_room(&mut self, alloc: Global) -> Result<Vec<(u8, Packet)>, WantOfMemory>
        ensures same { (self.new.replica ≡ self.old.replica) × (self.new.deferred.items ≡ self.old.deferred.items) }
        ensures room { IfOk result (λ room. (room.items ≡ []) × (0 < vec_capacity room)) }
        ensures deferred { IfOk result (λ _. length self.new.deferred.items < vec_capacity self.new.deferred) }
    {
        self.deferred.reserve(1)?;
        room_for_one(alloc)
    }

    /// Holds a request, where there are not too many.
    fn defer(&mut self, entry: Entry)
        requires { length self.old.deferred.items < vec_capacity self.old.deferred }
        ensures deferred { self.new.deferred.items ≡ with_deferred self.old.deferred.items entry }
        ensures same { self.new.replica ≡ self.old.replica }
    {
        if self.deferred.len() < DEFERRED_REQUESTS {
            self.deferred.push_reserved(entry);
        } else {
            drop(entry);
        }
    }

    /// An answer; a request that is deferred is held.
    fn answer(&mut self, alloc: Global, none: Vec<(u8, Packet)>, answer: EpochAnswer) -> ItemStep
        requires none { none.items ≡ [] }
        requires deferred { length self.old.deferred.items < vec_capacity self.old.deferred }
        ensures packets { packets_of_step result ≡ [] }
        ensures answers { result.answers ≡ step_answers (out.Answer answer) }
        ensures deferred { self.new.deferred.items ≡ deferred_after self.old.deferred.items (out.Answer answer) }
        ensures same { self.new.replica ≡ self.old.replica }
    {
        match answer_or_deferred(answer) {
            Ok(own) => only_answer(alloc, none, Some(own)),
            Err(entry) => {
                self.defer(entry);
                only_answer(alloc, none, None)
            }
        }
    }

    /// Tells a node the log of a past epoch after a place, where its store has it.
    fn tell(
        &mut self,
        alloc: Global,
        room: Vec<(u8, Packet)>,
        to: u8,
        epoch: u64,
        base: u64,
    ) -> ItemStep
        requires room { (room.items ≡ []) × (0 < vec_capacity room) }
        ensures sent { Sends T.may_hold self.old.replica (out.Tell to epoch base) (packets_of_step result)
            self.new.replica }
        ensures answers { result.answers ≡ [] }
        ensures deferred { self.new.deferred ≡ self.old.deferred }
    {
        let mut packets = room;
        if let Some(packet) = self.replica.past_packet(epoch, base) {
            packets.push_reserved((to, packet));
        }
        only_packets(alloc, epoch, Purpose::Tell, packets)
    }

    /// What goes out for a step.
    fn send(&mut self, alloc: Global, room: Vec<(u8, Packet)>, step: ReplicaStep) -> ItemStep
        requires room { (room.items ≡ []) × (0 < vec_capacity room) }
        requires deferred { length self.old.deferred.items < vec_capacity self.old.deferred }
        ensures sent { Sends T.may_hold self.old.replica step (packets_of_step result) self.new.replica }
        ensures answers { result.answers ≡ step_answers step }
        ensures deferred { self.new.deferred.items ≡ deferred_after self.old.deferred.items step }
    {
        let mut room = room;
        match step {
            ReplicaStep::Nothing | ReplicaStep::Replaced => only_answer(alloc, room, None),
            ReplicaStep::Own { epoch, base, step } => {
                drop(room);
                own_step(epoch, base, step, None)
            }
            ReplicaStep::Answer(answer) => self.answer(alloc, room, answer),
            ReplicaStep::Ask { epoch, to, packet } => {
                room.push_reserved((to, packet));
                only_packets(alloc, epoch, Purpose::Ask, room)
            }
            ReplicaStep::AskAll { epoch, packets } => {
                drop(room);
                only_packets(alloc, epoch, Purpose::Ask, packets)
            }
            ReplicaStep::Tell { to, epoch, base } => self.tell(alloc, room, to, epoch, base),
            ReplicaStep::Began { epoch, packets } => {
                drop(room);
                only_packets(alloc, epoch, Purpose::Step, packets)
            }
        }
    }

    /// Counts an item as refused, where there is no room for what comes of it.
    fn refuse(&mut self, item: EpochItem, refused: WantOfMemory) -> WantOfMemory
        ensures refused { DeferringRefuses self.old self.new }
    {
        drop(item);
        self.replica.count_refused();
        refused
    }

    /// Does a request or a packet, and gives what goes out. Where memory is refused the item is counted.
    pub(crate) fn act(&mut self, alloc: Global, item: EpochItem) -> Result<ItemStep, WantOfMemory>
        ensures did { IfOk result (λ step. ActsOn T.may_hold self.old item (packets_of_step step) step.answers
            self.new) }
        ensures err { OnErr result (DeferringRefuses self.old self.new) }
        ensures follows { DeferringFollows T.may_hold self.old self.new }
    {
        match self.make_room(alloc) {
            Ok(room) => {
                let step = self.replica.act(item)?;
                Ok(self.send(alloc, room, step))
            }
            Err(refused) => Err(self.refuse(item, refused)),
        }
    }

    /// Does a tick, and a request again that is held, and gives what goes out. Where memory is refused for the tick it
    /// is counted.
    pub(crate) fn tick(&mut self, alloc: Global) -> Result<ItemStep, WantOfMemory>
        ensures did { IfOk result (λ step. Ticks T.may_hold self.old (packets_of_step step) step.answers self.new) }
        ensures err { OnErr result (DeferringRefuses self.old self.new) }
        ensures follows { DeferringFollows T.may_hold self.old self.new }
    {
        let room = match self.make_room(alloc) {
            Ok(room) => room,
            Err(refused) => return Err(self.refuse(EpochItem::Tick, refused)),
        };
        match split_own(self.replica.act(EpochItem::Tick)?) {
            Ok((epoch, base, mut step)) => {
                drop(room);
                let own = self.retry(&mut step);
                Ok(own_step(epoch, base, step, own))
            }
            Err(other) => Ok(self.send(alloc, room, other)),
        }
    }
}
