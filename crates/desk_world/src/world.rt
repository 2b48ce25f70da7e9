//! A group of nodes, and what happens in it.

ghost use Rattle.std.specs.Prelude.{◌≡◌, ◌<◌, ℕ, List, ◌++◌, length, map, IfOk};
ghost use Rattle.std.specs.Option.{option_map};
ghost use Rattle.desk_types.specs.Group.{IsGroup};
ghost use Rattle.desk_world.specs.Group.{ActsAt, Follows, FollowsAll, no_output, output_of, with_step};
ghost use Rattle.desk_world.specs.Group.{first_nodes, first_group};
ghost use Rattle.desk_world.specs.World.{packet_at};
ghost use Rattle.desk_world.specs.declared.world_event.WorldEvent.TheVariants as events;

use crate::event_output::EventOutput;
use crate::world_event::WorldEvent;
use desk_log::Saved;
use desk_node::{Event, Node, Step};
use desk_types::{Domain, Outcome, Packet, WantOfMemory};
use std::alloc::Global;
use std::marker::Model;

/// The nodes, and the packets that were ever sent.
pub(crate) struct GroupRun {
    nodes: Vec<Node>,
    packets: Vec<(u8, Packet)>,
    alloc: Global,
}

// Written out, so that callers need not prove each part's drop.
impl Drop for GroupRun {
    fn drop(self) {
        let GroupRun {
            nodes: _,
            packets: _,
            alloc: _,
        } = self;
    }
}

impl Model for GroupRun {
    ghost use Rattle.desk_world.specs.Group.{Group};

    ghost Value = { Group };

    ghost view = { λ w. record { nodes = w.nodes.items; packets = w.packets.items } };
}

/// Puts copies of packets last.
fn push_copies(packets: &mut Vec<(u8, Packet)>, sent: &[(u8, Packet)]) -> Result<(), WantOfMemory>
    ensures { IfOk result (λ _. packets.new.items ≡ packets.old.items ++ sent.now) }
{
    for one in sent {
        let copy = one.1.copy()?;
        packets.push((one.0, copy))?;
    }
    Ok(())
}

/// The packet of a number, counted from 1.
fn packet_of(packets: &[(u8, Packet)], number: u64) -> Option<&(u8, Packet)>
    ensures { option_map (λ sent. sent.now) result ≡ packet_at packets.now number }
{
    let index = number.checked_sub(1)?;
    packets.get(index as usize)
}

/// The answers, each with its node.
fn of_node(
    alloc: Global,
    node: u8,
    answers: Vec<Outcome>,
) -> Result<Vec<(u8, Outcome)>, WantOfMemory>
    ensures { IfOk result (λ pairs. pairs.items ≡ map (λ a. (node, a)) answers.items) }
{
    let mut pairs = Vec::new(alloc);
    for answer in answers {
        pairs.push((node, answer))?;
    }
    Ok(pairs)
}

/// What a step of a node gave.
fn output_of(alloc: Global, node: u8, step: Step) -> Result<EventOutput, WantOfMemory>
    ensures { IfOk result (λ output. output ≡ output_of node step.packets.items step.answers.items) }
{
    let Step { packets, answers } = step;
    let answers = of_node(alloc, node, answers)?;
    Ok(EventOutput { packets, answers })
}

/// Nodes at first, `n` of them.
fn first_nodes(alloc: Global, n: u8, domain: &Domain) -> Result<Vec<Node>, WantOfMemory>
    requires group { IsGroup n }
    ensures { IfOk result (λ nodes. nodes.items ≡ first_nodes domain.now n n) }
{
    let mut nodes = Vec::new(alloc);
    for id in 0..n {
        let node = Node::from_saved(alloc, id, n, domain.copy()?, Saved::initial(alloc));
        nodes.push(node)?;
    }
    Ok(nodes)
}

impl GroupRun {
    /// `n` nodes at first, and no packet.
    pub fn first(alloc: Global, n: u8, domain: &Domain) -> Result<GroupRun, WantOfMemory>
        requires group { IsGroup n }
        ensures { IfOk result (λ world. world ≡ first_group domain.now n) }
    {
        let nodes = first_nodes(alloc, n, domain)?;
        Ok(GroupRun {
            nodes,
            packets: Vec::new(alloc),
            alloc,
        })
    }

    /// What each node saves.
    pub fn saved_states(&self) -> Result<Vec<Saved>, WantOfMemory>
        ensures { IfOk result (λ saved. saved.items ≡ map (λ v. v.saved) self.now.nodes) }
    {
        let mut saved = Vec::new(self.alloc);
        for node in &self.nodes {
            saved.push(node.saved().copy()?)?;
        }
        Ok(saved)
    }

    /// Events happen, one after the other.
    pub fn happen_all(&mut self, events: &[WorldEvent]) -> Result<Vec<EventOutput>, WantOfMemory>
        ensures { IfOk result (λ outputs. (domain : List ℕ) (n : ℕ) →
            FollowsAll domain n self.old events.now self.new outputs.items) }
    {
        let mut outputs = Vec::new(self.alloc);
        for event in events {
            let output = self.happen(event)?;
            outputs.push(output)?;
        }
        Ok(outputs)
    }

    fn happen(&mut self, event: &WorldEvent) -> Result<EventOutput, WantOfMemory>
        ensures { IfOk result (λ output. (domain : List ℕ) (n : ℕ) →
            Follows domain n self.old event.now self.new output) }
    {
        match event {
            WorldEvent::Request(node, entry) => {
                let entry = entry.copy()?;
                self.act(*node, Event::Request(entry))
            }
            WorldEvent::Deliver(number) => self.deliver(*number),
            WorldEvent::Resend(node) => self.act(*node, Event::Resend),
            WorldEvent::Suspect(node) => self.act(*node, Event::Suspect),
            WorldEvent::Restart(node) => self.act(*node, Event::Restart),
        }
    }

    /// The packet of a number, counted from 1, comes to its receiver.
    fn deliver(&mut self, number: u64) -> Result<EventOutput, WantOfMemory>
        ensures { IfOk result (λ output. (domain : List ℕ) (n : ℕ) →
            Follows domain n self.old (events.Deliver number) self.new output) }
    {
        let Some(sent) = packet_of(&self.packets, number) else {
            return Ok(self.nothing());
        };
        let to = sent.0;
        let packet = sent.1.copy()?;
        self.act(to as u64, Event::Packet(packet))
    }

    /// An event comes to a node, where there is one.
    fn act(&mut self, node: u64, event: Event) -> Result<EventOutput, WantOfMemory>
        ensures { IfOk result (λ output. (domain : List ℕ) (n : ℕ) →
            ActsAt domain n self.old node event self.new output) }
    {
        if node >= self.nodes.len() as u64 {
            // Where the function's end drops the event, its proof takes longer.
            drop(event);
            return Ok(self.nothing());
        }
        self.step(node as usize, event)
    }

    /// An event comes to a node.
    fn step(&mut self, node: usize, event: Event) -> Result<EventOutput, WantOfMemory>
        requires there { node < length self.old.nodes }
        ensures { IfOk result (λ output. (domain : List ℕ) (n : ℕ) →
            ActsAt domain n self.old node event self.new output) }
    {
        let member = &mut self.nodes[node];
        let id = member.id();
        let step = member.step(event)?;
        self.keep(id, step)
    }

    /// Keeps the packets of a step of a node, and hands the step's output back.
    fn keep(&mut self, node: u8, step: Step) -> Result<EventOutput, WantOfMemory>
        ensures { IfOk result (λ output.
            (self.new, output) ≡ with_step self.old node step.packets.items step.answers.items) }
    {
        if let Err(want) = push_copies(&mut self.packets, &step.packets) {
            // Where the function's end drops the step, its proof takes longer.
            drop(step);
            return Err(want);
        }
        output_of(self.alloc, node, step)
    }

    /// Nothing was sent or answered.
    fn nothing(&self) -> EventOutput
        ensures { result ≡ no_output }
    {
        EventOutput {
            packets: Vec::new(self.alloc),
            answers: Vec::new(self.alloc),
        }
    }
}
