//! Runs of a group of nodes: requests, deliveries in any order, losses, repeats, timer events and restarts.

ghost use Rattle.std.specs.Prelude.{◌≡◌, IfOk};
ghost use Rattle.desk_types.specs.Group.{IsGroup};
ghost use Rattle.desk_world.specs.Group.{first_group};
ghost use Rattle.desk_world.specs.Report.{IsReport, NodesAgree};

use crate::event_output::EventOutput;
use crate::world::GroupRun;
use crate::world_event::WorldEvent;
use desk_log::Saved;
use desk_types::{Domain, WantOfMemory};
use std::alloc::Global;

/// What a run gave: what each event gave, and what each node saves at the end.
#[derive(Drop)]
pub struct WorldReport {
    pub events: Vec<EventOutput>,
    pub nodes: Vec<Saved>,
}

/// What events give in a group of `n` new nodes.
fn report_of(
    world: &mut GroupRun,
    n: u8,
    domain: &Domain,
    events: &[WorldEvent],
) -> Result<WorldReport, WantOfMemory>
    requires first { world.old ≡ first_group domain.now n }
    ensures { IfOk result (λ report. IsReport domain.now n events.now report.events.items report.nodes.items) }
{
    let outputs = world.happen_all(events)?;
    let nodes = world.saved_states()?;
    Ok(WorldReport {
        events: outputs,
        nodes,
    })
}

/// Runs `n` nodes of a desk, all of them new, through events, and reports what each event gave and what each node saves
/// at the end.
pub fn run(
    alloc: Global,
    n: u8,
    domain: Domain,
    events: &[WorldEvent],
) -> Result<WorldReport, WantOfMemory>
    requires group { IsGroup n }
    ensures report { IfOk result (λ report.
        IsReport domain n events.now report.events.items report.nodes.items) }
    // What any two nodes have committed is one a prefix of the other.
    ensures agree { IfOk result (λ report. NodesAgree report.nodes.items) }
{
    let mut world = GroupRun::first(alloc, n, &domain)?;
    report_of(&mut world, n, &domain, events)
}
