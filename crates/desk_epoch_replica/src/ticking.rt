//! Ticks, and what they count.

ghost use Rattle.std.specs.Prelude.{◌≡◌, map, replicate, IfOk};
ghost use Rattle.desk_epoch_replica.specs.declared.limits.TheConstants.{TELL_TICKS};
ghost use Rattle.desk_epoch_replica.specs.Items.{event_of_tick};
ghost use Rattle.desk_epoch_replica.specs.Ticks.{one_more_up_to};
ghost use Rattle.desk_epoch_replica.specs.Steps.{may_tell};

use crate::limits::TELL_TICKS;
use desk_epoch_node::EpochEvent;
use desk_types::WantOfMemory;
use std::alloc::Global;

/// One tick more, up to a greatest number.
pub(crate) fn one_more(most: u64, ticks: u64) -> u64
    ensures { result ≡ one_more_up_to most ticks }
{
    if ticks < most { ticks + 1 } else { ticks }
}

/// A row for each of `n` nodes: each may be told a log at once.
pub(crate) fn rows_at_start(alloc: Global, n: u8) -> Result<Vec<u64>, WantOfMemory>
    ensures { IfOk result (λ rows. rows.items ≡ replicate n TELL_TICKS) }
{
    let mut rows = Vec::new(alloc);
    for _node in 0..n {
        rows.push(TELL_TICKS)?;
    }
    Ok(rows)
}

fn tick_row(row: &mut u64)
    ensures { row.new ≡ one_more_up_to TELL_TICKS row.old }
{
    *row = one_more(TELL_TICKS, *row);
}

/// One tick more for each node.
pub(crate) fn tick_rows(rows: &mut Vec<u64>)
    ensures { rows.new.items ≡ map (one_more_up_to TELL_TICKS) rows.old.items }
{
    for row in rows.iter_mut() {
        tick_row(row);
    }
}

/// Whether a node may be told a log.
pub(crate) fn may_tell(rows: &Vec<u64>, to: u8) -> bool
    ensures { result ≡ may_tell rows.now.items to }
{
    (to as usize) < rows.len() && rows[to as usize] == TELL_TICKS
}

/// At a tick a node that does not suspect its primary sends again what is not acknowledged.
pub(crate) fn tick_event(suspects: bool) -> EpochEvent
    ensures { result ≡ event_of_tick suspects }
{
    if suspects {
        EpochEvent::Suspect
    } else {
        EpochEvent::Resend
    }
}
