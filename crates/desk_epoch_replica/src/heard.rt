//! The tokens that nodes say where they ask.

ghost use Rattle.std.specs.Prelude.{◌≡◌, map, replicate, IfOk};
ghost use Rattle.desk_epoch_replica.specs.Heard.{asker, asker_in, tokens_heard_with, hears, is_heard, one_tick_older};
ghost use Rattle.desk_epoch_replica.specs.Heard.{said_now, unheard};

use crate::limits::HEARD_TICKS;
use crate::ticking::one_more;
use desk_types::{EpochPacket, Message, Purpose, WantOfMemory};
use std::alloc::Global;

/// The token that a node said last where it asked, and the ticks since, up to `HEARD_TICKS`.
#[derive(Clone, Copy)]
pub struct HeardToken {
    pub token: u64,
    pub ticks: u64,
}

/// What is known of a node that has not asked.
fn unheard() -> HeardToken
    ensures { result ≡ unheard }
{
    HeardToken {
        token: 0,
        ticks: HEARD_TICKS,
    }
}

/// What is known of a node that says a token now.
fn said_now(token: u64) -> HeardToken
    ensures { result ≡ said_now token }
{
    HeardToken { token, ticks: 0 }
}

/// A row for each of `n` nodes, none of which has asked.
pub(crate) fn heard_at_start(alloc: Global, n: u8) -> Result<Vec<HeardToken>, WantOfMemory>
    ensures { IfOk result (λ rows. rows.items ≡ replicate n unheard) }
{
    let mut rows = Vec::new(alloc);
    for _node in 0..n {
        rows.push(unheard())?;
    }
    Ok(rows)
}

fn age_row(row: &mut HeardToken)
    ensures { row.new ≡ one_tick_older row.old }
{
    row.ticks = one_more(HEARD_TICKS, row.ticks);
}

/// One tick more for each node.
pub(crate) fn age_rows(rows: &mut Vec<HeardToken>)
    ensures { rows.new.items ≡ map one_tick_older rows.old.items }
{
    for row in rows.iter_mut() {
        age_row(row);
    }
}

/// The node that says a message, and the token that stands there in the place of a view, where a node can ask by it.
fn asker_in(message: &Message) -> Option<(u8, u64)>
    ensures { result ≡ asker_in message.now }
{
    match message {
        Message::GetState { from, view, .. } => Some((*from, *view)),
        _ => None,
    }
}

/// The node that asks and the token that it says, where a packet is an ask.
pub(crate) fn asker(packet: &EpochPacket) -> Option<(u8, u64)>
    ensures { result ≡ asker packet.now.purpose packet.now.packet }
{
    match packet.purpose {
        Purpose::Ask => asker_in(packet.packet.message()),
        Purpose::Step | Purpose::Tell => None,
    }
}

/// Notes the token that a node of the group says.
pub(crate) fn note_asker(rows: &mut Vec<HeardToken>, asked: Option<(u8, u64)>)
    ensures { rows.new.items ≡ tokens_heard_with asked rows.old.items }
{
    if let Some((from, token)) = asked {
        if (from as usize) < rows.len() {
            rows[from as usize] = said_now(token);
        }
    }
}

/// Whether a row is of this token, said within the last `HEARD_TICKS` ticks.
fn is_heard(row: &HeardToken, token: u64) -> bool
    ensures { result ≡ is_heard row.now token }
{
    row.token == token && row.ticks < HEARD_TICKS
}

/// Whether a node said this token within the last `HEARD_TICKS` ticks.
pub(crate) fn hears(rows: &Vec<HeardToken>, node: u8, token: u64) -> bool
    ensures { result ≡ hears rows.now.items node token }
{
    match rows.get(node as usize) {
        Some(row) => is_heard(row, token),
        None => false,
    }
}
