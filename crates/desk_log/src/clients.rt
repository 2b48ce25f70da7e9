//! The clients of a log, each with its latest entry.

ghost use Rattle.std.specs.Prelude.{◌≡◌, ◌==◌, ◌||◌, ℕ, not, IfOk, OnOk, IsSome};
ghost use Rattle.std.specs.BTreeSet.{contains};
ghost use Rattle.std.specs.Ordering.{nat_cmp};
ghost use Rattle.desk_log.specs.Entries.{latest};
ghost use Rattle.desk_log.specs.Clients.{client_row, clients};

use crate::log::Log;
use desk_types::{ClientId, RequestNumber, WantOfMemory};
use std::alloc::Global;
use std::collections::BTreeSet;

/// A client of a log, with the number and the place of its latest entry.
#[derive(Clone, Copy)]
pub struct ClientRow {
    pub client: ClientId,
    pub number: RequestNumber,
    pub place: u64,
}

/// Puts a client among those that were met, and tells whether it is new there.
fn meet(met: &mut BTreeSet<u64>, client: ClientId) -> Result<bool, WantOfMemory>
    ensures new { IfOk result (λ new. new ≡ not (contains nat_cmp met.old client)) }
    ensures met { OnOk result ((c : ℕ) → contains nat_cmp met.new c ≡ (client == c || contains nat_cmp met.old c)) }
{
    let new = met.insert(client.get())?;
    Ok(new)
}

/// The row of a client that has an entry.
fn client_row(log: &Log, client: ClientId) -> ClientRow
    requires { IsSome (latest client log.now) }
    ensures { result ≡ client_row log.now client }
{
    let place = log.latest(client).unwrap();
    ClientRow {
        client,
        number: log.at(place).number,
        place,
    }
}

/// The rows of a log's clients, in the order of their first entries.
#[tactic(auto, unfolding(crate::specs::Clients::clients))]
pub(crate) fn client_rows(alloc: Global, log: &Log) -> Result<Vec<ClientRow>, WantOfMemory>
    ensures { IfOk result (λ rows. rows.items ≡ clients log.now) }
{
    let mut met = BTreeSet::new(alloc);
    let mut rows = Vec::new(alloc);
    for entry in log.entries() {
        if meet(&mut met, entry.client)? {
            rows.push(client_row(log, entry.client))?;
        }
    }
    Ok(rows)
}
