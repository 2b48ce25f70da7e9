//! The latest reply of each client.

ghost use Rattle.std.specs.Prelude.{◌≡◌, ◌<◌, ℕ, map, nat_eq};
ghost use Rattle.std.specs.List.{find};
ghost use Rattle.std.specs.Map.{lookup};
ghost use Rattle.std.specs.Option.{option_copied, option_map};
ghost use Rattle.indexmap.specs.IndexMap.{spare, insert_entry};
ghost use Rattle.desk_types.specs.declared.reply.Reply.{Reply};
ghost use Rattle.desk_board.specs.Execute.{has_client, with_row, row_for};
ghost use Rattle.desk_board.specs.Tables.{row_in, last_in};

use desk_types::{ClientId, HashSeed, Reply, RequestNumber};
use indexmap::IndexMap;

/// A client's latest request, with its place in the log and its reply.
#[derive(Drop)]
pub struct Row {
    pub client: ClientId,
    pub number: RequestNumber,
    pub place: u64,
    pub reply: Reply,
}

/// What a client's row holds beside the client.
pub(crate) struct LatestRow {
    pub(crate) number: RequestNumber,
    pub(crate) place: u64,
    pub(crate) reply: Reply,
}

// Written out, so that callers need not prove each part's drop.
impl Drop for LatestRow {
    fn drop(self) {
        let LatestRow {
            number: _,
            place: _,
            reply: _,
        } = self;
    }
}

/// A client's numbered request, and its place in the log.
#[derive(Clone, Copy, Debug, PartialEq, Eq)]
pub struct PlacedRequest {
    pub client: ClientId,
    pub number: RequestNumber,
    pub place: u64,
}

impl PlacedRequest {
    /// The client's row with a reply to the request.
    pub(crate) fn row(self, reply: Reply) -> Row
        ensures { result ≡ row_for self reply }
    {
        Row {
            client: self.client,
            number: self.number,
            place: self.place,
            reply,
        }
    }
}

/// What the table has under a client's number.
fn look_up(rows: &IndexMap<u64, LatestRow, HashSeed>, client: ClientId) -> Option<&LatestRow>
    ensures { option_copied result ≡ lookup (nat_eq client) rows.now.entries }
{
    rows.get(&client.get())
}

/// What the row of a client holds.
pub(crate) fn row_of(
    rows: &IndexMap<u64, LatestRow, HashSeed>,
    client: ClientId,
) -> Option<&LatestRow>
    ensures { option_map {U = ℕ × ℕ × Reply} (λ row. last_in row.now) result
        ≡ option_map {U = ℕ × ℕ × Reply} (λ row. (row.number, row.place, row.reply))
        (find (has_client client) (map row_in rows.now.entries)) }
{
    look_up(rows, client)
}

/// Puts what a client's row holds under the client's number. There is room for it.
fn insert_within(rows: &mut IndexMap<u64, LatestRow, HashSeed>, client: ClientId, row: LatestRow)
    requires { 0 < spare rows.old }
    ensures { rows.new.entries ≡ insert_entry nat_eq rows.old.entries client row }
{
    let put = rows.insert(client.get(), row);
    put.unwrap();
}

/// Puts a row in the place of its client's row, or last.
pub(crate) fn set_row(rows: &mut IndexMap<u64, LatestRow, HashSeed>, row: Row)
    requires { 0 < spare rows.old }
    ensures { map row_in rows.new.entries ≡ with_row row (map row_in rows.old.entries) }
{
    let Row {
        client,
        number,
        place,
        reply,
    } = row;
    let latest = LatestRow {
        number,
        place,
        reply,
    };
    insert_within(rows, client, latest);
}
