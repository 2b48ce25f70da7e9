//! The columns of the tables of the entries and of the clients.

ghost use Rattle.std.specs.Prelude.{◌≡◌, ◌↔◌, IsTrue};
ghost use Rattle.desk_naming.specs.Tables.{entry_table, client_table};

use desk_naming::is_column;
use sqlite_schema::schema::{Column, Kind};

/// Whether they are the columns of the table of entries.
pub(super) fn are_entry_columns(columns: &[Column]) -> bool
    ensures { IsTrue result ↔ (columns.now ≡ (entry_table 0).columns) }
{
    let [place, client, number, body] = columns else {
        return false;
    };
    is_column(place, b"place", Kind::Integer, false)
        && is_column(client, b"client", Kind::Integer, true)
        && is_column(number, b"number", Kind::Integer, true)
        && is_column(body, b"body", Kind::Any, true)
}

/// Whether they are the columns of the table of clients.
pub(super) fn are_client_columns(columns: &[Column]) -> bool
    ensures { IsTrue result ↔ (columns.now ≡ (client_table 0).columns) }
{
    let [client, number, place] = columns else {
        return false;
    };
    is_column(client, b"client", Kind::Integer, false)
        && is_column(number, b"number", Kind::Integer, true)
        && is_column(place, b"place", Kind::Integer, true)
}
