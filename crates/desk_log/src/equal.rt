//! When two entries are equal.

ghost use Rattle.std.specs.Prelude.{◌≡◌, ◌↔◌, IsTrue};

use desk_types::Entry;

/// Whether client, number and command are the same.
pub(crate) fn are_equal(first: &Entry, second: &Entry) -> bool
    ensures { IsTrue result ↔ (first.now ≡ second.now) }
{
    first.client == second.client
        && first.number == second.number
        && first.command.is_equal(&second.command)
}
