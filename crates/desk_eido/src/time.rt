//! Instants in documents.

ghost use Rattle.std.specs.Prelude.{◌≡◌};
ghost use Rattle.desk_eido.specs.Members.{seconds_of};

use jiff::Timestamp;

/// The whole seconds since 1970 of the instant that a text names, rounded down, also before 1970.
#[tactic(auto, unfolding(crate::specs::Members::seconds_of))]
pub(crate) fn seconds_of(text: &str) -> Option<i64>
    ensures { result ≡ seconds_of text.now }
{
    match text.parse::<Timestamp>() {
        Ok(instant) => Some(instant.to_plain().floor_second()),
        Err(_) => None,
    }
}
