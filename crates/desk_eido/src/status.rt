//! The words of a unit's status.

ghost use Rattle.std.specs.Prelude.{◌≡◌};
ghost use Rattle.desk_eido.specs.Members.{status_of};
ghost use Rattle.desk_eido.specs.ReplyLine.{status_text};

use desk_types::Status;

/// The word that tells a unit's status.
pub(crate) fn status_text(status: Status) -> &'static str
    ensures { result.now ≡ status_text status }
{
    match status {
        Status::Available => "available",
        Status::Dispatched => "dispatched",
        Status::EnRoute => "en_route",
        Status::OnScene => "on_scene",
        Status::Transporting => "transporting",
        Status::AtFacility => "at_facility",
        Status::OutOfService => "out_of_service",
    }
}

/// The status of a word.
#[tactic(auto, unfolding(crate::specs::Members::status_of))]
pub(crate) fn status_of(word: &str) -> Option<Status>
    ensures { result ≡ status_of word.now }
{
    match word {
        "available" => Some(Status::Available),
        "dispatched" => Some(Status::Dispatched),
        "en_route" => Some(Status::EnRoute),
        "on_scene" => Some(Status::OnScene),
        "transporting" => Some(Status::Transporting),
        "at_facility" => Some(Status::AtFacility),
        "out_of_service" => Some(Status::OutOfService),
        _ => None,
    }
}
