//! What a node does while its view changes: Suspect, StartViewChange, DoViewChange, StartView (VR Revisited, section
//! 4.2).
#![tactic(auto)]

ghost use Rattle.desk_view_change.specs.Laws.{StartViewChangeKeeps, DoViewChangeKeeps, StartViewKeeps, SuspectKeeps};
ghost use Rattle.desk_view_change.specs.Laws.{ViewChangeResendKeeps};
ghost use Rattle.desk_view_change.specs.ChoiceLaws.{BestIsBest, BestIsNone, GreatestBounds, GreatestIsReached};

mod askers;
mod choice;
mod do_view_change;
mod heard;
mod offer;
mod offers;
mod own_offer;
mod packets;
mod plan;
mod resend;
mod rows;
mod start_view;
mod start_view_change;
mod suspect;
mod views;

pub use do_view_change::{ignores_offer, on_do_view_change};
pub use heard::ViewChangeRows;
pub use offer::Offer;
pub use plan::{Start, ViewChangePlan};
pub use resend::on_resend;
pub use start_view::on_start_view;
pub use start_view_change::{ignores_view_request, on_start_view_change};
pub use suspect::on_suspect;

/// What the rules never undo, whatever comes, packets of lying nodes included: view, last normal view and commit don't
/// fall, and committed entries stay. And what the choice of a log is, said of all offers at once: no offer is better
/// than the chosen one, and no lower node's is as good; no commit is greater than the greatest, and it is one of them.
/// It does nothing: its clauses are the laws.
pub fn laws()
    ensures start_view_change { StartViewChangeKeeps }
    ensures do_view_change { DoViewChangeKeeps }
    ensures start_view { StartViewKeeps }
    ensures suspect { SuspectKeeps }
    ensures resend { ViewChangeResendKeeps }
    ensures best { BestIsBest }
    ensures no_best { BestIsNone }
    ensures greatest_bounds { GreatestBounds }
    ensures greatest_reached { GreatestIsReached }
{}
