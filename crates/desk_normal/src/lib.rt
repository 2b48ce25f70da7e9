//! What a node does while its view doesn't change: requests, Prepare, PrepareOk, Commit (VR Revisited, section 4.1).
#![tactic(auto)]

ghost use Rattle.desk_normal.specs.Laws.{RequestKeeps, PrepareKeeps, PrepareOkKeeps, CommitKeeps, ResendKeeps};
ghost use Rattle.desk_normal.specs.PlaceLaws.{AcknowledgedIsGreatest};

mod acknowledgements;
mod commit;
mod commit_plan;
mod packets;
mod prepare;
mod prepare_ok;
mod request;
mod resend;
mod views;
mod votes;

pub use acknowledgements::Acknowledgements;
pub use commit::on_commit;
pub use commit_plan::CommitPlan;
pub use prepare::on_prepare;
pub use prepare_ok::{ignores_acknowledgement, on_prepare_ok};
pub use request::on_request;
pub use resend::on_resend;

/// What the rules never undo, whatever comes, packets of lying nodes included: view, last normal view and commit don't
/// fall, and committed entries stay. And the place up to which a primary commits is the greatest that enough nodes
/// acknowledged. It does nothing: its clauses are the laws.
pub fn laws()
    ensures request { RequestKeeps }
    ensures prepare { PrepareKeeps }
    ensures prepare_ok { PrepareOkKeeps }
    ensures commit { CommitKeeps }
    ensures resend { ResendKeeps }
    ensures acknowledged { AcknowledgedIsGreatest }
{}
