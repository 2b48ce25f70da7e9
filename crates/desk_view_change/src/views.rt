//! Which views are over for a node.

ghost use Rattle.std.specs.Prelude.{◌≡◌, ◌<◌, ◌≤◌, false};
ghost use Rattle.desk_view_change.specs.Rules.{is_over};

use desk_log::Saved;

/// Whether the node has left the view, or is normal in it.
pub(crate) fn is_over(saved: &Saved, view: u64) -> bool
    ensures value { result ≡ is_over saved.now view }
    ensures least { result ≡ false → saved.now.view ≤ view }
    ensures change { result ≡ false → saved.now.normal < view }
{
    let is_normal = saved.is_normal();
    view < saved.view() || view == saved.view() && is_normal
}
