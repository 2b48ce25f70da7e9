//! How a node, and what it is sent, stand to the views.

ghost use Rattle.std.specs.Prelude.{◌≡◌, ◌<◌};
ghost use Rattle.desk_normal.specs.Rules.{is_stray, is_ahead};

use desk_log::{GroupNode, Saved};

/// Whether a packet is of an earlier view, or does not come from its view's primary as another node.
pub(crate) fn is_stray(member: GroupNode, saved: &Saved, from: u8, view: u64) -> bool
    requires { member.id < member.n }
    ensures { result ≡ is_stray member.id member.n saved.now from view }
{
    view < saved.view() || !member.is_from_primary(from, view)
}

/// Whether the node has not reached the view, or is not normal in it yet.
pub(crate) fn is_ahead(saved: &Saved, view: u64) -> bool
    ensures { result ≡ is_ahead saved.now view }
{
    saved.view() < view || !saved.is_normal()
}
