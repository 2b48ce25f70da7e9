//! The ports of a group's nodes.

ghost use Rattle.std.specs.Prelude.{◌≡◌, ◌+◌, ◌<◌, ◌^◌};
ghost use Rattle.desk_types.specs.declared.limits.TheConstants.{SESSION_PORTS};

use crate::limits::SESSION_PORTS;

/// The port at which a node takes the packets of the others, in a group with this first port.
pub fn peer_port(first: u16, id: u8) -> u16
    ensures { first + id < 2 ^ 16 → result ≡ first + id }
{
    first.saturating_add(id as u16)
}

/// The port at which sessions come to a node, in a group with this first port.
pub fn session_port(first: u16, id: u8) -> u16
    ensures { first + id + SESSION_PORTS < 2 ^ 16 → result ≡ first + id + SESSION_PORTS }
{
    peer_port(first, id).saturating_add(SESSION_PORTS)
}
