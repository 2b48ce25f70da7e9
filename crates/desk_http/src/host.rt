//! Which host and which site a request names.

ghost use Rattle.std.specs.Prelude.{◌≡◌};
ghost use Rattle.desk_http.specs.Texts.{is_end_or_port, names_host, is_own_host, is_own_origin};

use crate::bytes_of::{is_same, stripped};

/// Whether nothing more stands after a host's name, or a colon and its port.
fn is_end_or_port(rest: &[u8]) -> bool
    ensures { result ≡ is_end_or_port rest.now }
{
    match rest {
        [] => true,
        [first, ..] => *first == b':',
    }
}

/// Whether a host is of this name, at any port.
fn names_host(host: &[u8], name: &[u8]) -> bool
    ensures { result ≡ names_host name.now host.now }
{
    match stripped(host, name) {
        Some(rest) => is_end_or_port(rest),
        None => false,
    }
}

/// Whether a host is this one, by a name that it has on itself alone, at any port.
pub(crate) fn is_own_host(host: &[u8]) -> bool
    ensures { result ≡ is_own_host host.now }
{
    names_host(host, b"127.0.0.1") || names_host(host, b"localhost") || names_host(host, b"[::1]")
}

/// Whether an origin is the site of a host.
pub(crate) fn is_own_origin(origin: &[u8], host: &[u8]) -> bool
    ensures { result ≡ is_own_origin origin.now host.now }
{
    match stripped(origin, b"http://") {
        Some(site) => is_same(site, host),
        None => false,
    }
}
