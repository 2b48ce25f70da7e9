//! The fields of a request's head.

ghost use Rattle.std.specs.Prelude.{◌≡◌, codes, option_map};
ghost use Rattle.http.specs.Request.{head_of};
ghost use Rattle.desk_http.specs.Heads.{field_in, has_own_host, has_own_origin, is_json, is_own_site};

use crate::bytes_of::is_same;
use crate::host::{is_own_host, is_own_origin};
use bytes::Bytes;
use http::Request;

/// The value of a field, where the head has exactly one of this name.
fn sole_value<'a>(request: &'a Request<Bytes>, name: &'static str) -> Option<&'a [u8]>
    ensures { option_map (λ value. value.now) result ≡ field_in name.now (head_of request.now) }
{
    let mut values = request.headers().get_all(name).iter();
    match (values.next(), values.next()) {
        (Some(value), None) => Some(value.as_bytes()),
        _ => None,
    }
}

/// The host that a request is meant for, where it names one alone.
fn host_of(request: &Request<Bytes>) -> Option<&[u8]>
    ensures { option_map (λ value. value.now) result ≡ field_in (codes "host") (head_of request.now) }
{
    sole_value(request, "host")
}

/// The site that a request comes from, where it names one alone.
fn origin_of(request: &Request<Bytes>) -> Option<&[u8]>
    ensures { option_map (λ value. value.now) result ≡ field_in (codes "origin") (head_of request.now) }
{
    sole_value(request, "origin")
}

/// Whether a request is meant for this host, and says so in its one field `host` alone.
pub(crate) fn has_own_host(request: &Request<Bytes>) -> bool
    ensures { result ≡ has_own_host (head_of request.now) }
{
    match host_of(request) {
        Some(host) => request.uri().authority().is_none() && is_own_host(host),
        None => false,
    }
}

/// Whether a request comes from a page of the host that it is meant for.
fn has_own_origin(request: &Request<Bytes>) -> bool
    ensures { result ≡ has_own_origin (head_of request.now) }
{
    match (host_of(request), origin_of(request)) {
        (Some(host), Some(origin)) => is_own_origin(origin, host),
        _ => false,
    }
}

/// Whether a request's body is JSON, which a form of another site can't send.
fn is_json(request: &Request<Bytes>) -> bool
    ensures { result ≡ is_json (head_of request.now) }
{
    match sole_value(request, "content-type") {
        Some(value) => is_same(value, b"application/json"),
        None => false,
    }
}

/// Whether a request comes from this site's own page: by its host, its origin and its type.
pub(crate) fn is_own_site(request: &Request<Bytes>) -> bool
    ensures { result ≡ is_own_site (head_of request.now) }
{
    has_own_host(request) && has_own_origin(request) && is_json(request)
}
