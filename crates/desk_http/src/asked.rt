//! What a request asks for.

ghost use Rattle.std.specs.Prelude.{◌≡◌};
ghost use Rattle.http.specs.Request.{head_of};
ghost use Rattle.desk_http.specs.Routes.{asked_by_path, asked_by_method, asked_in};

use crate::field::has_own_host;
use bytes::Bytes;
use http::Request;

/// What a request asks for.
#[derive(Clone, Copy, Debug, PartialEq, Eq)]
pub enum Asked {
    Index,
    Style,
    Script,
    Icon,
    /// A board that is newer than the browser's.
    Board,
    /// What the server has counted.
    Metrics,
    /// The replies to lines of documents.
    Command,
    /// Nothing that there is.
    Absent,
    /// The method is none that the path knows.
    WrongMethod,
    /// The request is meant for another host.
    OtherHost,
}

/// What a path asks for.
fn asked_by_path(path: &str) -> Asked
    ensures { result ≡ asked_by_path path.now }
{
    match path {
        "/" => Asked::Index,
        "/page.css" => Asked::Style,
        "/page.js" => Asked::Script,
        "/icon.svg" => Asked::Icon,
        "/board" => Asked::Board,
        "/metrics" => Asked::Metrics,
        "/command" => Asked::Command,
        _ => Asked::Absent,
    }
}

/// What is asked for by a method, at a path that asks for this.
fn asked_by_method(asked: Asked, method: &str) -> Asked
    ensures { result ≡ asked_by_method asked method.now }
{
    match asked {
        Asked::Absent => Asked::Absent,
        Asked::Command => {
            if method == "POST" {
                Asked::Command
            } else {
                Asked::WrongMethod
            }
        }
        _ => {
            if method == "GET" {
                asked
            } else {
                Asked::WrongMethod
            }
        }
    }
}

/// What a request asks for.
pub fn asked_for(request: &Request<Bytes>) -> Asked
    ensures { result ≡ asked_in (head_of request.now) }
{
    if !has_own_host(request) {
        return Asked::OtherHost;
    }
    asked_by_method(
        asked_by_path(request.uri().path()),
        request.method().as_str(),
    )
}
