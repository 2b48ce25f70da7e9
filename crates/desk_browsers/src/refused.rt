//! The status by which a connection refuses a request itself.

ghost use Rattle.std.specs.Prelude.{◌≡◌};
ghost use Rattle.http_server.specs.Connection.{history};
ghost use Rattle.desk_browsers.specs.Refused.{part_code, refusal_code, refused_in};

use http_server::{Connection, Reason, Refusal, State};

/// The status for a part of a head that is refused.
fn part_code(error: http::Error) -> u16
    ensures { result ≡ part_code error }
{
    match error {
        http::Error::HeaderName | http::Error::MaxSizeReached => 431,
        http::Error::Uri(error) if error.is_too_long() => 414,
        _ => 400,
    }
}

/// The status for a request that is refused.
fn refusal_code(refusal: Refusal) -> u16
    ensures { result ≡ refusal_code refusal }
{
    match refusal {
        Refusal::Unreadable(error) => error.status(),
        Refusal::InvalidPart(error) => part_code(error),
        Refusal::BodyTooLarge => 413,
        Refusal::UnknownCoding => 501,
        Refusal::InvalidResponse(_) => 500,
        Refusal::Truncated | Refusal::InvalidHost => 400,
    }
}

/// The status by which a connection refused its last request before that came to the service, if it did.
pub fn refused_status(connection: &Connection) -> Option<u16>
    ensures { result ≡ refused_in (history connection.now).state }
{
    match connection.state() {
        State::Closing(Reason::Refused(refusal)) => Some(refusal_code(refusal)),
        _ => None,
    }
}
