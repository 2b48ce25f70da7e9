//! What is counted, and the answer that tells it.

ghost use Rattle.std.specs.Prelude.{◌≡◌, ◌++◌, [], IfOk, OnOk};
ghost use Rattle.std.specs.Result.{result_map_both};
ghost use Rattle.desk_metrics.specs.Metrics.{metrics_text};
ghost use Rattle.http_server.specs.Response.{fields_of};
ghost use Rattle.desk_page.specs.Answers.{HasText};
ghost use Rattle.desk_page.specs.Fields.{metrics_fields};
ghost use Rattle.desk_page.specs.Forwards.{is_refusal_line, outcome_of};
ghost use Rattle.desk_page.specs.Groups.{seen_places};

use crate::fields::add_field;
use crate::group::SeenGroup;
use crate::reported::after_mark;
use crate::shared::NoReplies;
use bytes::Bytes;
use desk_metrics::{CommandOutcome, Counts, write_metrics};
use http::HeaderValue;
use http_server::Response;
use std::alloc::{AllocError, Global};
use std::time::{Clock, Instant};

/// Whether reply lines tell a refusal.
fn is_refusal_line(out: &[u8]) -> bool
    ensures { result ≡ is_refusal_line out.now }
{
    match after_mark(out, b"\"refusal\":") {
        Some(_number) => true,
        None => false,
    }
}

/// What became of a text, by the replies to its lines, or why there are none.
pub(crate) fn outcome_of(found: &Result<Vec<u8>, NoReplies>) -> CommandOutcome
    ensures { result ≡ outcome_of (result_map_both (λ out. out.items) (λ fault. fault) found.now) }
{
    match found {
        Ok(out) => {
            if is_refusal_line(out.as_slice()) {
                CommandOutcome::Refused
            } else {
                CommandOutcome::Done
            }
        }
        Err(NoReplies::GivenUp) => CommandOutcome::Unanswered,
        Err(NoReplies::Busy) => CommandOutcome::Busy,
    }
}

/// How many microseconds have passed. None where the clock fails.
pub(crate) fn microseconds_since<R: Clock>(rt: &R, began: &Option<Instant>) -> Option<u64> {
    match began {
        Some(began) => match began.elapsed(rt) {
            Ok(passed) => Some(u64::try_from(passed.as_micros()).unwrap_or(u64::MAX)),
            Err(_) => None,
        },
        None => None,
    }
}

/// The text of the metrics.
fn metrics_text(alloc: Global, group: &SeenGroup, counts: &Counts) -> Result<Vec<u8>, AllocError>
    ensures { IfOk result (λ text. text.items ≡ metrics_text (seen_places group.now) counts.now) }
{
    let mut text = Vec::new(alloc);
    match write_metrics(&mut text, group.seen(), counts) {
        Ok(()) => Ok(text),
        Err(_) => Err(AllocError),
    }
}

/// Answers with a text for Prometheus.
fn put_plain(text: Bytes, response: &mut Response) -> Result<(), AllocError>
    requires { HasText 200 [] response.old.status response.old.body.items }
    ensures text { OnOk result (HasText 200 text response.new.status response.new.body.items) }
    ensures fields { OnOk result (fields_of response.new ≡ fields_of response.old ++ metrics_fields) }
{
    response.body.push(text)?;
    add_field(
        "content-type",
        HeaderValue::from_static("text/plain; version=0.0.4; charset=utf-8"),
        response,
    )
}

/// Answers with the metrics.
pub(crate) fn put_metrics(
    alloc: Global,
    group: &SeenGroup,
    counts: &Counts,
    response: &mut Response,
) -> Result<(), AllocError>
    requires { HasText 200 [] response.old.status response.old.body.items }
    ensures text { OnOk result (HasText 200 (metrics_text (seen_places group.now) counts.now)
        response.new.status response.new.body.items) }
    ensures fields { OnOk result (fields_of response.new ≡ fields_of response.old ++ metrics_fields) }
{
    let text = metrics_text(alloc, group, counts)?;
    put_plain(Bytes::from_vec(text)?, response)
}
