//! The fields of an answer.

ghost use Rattle.std.specs.Prelude.{◌≡◌, ◌++◌, ◌∷◌, [], IsTrue, OnOk};
ghost use Rattle.http_header.specs.FieldName.{is_header_name};
ghost use Rattle.http_server.specs.Response.{fields_of};
ghost use Rattle.desk_page.specs.Fields.{json_fields, live_text, group_fields, AddsDate};
ghost use Rattle.desk_page.specs.Groups.{seen_places};

use crate::group::{SeenGroup, group_text, number_text};
use http::{HeaderName, HeaderValue};
use http_server::Response;
use httpdate::HttpDate;
use std::alloc::{AllocError, Global};
use std::time::{Clock, SystemTime};

/// Adds a field.
pub(crate) fn add_field(
    name: &'static str,
    value: HeaderValue,
    response: &mut Response,
) -> Result<(), AllocError>
    requires { IsTrue (is_header_name name.now) }
    ensures status { response.new.status ≡ response.old.status }
    ensures body { response.new.body ≡ response.old.body }
    ensures fields { OnOk result
        (fields_of response.new ≡ fields_of response.old ++ (name.now, value.bytes) ∷ []) }
{
    response.add_header(HeaderName::from_static(name), value)
}

/// Adds a field with this text.
fn add_text(
    alloc: Global,
    name: &'static str,
    text: &[u8],
    response: &mut Response,
) -> Result<(), AllocError>
    requires { IsTrue (is_header_name name.now) }
    ensures status { response.new.status ≡ response.old.status }
    ensures body { response.new.body ≡ response.old.body }
    ensures fields { OnOk result
        (fields_of response.new ≡ fields_of response.old ++ (name.now, text.now) ∷ []) }
{
    match HeaderValue::from_bytes(alloc, text) {
        Ok(value) => add_field(name, value, response),
        Err(_) => Err(AllocError),
    }
}

/// Adds the date, where the clock tells it.
pub(crate) fn add_date<R: Clock>(
    rt: &R,
    alloc: Global,
    response: &mut Response,
) -> Result<(), AllocError>
    ensures status { response.new.status ≡ response.old.status }
    ensures body { response.new.body ≡ response.old.body }
    ensures fields { OnOk result (AddsDate (fields_of response.old) (fields_of response.new)) }
{
    let Ok(now) = SystemTime::now(rt) else {
        return Ok(());
    };
    let Ok(passed) = now.duration_since(SystemTime::UNIX_EPOCH) else {
        return Ok(());
    };
    match HttpDate::from_unix_secs(passed.as_secs()) {
        Ok(date) => add_text(alloc, "date", &date.to_bytes(), response),
        Err(_) => Ok(()),
    }
}

/// Whether the nodes answer.
fn live_text(is_live: bool) -> &'static str
    ensures { result.now ≡ live_text is_live }
{
    if is_live { "1" } else { "0" }
}

/// Adds which run of the server it is, and what is known of the nodes.
pub(crate) fn add_group(
    alloc: Global,
    run: u64,
    group: &SeenGroup,
    response: &mut Response,
) -> Result<(), AllocError>
    ensures status { response.new.status ≡ response.old.status }
    ensures body { response.new.body ≡ response.old.body }
    ensures fields { OnOk result (fields_of response.new ≡ fields_of response.old
        ++ group_fields run group.now.is_live (seen_places group.now)) }
{
    let run = number_text(alloc, run)?;
    add_text(alloc, "desk-of", run.as_slice(), response)?;
    add_text(
        alloc,
        "desk-live",
        live_text(group.is_live).as_bytes(),
        response,
    )?;
    let nodes = group_text(alloc, group)?;
    add_text(alloc, "desk-nodes", nodes.as_slice(), response)
}

/// Adds that the body is JSON.
pub(crate) fn add_json(response: &mut Response) -> Result<(), AllocError>
    ensures status { response.new.status ≡ response.old.status }
    ensures body { response.new.body ≡ response.old.body }
    ensures fields { OnOk result (fields_of response.new ≡ fields_of response.old ++ json_fields) }
{
    add_field(
        "content-type",
        HeaderValue::from_static("application/json"),
        response,
    )
}
