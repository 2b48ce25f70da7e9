//! The fields that hold a browser to this site.

ghost use Rattle.std.specs.Prelude.{◌≡◌, ◌++◌, ◌∷◌, [], OnOk, IsTrue};
ghost use Rattle.http_header.specs.FieldName.{is_header_name};
ghost use Rattle.http_header.specs.FieldValue.{is_visible_text};
ghost use Rattle.http_server.specs.Response.{fields_of};
ghost use Rattle.desk_http.specs.Policy.{source_fields, site_fields, policy_fields};

use http::{HeaderName, HeaderValue};
use http_server::Response;
use std::alloc::AllocError;

/// Adds a field.
fn add(response: &mut Response, name: &'static str, value: &'static str) -> Result<(), AllocError>
    requires name { IsTrue (is_header_name name.now) }
    requires value { IsTrue (is_visible_text value.now) }
    ensures fields { OnOk result
        (fields_of response.new ≡ fields_of response.old ++ (name.now, value.now) ∷ []) }
    ensures status { response.new.status ≡ response.old.status }
    ensures body { response.new.body ≡ response.old.body }
{
    response.add_header(
        HeaderName::from_static(name),
        HeaderValue::from_static(value),
    )
}

/// Only this site's files are loaded, and only this site is asked: no text of the desk becomes a script, a style or a
/// form, and no other site shows the page within its own.
fn add_sources(response: &mut Response) -> Result<(), AllocError>
    ensures fields { OnOk result (fields_of response.new ≡ fields_of response.old ++ source_fields) }
    ensures status { response.new.status ≡ response.old.status }
    ensures body { response.new.body ≡ response.old.body }
{
    add(
        response,
        "content-security-policy",
        "default-src 'none'; script-src 'self'; style-src 'self'; img-src 'self'; connect-src 'self'; \
        base-uri 'none'; form-action 'none'; frame-ancestors 'none'; require-trusted-types-for 'script'",
    )?;
    add(response, "x-content-type-options", "nosniff")
}

/// No other site learns of this one, nor reads of it, and nothing is saved on disk.
fn add_site(response: &mut Response) -> Result<(), AllocError>
    ensures fields { OnOk result (fields_of response.new ≡ fields_of response.old ++ site_fields) }
    ensures status { response.new.status ≡ response.old.status }
    ensures body { response.new.body ≡ response.old.body }
{
    add(response, "referrer-policy", "no-referrer")?;
    add(response, "cross-origin-resource-policy", "same-origin")?;
    add(response, "cross-origin-opener-policy", "same-origin")?;
    add(response, "cache-control", "no-store")
}

/// Adds the fields that hold a browser to this site.
pub fn add_policy(response: &mut Response) -> Result<(), AllocError>
    ensures fields { OnOk result (fields_of response.new ≡ fields_of response.old ++ policy_fields) }
    ensures status { response.new.status ≡ response.old.status }
    ensures body { response.new.body ≡ response.old.body }
{
    add_sources(response)?;
    add_site(response)
}
