//! The files of the page.

ghost use Rattle.std.specs.Prelude.{◌≡◌, ◌++◌, [], OnOk};
ghost use Rattle.http_server.specs.Response.{fields_of};
ghost use Rattle.desk_page.specs.Fields.{kind_fields, index_fields, style_fields, script_fields, icon_fields};
ghost use Rattle.desk_page_files.specs.declared.index_html.TheConstants.{INDEX_HTML};
ghost use Rattle.desk_page_files.specs.declared.page_css.TheConstants.{PAGE_CSS};
ghost use Rattle.desk_page_files.specs.declared.page_js.TheConstants.{PAGE_JS};
ghost use Rattle.desk_page_files.specs.declared.icon_svg.TheConstants.{ICON_SVG};
ghost use Rattle.desk_page.specs.Answers.{HasText};

use crate::fields::add_field;
use bytes::Bytes;
use desk_page_files::{ICON_SVG, INDEX_HTML, PAGE_CSS, PAGE_JS};
use http::HeaderValue;
use http_server::Response;
use std::alloc::AllocError;

/// Answers with a text of this type.
fn put_text(
    text: &'static str,
    kind: HeaderValue,
    response: &mut Response,
) -> Result<(), AllocError>
    requires { HasText 200 [] response.old.status response.old.body.items }
    ensures text { OnOk result (HasText 200 text.now response.new.status response.new.body.items) }
    ensures fields { OnOk result (fields_of response.new ≡ fields_of response.old ++ kind_fields kind.bytes) }
{
    response.body.push(Bytes::from_static(text.as_bytes()))?;
    add_field("content-type", kind, response)
}

pub(crate) fn put_index(response: &mut Response) -> Result<(), AllocError>
    requires { HasText 200 [] response.old.status response.old.body.items }
    ensures text { OnOk result (HasText 200 INDEX_HTML.now response.new.status response.new.body.items) }
    ensures fields { OnOk result (fields_of response.new ≡ fields_of response.old ++ index_fields) }
{
    put_text(
        INDEX_HTML,
        HeaderValue::from_static("text/html; charset=utf-8"),
        response,
    )
}

pub(crate) fn put_style(response: &mut Response) -> Result<(), AllocError>
    requires { HasText 200 [] response.old.status response.old.body.items }
    ensures text { OnOk result (HasText 200 PAGE_CSS.now response.new.status response.new.body.items) }
    ensures fields { OnOk result (fields_of response.new ≡ fields_of response.old ++ style_fields) }
{
    put_text(
        PAGE_CSS,
        HeaderValue::from_static("text/css; charset=utf-8"),
        response,
    )
}

pub(crate) fn put_script(response: &mut Response) -> Result<(), AllocError>
    requires { HasText 200 [] response.old.status response.old.body.items }
    ensures text { OnOk result (HasText 200 PAGE_JS.now response.new.status response.new.body.items) }
    ensures fields { OnOk result (fields_of response.new ≡ fields_of response.old ++ script_fields) }
{
    put_text(
        PAGE_JS,
        HeaderValue::from_static("text/javascript; charset=utf-8"),
        response,
    )
}

pub(crate) fn put_icon(response: &mut Response) -> Result<(), AllocError>
    requires { HasText 200 [] response.old.status response.old.body.items }
    ensures text { OnOk result (HasText 200 ICON_SVG.now response.new.status response.new.body.items) }
    ensures fields { OnOk result (fields_of response.new ≡ fields_of response.old ++ icon_fields) }
{
    put_text(
        ICON_SVG,
        HeaderValue::from_static("image/svg+xml"),
        response,
    )
}
