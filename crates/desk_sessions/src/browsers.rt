//! Lines with which the connection of a browser begins. A page in a browser can have it post a body to any port of its
//! host, and a line of that body could be a document.

ghost use Rattle.std.specs.Prelude.{◌≡◌, ℕ, List};
ghost use Rattle.std.specs.List.{list_all};
ghost use Rattle.desk_types.specs.Lists.{split_at};
ghost use Rattle.desk_lines.specs.Holding.{HoldsLine};
ghost use Rattle.desk_sessions.specs.Browsers.{is_method_byte, is_method, has_version, begins_request};
ghost use Rattle.desk_sessions.specs.Browsers.{is_of_browser, is_browser_line};

use desk_lines::{LineBuffer, split_at_first};

/// Whether a method may have the byte.
fn is_method_byte(byte: u8) -> bool
    ensures { result ≡ is_method_byte byte }
{
    byte.is_ascii_alphanumeric() || b"!#$%&'*+-.^_`|~".contains(&byte)
}

/// Whether a method may have each of the bytes.
fn are_method_bytes(bytes: &[u8]) -> bool
    ensures { result ≡ list_all is_method_byte bytes.now }
{
    bytes.iter().all(|b| is_method_byte(*b))
}

/// Whether the bytes are an HTTP method: a page may name its own.
fn is_method(bytes: &[u8]) -> bool
    ensures { result ≡ is_method bytes.now }
{
    !bytes.is_empty() && are_method_bytes(bytes)
}

/// Whether an HTTP version stands after a target and a space.
fn has_version(bytes: &[u8]) -> bool
    ensures { result ≡ has_version (split_at 32 bytes.now) }
{
    match split_at_first(bytes, b' ') {
        Some((_target, version)) => version.starts_with(b"HTTP/"),
        None => false,
    }
}

/// Whether the bytes are an HTTP request line, or begin one that is cut.
fn begins_request(bytes: &[u8], is_cut: bool) -> bool
    ensures { result ≡ begins_request is_cut (split_at 32 bytes.now) }
{
    match split_at_first(bytes, b' ') {
        Some((method, after)) => is_method(method) && (is_cut || has_version(after)),
        None => false,
    }
}

/// Whether the bytes are a line, or begin one that is cut, with which a browser's connection begins.
fn is_of_browser(bytes: &[u8], is_cut: bool) -> bool
    ensures { result ≡ is_of_browser is_cut bytes.now }
{
    begins_request(bytes, is_cut) || bytes.starts_with(&[22, 3])
}

/// Whether the line that has come is one with which a browser's connection begins.
pub(crate) fn is_browser_line(line: &LineBuffer) -> bool
    ensures { (text : List ℕ) → HoldsLine line.now text → result ≡ is_browser_line text }
{
    is_of_browser(line.bytes.as_slice(), line.is_long)
}
