//! Parts of a text of bytes.

ghost use Rattle.std.specs.Prelude.{◌≡◌, option_map};
ghost use Rattle.desk_http.specs.Texts.{same, stripped};

/// Whether two texts are one and the same.
pub(crate) fn is_same(text: &[u8], other: &[u8]) -> bool
    ensures { result ≡ same text.now other.now }
{
    text == other
}

/// What stands after a prefix, where the text begins with it.
pub fn stripped<'a>(text: &'a [u8], prefix: &[u8]) -> Option<&'a [u8]>
    ensures { option_map (λ rest. rest.now) result ≡ stripped prefix.now text.now }
{
    text.strip_prefix(prefix)
}
