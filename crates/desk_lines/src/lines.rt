//! Lines of bytes.

ghost use Rattle.std.specs.Prelude.{◌≡◌, ◌<◌, ◌∷◌, length, option_map};
ghost use Rattle.std.specs.List.{list_all};
ghost use Rattle.desk_types.specs.Lists.{split_at};
ghost use Rattle.desk_lines.specs.Lines.{is_space, lines_of};

/// Whether the bytes are all spaces, tabs and carriage returns.
pub fn is_blank(line: &[u8]) -> bool
    ensures { result ≡ list_all is_space line.now }
{
    line.iter()
        .all(|b| *b == b' ' || *b == b'\t' || *b == b'\r')
}

/// What stands before the first of a byte, and what stands after it.
pub fn split_at_first<'a>(bytes: &'a [u8], byte: u8) -> Option<(&'a [u8], &'a [u8])>
    ensures { option_map (λ p. (p.0.now, p.1.now)) result ≡ split_at byte bytes.now }
{
    for i in 0..bytes.len() {
        if bytes[i] == byte {
            return Some((&bytes[..i], &bytes[i + 1..]));
        }
    }
    None
}

/// The first line of a text, and what stands after its newline.
pub fn first_line<'a>(text: &'a [u8]) -> (&'a [u8], &'a [u8])
    requires { 0 < length text.now }
    ensures lines { lines_of text.now ≡ result.0.now ∷ lines_of result.1.now }
    ensures shorter { length result.1.now < length text.now }
{
    match split_at_first(text, b'\n') {
        Some(parts) => parts,
        None => text.split_at(text.len()),
    }
}
