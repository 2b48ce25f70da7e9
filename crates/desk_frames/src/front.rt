//! The front of a run of bytes.

ghost use Rattle.std.specs.Prelude.{◌≡◌, take};

/// The bytes, of which so many are taken at most.
pub(crate) fn front_of(bytes: &[u8], most: usize) -> &[u8]
    ensures { result.now ≡ take most bytes.now }
{
    if bytes.len() <= most {
        bytes
    } else {
        &bytes[..most]
    }
}
