//! The key of a desk.

ghost use Rattle.std.specs.Prelude.{◌≡◌, ℕ, List, Ok, IsNone, IfSome, IfOk, IfErr, true, false};
ghost use Rattle.std.specs.List.{list_all};
ghost use Rattle.hex.specs.Hex.{decode_sized};
ghost use Rattle.desk_key.specs.declared.key.KeyFault.TheVariants as faults;
ghost use Rattle.desk_key.specs.Hmac.{key_block};
ghost use Rattle.desk_key.specs.KeyText.{is_blank, is_zeros, IsKeyText};

use crate::hmac::HmacKey;
use hex::FromHex;

/// The bytes of a key.
pub const KEY_BYTES: usize = 32;

/// The digits by which a text spells a key.
const KEY_DIGITS: usize = 64;

/// Why a text is no key.
#[derive(Clone, Copy, Debug, PartialEq, Eq)]
pub enum KeyFault {
    /// It does not begin with 64 hexadecimal digits, or has more after them than blanks.
    WrongText,
    /// All digits are zeros: HMAC fills a key up by zeros, so that this is the empty key.
    AllZeros,
}

/// A key: 32 bytes, not all of them zero.
pub struct Key {
    bytes: [u8; 32],
    ghost some: { is_zeros bytes ≡ false },
}

// Written out, so that callers need not prove each part's drop.
impl Drop for Key {
    fn drop(self) {
        let Key { bytes: _ } = self;
    }
}

/// Whether all bytes are spaces, tabs and ends of lines.
fn are_blank(bytes: &[u8]) -> bool
    ensures { result ≡ list_all is_blank bytes.now }
{
    bytes
        .iter()
        .all(|b| matches!(*b, b' ' | b'\t' | b'\r' | b'\n'))
}

/// Whether all bytes are zero.
fn are_zeros(bytes: &[u8; 32]) -> bool
    ensures { result ≡ is_zeros bytes.now }
{
    bytes.iter().all(|b| *b == 0)
}

/// The 32 bytes of 64 digits.
fn decoded(digits: &[u8]) -> Option<[u8; 32]>
    ensures value { IfSome result (λ bytes. decode_sized digits.now 32 ≡ Ok bytes) }
    ensures none { IsNone result → (bytes : List ℕ) → decode_sized digits.now 32 ≡ Ok bytes → ⊥ }
{
    <[u8; 32] as FromHex>::from_hex(digits).ok()
}

impl Key {
    /// The key that a text spells: 64 hexadecimal digits, in either case, and after them at most spaces, tabs and ends
    /// of lines. Another text is refused, and so is that of a key of zeros.
    pub fn from_text(text: &[u8]) -> Result<Key, KeyFault>
        ensures ok { IfOk result (λ key. IsKeyText text.now key.bytes) }
        // It is refused as text only where it spells no key.
        ensures text { IfErr result (λ fault. fault ≡ faults.WrongText →
            (bytes : List ℕ) → IsKeyText text.now bytes → ⊥) }
        ensures zeros { IfErr result (λ fault. fault ≡ faults.AllZeros →
            (bytes : List ℕ) × IsKeyText text.now bytes × (is_zeros bytes ≡ true)) }
    {
        let (digits, rest) = text.split_at(KEY_DIGITS.min(text.len()));
        if !are_blank(rest) {
            return Err(KeyFault::WrongText);
        }
        match decoded(digits) {
            None => Err(KeyFault::WrongText),
            Some(bytes) if are_zeros(&bytes) => Err(KeyFault::AllZeros),
            Some(bytes) => Ok(Key { bytes }),
        }
    }

    /// The same key once more.
    pub fn copy(&self) -> Key
        ensures { result ≡ self.now }
    {
        Key { bytes: self.bytes }
    }

    /// The key for tags.
    pub fn for_tags(&self) -> HmacKey
        ensures { result.block.value ≡ key_block self.now.bytes }
    {
        HmacKey::new(&self.bytes)
    }
}
