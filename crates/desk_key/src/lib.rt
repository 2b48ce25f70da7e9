//! The key of a desk, as its file spells it, and HMAC-SHA-256, by which an end of a connection shows that it holds one.
#![tactic(auto)]

mod hmac;
mod key;

pub use hmac::{HmacKey, TAG_BYTES, are_same_tags, hmac_sha256};
pub use key::{KEY_BYTES, Key, KeyFault};
