//! The test vectors of RFC 4231, which has them for HMAC with SHA-256.

use desk_key::{HmacKey, hmac_sha256};
use std::alloc::{AllocError, Global};
use std::test::Fail;

/// A key, a message in two parts, and its tag in two halves, the second of which may not be told.
struct Vector {
    key: &'static [u8],
    message: (&'static [u8], &'static [u8]),
    tag: (&'static [u8], &'static [u8]),
}

const VECTORS: &[Vector] = &[
    Vector {
        key: &[0x0b; 20],
        message: (b"Hi ", b"There"),
        tag: (
            b"\xb0\x34\x4c\x61\xd8\xdb\x38\x53\x5c\xa8\xaf\xce\xaf\x0b\xf1\x2b",
            b"\x88\x1d\xc2\x00\xc9\x83\x3d\xa7\x26\xe9\x37\x6c\x2e\x32\xcf\xf7",
        ),
    },
    Vector {
        key: b"Jefe",
        message: (b"what do ya want ", b"for nothing?"),
        tag: (
            b"\x5b\xdc\xc1\x46\xbf\x60\x75\x4e\x6a\x04\x24\x26\x08\x95\x75\xc7",
            b"\x5a\x00\x3f\x08\x9d\x27\x39\x83\x9d\xec\x58\xb9\x64\xec\x38\x43",
        ),
    },
    Vector {
        key: &[0xaa; 20],
        message: (&[0xdd; 25], &[0xdd; 25]),
        tag: (
            b"\x77\x3e\xa9\x1e\x36\x80\x0e\x46\x85\x4d\xb8\xeb\xd0\x91\x81\xa7",
            b"\x29\x59\x09\x8b\x3e\xf8\xc1\x22\xd9\x63\x55\x14\xce\xd5\x65\xfe",
        ),
    },
    Vector {
        key: b"\x01\x02\x03\x04\x05\x06\x07\x08\x09\x0a\x0b\x0c\x0d\x0e\x0f\x10\x11\x12\x13\x14\x15\x16\x17\x18\x19",
        message: (&[0xcd; 25], &[0xcd; 25]),
        tag: (
            b"\x82\x55\x8a\x38\x9a\x44\x3c\x0e\xa4\xcc\x81\x98\x99\xf2\x08\x3a",
            b"\x85\xf0\xfa\xa3\xe5\x78\xf8\x07\x7a\x2e\x3f\xf4\x67\x29\x66\x5b",
        ),
    },
    Vector {
        key: &[0x0c; 20],
        message: (b"Test With ", b"Truncation"),
        tag: (
            b"\xa3\xb6\x16\x74\x73\x10\x0e\xe0\x6e\x0c\x79\x6c\x29\x55\x55\x2b",
            b"",
        ),
    },
    Vector {
        key: &[0xaa; 131],
        message: (
            b"Test Using Larger Than Block-Size Key",
            b" - Hash Key First",
        ),
        tag: (
            b"\x60\xe4\x31\x59\x1e\xe0\xb6\x7f\x0d\x8a\x26\xaa\xcb\xf5\xb7\x7f",
            b"\x8e\x0b\xc6\x21\x37\x28\xc5\x14\x05\x46\x04\x0f\x0e\xe3\x7f\x54",
        ),
    },
    Vector {
        key: &[0xaa; 131],
        message: (
            b"This is a test using a larger than block-size key and a larger than block-size",
            b" data. The key needs to be hashed before being used by the HMAC algorithm.",
        ),
        tag: (
            b"\x9b\x09\xff\xa7\x1b\x94\x2f\xcb\x27\x63\x5f\xbc\xd5\xb0\xe9\x44",
            b"\xbf\xdc\x63\x64\x4f\x07\x13\x93\x8a\x7f\x51\x53\x5c\x3a\x35\xe2",
        ),
    },
];

/// Whether a tag is the vector's, as far as that is told.
fn is_tag_of(vector: &Vector, tag: &[u8; 32]) -> bool {
    let (first, second) = tag.as_slice().split_at(16);
    first == vector.tag.0 && second.starts_with(vector.tag.1)
}

/// The message in one piece.
fn message_of(alloc: Global, vector: &Vector) -> Result<Vec<u8>, AllocError> {
    let mut message = Vec::new(alloc);
    message.extend_from_slice(vector.message.0)?;
    message.extend_from_slice(vector.message.1)?;
    Ok(message)
}

/// Whether the message has the tag, in one piece, in two and in three.
fn has_tag(vector: &Vector, message: &[u8]) -> bool {
    let key = HmacKey::new(vector.key);
    let (first, second) = vector.message;
    let (third, fourth) = second.split_at(second.len() / 2);
    is_tag_of(vector, &hmac_sha256(vector.key, message))
        && is_tag_of(vector, &key.tag_of_two(first, second))
        && is_tag_of(vector, &key.tag_of_three(first, third, fourth))
}

#[test]
fn tags_are_those_of_the_standard(rt: HostRuntime) -> Result<(), Fail> {
    for (index, vector) in VECTORS.iter().enumerate() {
        let message = message_of(rt.alloc(), vector)?;
        assert!(rt; has_tag(vector, message.as_slice()), "{index}");
    }
    Ok(())
}
