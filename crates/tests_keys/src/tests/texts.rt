//! Texts that spell a key, and others.

use desk_key::{Key, KeyFault};

/// What comes of a text: nothing, or the fault.
fn fault(text: &[u8]) -> Option<KeyFault> {
    match Key::from_text(text) {
        Ok(_) => None,
        Err(fault) => Some(fault),
    }
}

const WRONG_TEXT: Option<KeyFault> = Some(KeyFault::WrongText);

const ALL_ZEROS: Option<KeyFault> = Some(KeyFault::AllZeros);

/// A text, and what comes of it.
const TEXTS: &[(&[u8], Option<KeyFault>)] = &[
    (
        b"00112233445566778899aabbccddeeffFFEEDDCCBBAA99887766554433221100",
        None,
    ),
    (
        b"00112233445566778899aabbccddeeffFFEEDDCCBBAA99887766554433221100\n",
        None,
    ),
    (
        b"00112233445566778899aabbccddeeffFFEEDDCCBBAA99887766554433221100\r\n",
        None,
    ),
    (
        b"00112233445566778899aabbccddeeffFFEEDDCCBBAA99887766554433221100 \t\n\n",
        None,
    ),
    (
        b"00112233445566778899AABBCCDDEEFFFFEEDDCCBBAA99887766554433221100",
        None,
    ),
    (
        b"0000000000000000000000000000000000000000000000000000000000000001",
        None,
    ),
    (b"", WRONG_TEXT),
    (b"\n", WRONG_TEXT),
    (
        b"00112233445566778899aabbccddeeffFFEEDDCCBBAA9988776655443322110",
        WRONG_TEXT,
    ),
    (
        b"00112233445566778899aabbccddeeffFFEEDDCCBBAA9988776655443322110\n",
        WRONG_TEXT,
    ),
    (
        b"00112233445566778899aabbccddeeffFFEEDDCCBBAA998877665544332211000",
        WRONG_TEXT,
    ),
    (
        b"00112233445566778899aabbccddeeffFFEEDDCCBBAA99887766554433221100x",
        WRONG_TEXT,
    ),
    (
        b"00112233445566778899aabbccddeeffFFEEDDCCBBAA99887766554433221100\nx",
        WRONG_TEXT,
    ),
    (
        b"00112233445566778899aabbccddeeffFFEEDDCCBBAA99887766554433221100\0",
        WRONG_TEXT,
    ),
    (
        b" 00112233445566778899aabbccddeeffFFEEDDCCBBAA99887766554433221100",
        WRONG_TEXT,
    ),
    (
        b"\n00112233445566778899aabbccddeeffFFEEDDCCBBAA99887766554433221100",
        WRONG_TEXT,
    ),
    (
        b"g0112233445566778899aabbccddeeffFFEEDDCCBBAA99887766554433221100",
        WRONG_TEXT,
    ),
    (
        b"00112233445566778899aabbccddeeffFFEEDDCCBBAA9988776655443322110G",
        WRONG_TEXT,
    ),
    (
        b"0x112233445566778899aabbccddeeffFFEEDDCCBBAA99887766554433221100",
        WRONG_TEXT,
    ),
    (
        b"00112233445566778899aabbccddeef FFEEDDCCBBAA99887766554433221100",
        WRONG_TEXT,
    ),
    (
        b"00112233445566778899aabbccddeeffFFEEDDCCBBAA99887766554433221100\n00112233",
        WRONG_TEXT,
    ),
    (
        b"\xc3\xa9112233445566778899aabbccddeeffFFEEDDCCBBAA99887766554433221100",
        WRONG_TEXT,
    ),
    (
        b"0000000000000000000000000000000000000000000000000000000000000000",
        ALL_ZEROS,
    ),
    (
        b"0000000000000000000000000000000000000000000000000000000000000000\n",
        ALL_ZEROS,
    ),
    (
        b"0000000000000000000000000000000000000000000000000000000000000000x",
        WRONG_TEXT,
    ),
];

#[test]
fn texts_spell_keys_or_are_refused(rt: HostRuntime) {
    for (index, row) in TEXTS.iter().enumerate() {
        assert!(rt; fault(row.0) == row.1, "{index}");
    }
}

/// Whether two texts spell one key, by the tag of a message.
fn are_one_key(one: &[u8], other: &[u8]) -> bool {
    match (Key::from_text(one), Key::from_text(other)) {
        (Ok(one), Ok(other)) => {
            let first = one.for_tags().tag_of_two(b"a", b"b");
            let second = other.for_tags().tag_of_two(b"a", b"b");
            first.as_slice() == second.as_slice()
        }
        _ => false,
    }
}

#[test]
fn each_digit_tells(rt: HostRuntime) {
    let text = TEXTS[0].0;
    assert!(rt; are_one_key(text, TEXTS[4].0));
    for place in 0..64 {
        let mut other = [0; 64];
        other.copy_from_slice(&text[..64]);
        other[place] = if other[place] == b'7' { b'8' } else { b'7' };
        assert!(rt; !are_one_key(text, &other), "{place}");
    }
}
