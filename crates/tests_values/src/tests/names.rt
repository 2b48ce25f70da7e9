//! Texts of a bounded length, and the numbers of clients and requests.

use desk_types::limits::LAST_NUMBER;
use desk_types::{BoundedText, ClientId, KindText, RequestNumber};
use std::alloc::Global;

fn is_copied(kind: &KindText) -> bool {
    match kind.copy() {
        Ok(copy) => copy.as_str() == kind.as_str(),
        Err(_) => false,
    }
}

/// Whether a text is that of a kind, as its copy is too.
fn is_kind(alloc: Global, text: &str) -> bool {
    match KindText::new(alloc, text) {
        Ok(Some(kind)) => kind.as_str() == text && is_copied(&kind),
        _ => false,
    }
}

/// Whether a text is longer or shorter than a text of 1 to 3 bytes may be.
fn is_out_of_bounds(alloc: Global, text: &str) -> bool {
    let bounded: Result<Option<BoundedText<3>>, _> = BoundedText::new(alloc, text);
    match bounded {
        Ok(None) => true,
        _ => false,
    }
}

const OUT_OF_BOUNDS: &[(&str, bool)] = &[("fire", true), ("", true), ("aid", false)];

#[test]
fn texts_are_bounded(rt: HostRuntime) {
    assert!(rt; is_kind(rt.alloc(), "fire"));
    for (text, wanted) in OUT_OF_BOUNDS {
        assert!(rt; is_out_of_bounds(rt.alloc(), text) == *wanted, "{text}");
    }
}

const NUMBERS: &[(u64, bool)] = &[
    (0, false),
    (1, true),
    (9_007_199_254_740_991, true),
    (9_007_199_254_740_992, false),
];

#[test]
fn clients_and_requests_are_numbered_from_1(rt: HostRuntime) {
    for (number, wanted) in NUMBERS {
        let (client, request) = (ClientId::new(*number), RequestNumber::new(*number));
        assert!(rt;
            client.is_some() == *wanted && request.is_some() == *wanted,
            "{number}"
        );
    }
    assert!(rt; LAST_NUMBER == 9_007_199_254_740_991);
}
