//! Items in their order.

use desk_types::Items;
use std::alloc::Global;

/// Whether numbers that are pushed stand in their order.
fn keeps_order(alloc: Global, numbers: &[u64]) -> bool {
    let mut items = Items::new(alloc);
    for number in numbers {
        if items.push(*number).is_err() {
            return false;
        }
    }
    items.as_slice() == numbers
}

#[test]
fn items_are_kept_in_order(rt: HostRuntime) {
    assert!(rt; keeps_order(rt.alloc(), [3, 1, 2].as_slice()));
}
