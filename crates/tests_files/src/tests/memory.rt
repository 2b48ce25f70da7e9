//! What is left of the files where memory is refused. This test is for runs in which one allocation fails; in any other
//! run it says no more than the rest.

ghost use Rattle.std.specs.Prelude.{◌≡◌};

use super::files::{MOST, NodeFiles, WORDS, run_of};
use super::starts::{After, start};
use super::tried::{Tried, passes_in_memory};
use std::alloc::Global;

/// The files of two epochs, made again where memory for them is refused.
fn databases_at_last<F: NodeFiles + Drop>(alloc: Global) -> Option<F::Databases> {
    match run_of::<F>(alloc, &[MOST, 1]) {
        Some(databases) => Some(databases),
        None => run_of::<F>(alloc, &[MOST, 1]),
    }
}

/// Whether a node starts where its files end, or is refused by 40 or 41 and starts there the next time.
pub fn starts_at_last<F: NodeFiles + Drop>(alloc: Global) -> bool {
    let Some(databases) = databases_at_last::<F>(alloc) else {
        return false;
    };
    let Some(mut files) = F::of(alloc, databases, WORDS) else {
        return true;
    };
    match start(alloc, &mut files) {
        Ok(found) => found == (1, 4, 1),
        Err(number) => matches!(number, 40 | 41) && start(alloc, &mut files) == Ok((1, 4, 1)),
    }
}

#[test]
fn a_start_without_memory_is_made_again(rt: HostRuntime) {
    assert!(rt; passes_in_memory(rt.alloc(), Tried::After(After::RefusedMemory)));
}
