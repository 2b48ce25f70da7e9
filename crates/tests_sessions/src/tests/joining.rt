//! Three threads at once.

use std::thread;
use std::thread::Threads;

/// Calls three closures, each in a thread of its own. It knows nothing of their types, so that a call of `join` within
/// a call of `join` is proved once, and over no type of many fields.
pub(super) fn join_three<
    R: Threads + Sync,
    F: FnOnce() -> T + Send,
    G: FnOnce() -> U + Send,
    H: FnOnce() -> V,
    T: Send,
    U: Send,
    V,
>(rt: &R, first: F, second: G, third: H) -> ((T, U), V)
    requires { F.pre first × G.pre second × H.pre third }
    ensures first { F.post first result.0.0 }
    ensures second { G.post second result.0.1 }
    ensures third { H.post third result.1 }
{
    thread::join(
        rt,
        ||
            requires { F.pre first × G.pre second }
        { thread::join(rt, first, second) },
        third,
    )
}
