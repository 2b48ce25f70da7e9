//! Two sessions at node 0 of a group of three.

ghost use Rattle.std.specs.Prelude.{◌≡◌};

use super::carrying::{Inbox, open_inboxes};
use super::gate::Flag;
use super::joining::join_three;
use super::loopback::Loopback;
use super::nodes::{run_node, run_primary};
use super::settling::EndedNode;
use super::talking::Meeting;
use desk_threads::{BoardName, NewHistory};
use desk_types::{Domain, WantOfMemory};
use std::alloc::Global;
use std::marker::Brand;
use std::net::{Net, TcpListener, TcpStream};
use std::rt::Clock;
use std::sync::Wait;
use std::test::Fail;
use std::thread::Threads;

/// Runs three nodes, each in a thread of its own, until all have ended: whether they are whole and agree.
fn run_three<
    X: FnOnce() -> Option<EndedNode> + Send,
    Y: FnOnce() -> Option<EndedNode> + Send,
    Z: FnOnce() -> Option<EndedNode> + Send,
    R: Threads + Sync,
>(rt: &R, zero: X, one: Y, two: Z) -> bool
    requires { X.pre zero × Y.pre one × Z.pre two }
{
    let ((zero, one), two) = join_three(rt, zero, one, two);
    match (zero, one, two) {
        (Some(zero), Some(one), Some(two)) => agree(&zero, &one, &two),
        _ => false,
    }
}

/// Whether three nodes are whole and agree.
fn agree(zero: &EndedNode, one: &EndedNode, two: &EndedNode) -> bool {
    zero.agrees(one) && one.agrees(two) && two.agrees(zero)
}

/// The histories of three nodes.
struct Histories {
    zero: NewHistory,
    one: NewHistory,
    two: NewHistory,
}

/// Runs three new nodes, whose published boards have these names: whether they are whole and agree.
fn run_named<
    A: BoardName + Send + Sync,
    B: BoardName + Send + Sync,
    C: BoardName + Send + Sync,
    R: Threads + Wait + Clock + Drop + Copy + Send + Sync,
>(
    rt: &R,
    alloc: Global,
    histories: Histories,
    domain: &Domain,
    inboxes: &[Inbox],
    meeting: &Meeting,
) -> bool
    requires book_0 { histories.zero.seen.book ≡ A.book }
    requires book_1 { histories.one.seen.book ≡ B.book }
    requires book_2 { histories.two.seen.book ≡ C.book }
    requires domain_0 { domain.now ≡ A.domain }
    requires domain_1 { domain.now ≡ B.domain }
    requires domain_2 { domain.now ≡ C.domain }
{
    let Histories { zero, one, two } = histories;
    run_three(
        rt,
        ||
            requires book { zero.seen.book ≡ A.book }
            requires domain { domain.now ≡ A.domain }
        { run_primary::<A, R>(rt, alloc, zero, domain, meeting, inboxes) },
        ||
            requires book { one.seen.book ≡ B.book }
            requires domain { domain.now ≡ B.domain }
        { run_node::<B, R>(rt, alloc, one, 1, domain, None, inboxes) },
        ||
            requires book { two.seen.book ≡ C.book }
            requires domain { domain.now ≡ C.domain }
        { run_node::<C, R>(rt, alloc, two, 2, domain, None, inboxes) },
    )
}

/// Runs three new nodes around two sessions: whether they are whole and agree, and the sessions saw what they should.
fn run<
    R: Net<Listener = TcpListener, Stream = TcpStream>
        + Threads
        + Wait
        + Clock
        + Drop
        + Copy
        + Send
        + Sync,
>(rt: &R, alloc: Global) -> Result<bool, WantOfMemory> {
    let (Ok(domain), Ok(loopback)) = (Domain::new(alloc, "desk.example"), Loopback::open(rt)) else {
        return Err(WantOfMemory);
    };
    let meeting = Meeting {
        flag: Flag::new(),
        loopback,
    };
    let inboxes = open_inboxes(alloc)?;
    let histories = Histories {
        zero: NewHistory::new(),
        one: NewHistory::new(),
        two: NewHistory::new(),
    };
    Ok(run_named::<Brand, Brand, Brand, R>(
        rt,
        alloc,
        histories,
        &domain,
        inboxes.as_slice(),
        &meeting,
    ))
}

#[test]
fn two_sessions_at_once(rt: HostRuntime) -> Result<(), Fail> {
    let alloc = rt.alloc();
    assert!(rt; run(&rt, alloc) == Ok(true));
    Ok(())
}
