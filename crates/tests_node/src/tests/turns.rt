//! A keeper's items that wait in its mailbox, and are done in turns: what goes out, in order, and what a session is
//! told.

ghost use Rattle.std.specs.Prelude.{◌≡◌};

use super::keeping::{Given, Made, put_all};
use super::near::{Drives, Heard, Serves, drive_over};
use desk_log::MemoryStore;
use desk_threads::{BoardName, Item, NewHistory, TURN_ITEMS};
use desk_types::Domain;
use std::alloc::Global;
use std::marker::Brand;
use std::sync::Wait;

/// Two clients ask in one session, and node 1 answers for both of them.
const COMMITTED: &[Given] = &[Given::Request(7), Given::Request(8), Given::Answer(2)];

/// A stop comes after an answer, or before it. No item after a stop is done.
const STOPPED: &[Given] = &[
    Given::Request(7),
    Given::Answer(1),
    Given::Stop,
    Given::Request(8),
];

const STOPPED_BEFORE: &[Given] = &[Given::Request(7), Given::Stop, Given::Answer(1)];

/// No sender is left while a request is open.
const LEFT_OPEN: &[Given] = &[Given::Request(7)];

/// A tick has the open entry sent again, after what was sent before.
const TICKED: &[Given] = &[Given::Request(7), Given::Tick, Given::Answer(1)];

/// What is in a mailbox that is closed, how many items a turn has at most, the packets that go out (`Sent::order`), and
/// what the session is told.
const ROWS: &[(&[Given], u64, u64, Heard)] = &[
    (COMMITTED, 1, 111_210_212_224_252, Heard::Published),
    (COMMITTED, 2, 111_210_212_224_252, Heard::Published),
    (COMMITTED, 64, 111_210_212_224_252, Heard::Published),
    (STOPPED, 1, 111_214_151, Heard::Published),
    (STOPPED, 64, 111_214_151, Heard::Published),
    (STOPPED_BEFORE, 1, 11_121, Heard::Refused(34)),
    (STOPPED_BEFORE, 64, 11_121, Heard::Refused(34)),
    (LEFT_OPEN, 1, 11_121, Heard::Refused(34)),
    (LEFT_OPEN, 64, 11_121, Heard::Refused(34)),
    (TICKED, 1, 11_121_112_140_504_151, Heard::Published),
    (TICKED, 64, 11_121_112_140_504_151, Heard::Published),
];

/// Turns of a new keeper, and what came of them.
#[derive(Clone, Copy)]
struct Turns {
    items: &'static [Given],
    most: u64,
    made: Made,
    order: u64,
    heard: Heard,
}

impl Drives for Turns {
    fn drive<N: Serves>(&mut self, alloc: Global, near: N) -> N {
        let near = put_all(alloc, near, self.items).close();
        let (near, made, sent) = near.do_turns(self.most);
        self.made = made;
        self.order = sent.order;
        self.heard = near.hear();
        near
    }
}

/// What comes of the turns of a keeper over a store in memory, by the name of its board.
fn do_named<D: Drives, B: BoardName, R: Wait + Drop + Copy>(
    rt: R,
    alloc: Global,
    history: NewHistory,
    domain: &Domain,
    turns: &mut D,
)
    requires book { history.seen.book ≡ B.book }
    requires domain { domain.now ≡ B.domain }
{
    let store = MemoryStore::new(alloc);
    let left = drive_over::<D, B, _, R>(turns, rt, alloc, history, domain, store);
    drop(left);
}

/// Three clients ask in one session, which takes no word before the stop. Its channel has room for two.
const UNHEARD: &[Given] = &[
    Given::Request(7),
    Given::Answer(1),
    Given::Request(8),
    Given::Answer(2),
    Given::Request(9),
    Given::Answer(3),
    Given::Stop,
];

/// What a session is told at last that took no word for a while.
#[derive(Clone, Copy)]
struct LateWords {
    most: u64,
    /// What it takes then, one word after the other, and the last after the item that comes next.
    heard: (Heard, Heard, Heard, Heard),
}

impl Drives for LateWords {
    fn drive<N: Serves>(&mut self, alloc: Global, near: N) -> N {
        let near = put_all(alloc, near, UNHEARD);
        let (near, _, _) = near.do_turns(self.most);
        let (first, second, third) = (near.hear(), near.hear(), near.hear());
        let (near, _, _) = near.do_item(Item::Tick);
        self.heard = (first, second, third, near.hear());
        near
    }
}

/// The packets that turns hand out, and what they tell the session, where all is done.
fn done<R: Wait + Drop + Copy>(
    rt: R,
    alloc: Global,
    items: &'static [Given],
    most: u64,
) -> Option<(u64, Heard)> {
    let mut turns = Turns {
        items,
        most,
        made: Made::Refused,
        order: 0,
        heard: Heard::Nothing,
    };
    let domain = Domain::new(alloc, "desk.example").ok()?;
    do_named::<Turns, Brand, R>(rt, alloc, NewHistory::new(), &domain, &mut turns);
    if turns.made == Made::Done {
        Some((turns.order, turns.heard))
    } else {
        None
    }
}

#[test]
fn turns_hand_out_and_tell_what_their_items_make_one_by_one(rt: HostRuntime) {
    let alloc = rt.alloc();
    for &(items, most, wanted, heard) in ROWS {
        let (order, reported) = done(rt, alloc, items, most).unwrap_or((0, Heard::Nothing));
        assert!(rt; order == wanted, "{most}: {order}");
        assert!(rt; reported == heard, "{most}: {order}");
    }
}

/// Whether a word for which a session's channel has no room is told once there is.
fn is_told_later<R: Wait + Drop + Copy>(rt: R, alloc: Global, most: u64) -> Option<bool> {
    let mut words = LateWords {
        most,
        heard: (
            Heard::Nothing,
            Heard::Nothing,
            Heard::Nothing,
            Heard::Nothing,
        ),
    };
    let domain = Domain::new(alloc, "desk.example").ok()?;
    do_named::<LateWords, Brand, R>(rt, alloc, NewHistory::new(), &domain, &mut words);
    Some(matches!(
        words.heard,
        (
            Heard::Published,
            Heard::Published,
            Heard::Nothing,
            Heard::Published
        )
    ))
}

#[test]
fn a_word_without_room_is_told_at_the_next_item(rt: HostRuntime) {
    let alloc = rt.alloc();
    for most in [1, 2] {
        assert!(rt; is_told_later(rt, alloc, most) == Some(true), "{most}");
    }
}

/// The nodes of `desk serve` and `desk cluster` are started by one function, which hands on this number:
/// `scripts/faults/sends-after-saves` finds saves of several entries.
#[test]
fn turns_of_the_program_have_64_items_at_most(rt: HostRuntime) {
    assert!(rt; TURN_ITEMS == 64, "{TURN_ITEMS}");
}
