//! What the tables hold. Which files a node opens is seen of the program, by the rows of tests/answer.

use super::disks::{Trial, answer_of};
use super::{
    FIRST, INITIAL, NODE_1, OF_THREE_ENTRIES, OF_TWO_ENTRIES, OF_VIEW_5, Rows, State, has_rows,
    is_state, load, open_file, save, saved_of, use_file,
};
use desk_saved::SavedState;
use sqlite::{Alter, Connection};
use std::alloc::Global;

/// The rows of the tables of `OF_VIEW_5`.
const VIEW_5_ROWS: Rows = Rows {
    node: "1 2 1 3 desk.example 5 5 2",
    entries: "1 7 1 010000000069A42A400466697265093132\
20456C6D2053740000,2 9 2 0E0000000069A42A40024531,3 9 1 0A0000000069A42A40024531",
    clients: "7 1 1,9 1 3",
};

/// What is tried with a database without a table.
#[derive(Clone, Copy)]
enum Case {
    /// States are saved and loaded.
    Save,
    /// A node opens its file while a transaction is open.
    Begun,
    /// A statement that takes so many steps is a fault, and these are the answers.
    Limit(u64, [u8; 4]),
    /// States are saved after their fronts in turn.
    Follow(&'static [State]),
    /// A state that was saved is copied by a node that opens the file again.
    Copy,
}

impl Trial for Case {
    fn run<S: Alter>(&self, alloc: Global, connection: Connection<S>) -> (u8, Connection<S>) {
        match *self {
            Case::Save => save_and_load(alloc, connection),
            Case::Begun => open_begun(alloc, connection),
            Case::Limit(limit, answers) => use_within(alloc, connection, limit, answers),
            Case::Follow(states) => follow_each(alloc, connection, states),
            Case::Copy => copy_found(alloc, connection),
        }
    }
}

/// An answer where this is so, else 255.
fn answer_where(is_so: bool, answer: u8) -> u8 {
    if is_so { answer } else { 255 }
}

const SAVED: &[State] = &[OF_TWO_ENTRIES, OF_VIEW_5];

/// What a node is answered that saves states, where the rows are those of the last one then, and that opens the
/// database again and finds that.
fn save_and_load<S: Alter>(alloc: Global, empty: Connection<S>) -> (u8, Connection<S>) {
    let (answer, mut connection) = use_file(alloc, empty, &NODE_1, &INITIAL, SAVED);
    let has_saved = has_rows(&mut connection, VIEW_5_ROWS);
    let (again, connection) = use_file(alloc, connection, &NODE_1, &OF_VIEW_5, &[]);
    (answer_where(answer == 0 && has_saved, again), connection)
}

#[test]
fn saves_and_loads(rt: HostRuntime) {
    assert!(rt; answer_of(rt.alloc(), &Case::Save) == 0);
}

/// What a node is answered that opens its file while a transaction is open.
fn open_begun<S: Alter>(alloc: Global, empty: Connection<S>) -> (u8, Connection<S>) {
    let (saved, mut connection) = use_file(alloc, empty, &NODE_1, &INITIAL, SAVED);
    let is_begun = saved == 0 && connection.execute_batch("BEGIN").is_ok();
    let (answer, connection) = use_file(alloc, connection, &NODE_1, &OF_VIEW_5, &[]);
    (answer_where(is_begun, answer), connection)
}

#[test]
fn opens_no_file_in_a_transaction(rt: HostRuntime) {
    assert!(rt; answer_of(rt.alloc(), &Case::Begun) == 41);
}

/// More entries than a query gets to under the limits of steps below.
const OF_300_ENTRIES: State = State {
    view: 1,
    normal: 1,
    entries: &[FIRST; 300],
    commit: 1,
};

/// What a node meets that saves, loads, loads again and saves.
fn use_twice<S: Alter>(alloc: Global, file: &mut SavedState<S>) -> [u8; 4] {
    let saved = save(alloc, file, &OF_300_ENTRIES);
    let loaded = load(alloc, file, &OF_300_ENTRIES);
    let loaded_again = load(alloc, file, &OF_300_ENTRIES);
    let saved_again = save(alloc, file, &OF_VIEW_5);
    [saved, loaded, loaded_again, saved_again]
}

/// What node 1 meets in a database that answers a fault where a statement takes so many steps: 0 where that is this.
fn use_within<S: Alter>(
    alloc: Global,
    mut connection: Connection<S>,
    limit: u64,
    wanted: [u8; 4],
) -> (u8, Connection<S>) {
    connection.set_step_limit(Some(limit));
    match open_file(alloc, connection, &NODE_1) {
        Ok(mut file) => {
            let answers = use_twice(alloc, &mut file);
            (answer_where(answers == wanted, 0), file.into_connection())
        }
        Err((_, connection)) => (255, connection),
    }
}

const LIMITS: &[(u64, [u8; 4])] = &[
    (1, [41, 34, 34, 34]),
    (100, [0, 41, 34, 34]),
    (10_000, [0, 0, 0, 0]),
];

#[test]
fn stops_at_a_fault(rt: HostRuntime) {
    for &(limit, wanted) in LIMITS {
        assert!(rt;
            answer_of(rt.alloc(), &Case::Limit(limit, wanted)) == 0,
            "{limit}"
        );
    }
}

/// The state that was saved last: 0 where it is this one, the number of the refusal, or 255.
fn copy_last<S: Alter>(alloc: Global, file: &SavedState<S>, wanted: &State) -> u8 {
    match file.last_saved() {
        Ok(saved) => {
            let is_wanted = is_state(alloc, &saved, wanted);
            drop(saved);
            if is_wanted { 0 } else { 255 }
        }
        Err(_) => 40,
    }
}

/// Saves a state, after the entries that begin also the log that was saved last: 0, or the number of the refusal.
fn save_after<S: Alter>(alloc: Global, file: &mut SavedState<S>, state: &State) -> u8 {
    let Ok(last) = file.last_saved() else {
        return 40;
    };
    let Some(saved) = saved_of(alloc, state) else {
        drop(last);
        return 255;
    };
    let front = last.log().same_front(saved.log());
    drop(last);
    let answer = match file.save_after(&saved, front) {
        Ok(()) => 0,
        Err(refusal) => refusal.number(),
    };
    drop(saved);
    answer
}

/// What a node meets that saves a state after a front, loads it, and copies the state that it saved last.
fn follow<S: Alter>(alloc: Global, file: &mut SavedState<S>, state: &State) -> [u8; 3] {
    let saved = save_after(alloc, file, state);
    let loaded = load(alloc, file, state);
    let copied = copy_last(alloc, file, state);
    [saved, loaded, copied]
}

/// Whether a node that has done nothing saves states after their fronts in turn, and finds each.
fn follows_each<S: Alter>(alloc: Global, file: &mut SavedState<S>, states: &[State]) -> bool {
    let mut is_followed = copy_last(alloc, file, &INITIAL) == 0;
    for state in states {
        is_followed = follow(alloc, file, state) == [0; 3] && is_followed;
    }
    is_followed
}

/// The same of one that opens a database without a table: 0 where it finds each.
fn follow_each<S: Alter>(
    alloc: Global,
    empty: Connection<S>,
    states: &[State],
) -> (u8, Connection<S>) {
    match open_file(alloc, empty, &NODE_1) {
        Ok(mut file) => {
            let is_followed = follows_each(alloc, &mut file, states);
            (answer_where(is_followed, 0), file.into_connection())
        }
        Err(refused) => refused,
    }
}

/// Entries are appended, cut, and exchanged.
const FOLLOWED: &[State] = &[OF_TWO_ENTRIES, OF_THREE_ENTRIES, OF_TWO_ENTRIES, OF_VIEW_5];

#[test]
fn saves_behind_a_front(rt: HostRuntime) {
    assert!(rt; answer_of(rt.alloc(), &Case::Follow(FOLLOWED)) == 0);
}

/// Whether a node that opens a file again has a copy of the state that it saved there: then 0.
fn copy_found<S: Alter>(alloc: Global, empty: Connection<S>) -> (u8, Connection<S>) {
    let (saved, connection) = use_file(alloc, empty, &NODE_1, &INITIAL, &[OF_TWO_ENTRIES]);
    match open_file(alloc, connection, &NODE_1) {
        Ok(file) => {
            let copied = copy_last(alloc, &file, &OF_TWO_ENTRIES);
            (answer_where(saved == 0, copied), file.into_connection())
        }
        Err(refused) => refused,
    }
}

#[test]
fn copies_the_state_saved_last(rt: HostRuntime) {
    assert!(rt; answer_of(rt.alloc(), &Case::Copy) == 0);
}
