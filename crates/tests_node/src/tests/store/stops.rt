//! A node that is stopped at each call of a file in turn, and what its next open finds.

use super::disks::{Disks, Fuses, Trial, UNOPENED, copies, crash, empty_disks, run_on_disks};
use super::{
    FIRST, INITIAL, INITIAL_ROWS, NODE_1, OF_THREE_ENTRIES, OF_TWO_ENTRIES, OF_VIEW_5, OTHER,
    SECOND, SET_BACK, State, TWO_ROWS, has_rows, load, open_file, save, says, use_file,
};
use desk_saved::SavedState;
use sqlite::{Alter, Connection, Files};
use sqlite_disk::Crash;
use std::alloc::Global;

/// `OF_TWO_ENTRIES` in the next view.
const OF_NEXT_VIEW: State = State {
    view: 5,
    normal: 2,
    entries: &[FIRST, SECOND],
    commit: 1,
};

/// `OF_TWO_ENTRIES` with both of them committed.
const OF_COMMIT_2: State = State {
    view: 4,
    normal: 2,
    entries: &[FIRST, SECOND],
    commit: 2,
};

/// The log is the first entry alone.
const OF_ONE_ENTRY: State = State {
    view: 6,
    normal: 6,
    entries: &[FIRST],
    commit: 1,
};

/// No entry stands where it stood.
const OF_OTHER_ENTRIES: State = State {
    view: 7,
    normal: 7,
    entries: &[SECOND, OTHER, FIRST],
    commit: 0,
};

/// What a node does when it is stopped.
#[derive(Clone, Copy)]
pub enum Action {
    /// It opens a database without a table.
    Open,
    /// It opens a file of version 1 of two entries.
    Grow,
    /// It opens the file of a state, and saves another.
    Save(State, State),
    /// It opens the file of a state, and loads it.
    Load(State),
}

/// The states before an action and after it.
fn states_of(action: &Action) -> (State, State) {
    match action {
        Action::Open => (INITIAL, INITIAL),
        Action::Grow => (OF_TWO_ENTRIES, OF_TWO_ENTRIES),
        Action::Save(old, new) => (*old, *new),
        Action::Load(state) => (*state, *state),
    }
}

/// What is saved after what else.
pub const SAVES: &[(&str, Action)] = &[
    ("first entries", Action::Save(INITIAL, OF_TWO_ENTRIES)),
    ("append", Action::Save(OF_TWO_ENTRIES, OF_THREE_ENTRIES)),
    ("next view", Action::Save(OF_TWO_ENTRIES, OF_NEXT_VIEW)),
    ("commit", Action::Save(OF_TWO_ENTRIES, OF_COMMIT_2)),
    ("other end", Action::Save(OF_TWO_ENTRIES, OF_VIEW_5)),
    ("shorter log", Action::Save(OF_THREE_ENTRIES, OF_ONE_ENTRY)),
    ("other log", Action::Save(OF_TWO_ENTRIES, OF_OTHER_ENTRIES)),
    // Client 9 keeps its earlier entry.
    ("cut log", Action::Save(OF_THREE_ENTRIES, OF_TWO_ENTRIES)),
];

/// Saves a state: 0, or 41 where the object answers 34 from then on. Anything else is 255.
fn save_or_stop<S: Alter>(alloc: Global, file: &mut SavedState<S>, state: &State) -> u8 {
    let answer = save(alloc, file, state);
    if answer == 0 {
        return 0;
    }
    let again = save(alloc, file, state);
    let loaded = load(alloc, file, state);
    if (answer, again, loaded) == (41, 34, 34) {
        41
    } else {
        255
    }
}

/// Loads a state: 0, in a second try where memory is refused in the first, or 41 where the object answers 34 from then
/// on. Anything else is 255.
fn load_or_stop<S: Alter>(alloc: Global, file: &mut SavedState<S>, state: &State) -> u8 {
    let answer = load(alloc, file, state);
    if answer == 0 {
        return 0;
    }
    // What is loaded is compared with the state, which takes memory too: that is 255.
    let again = load(alloc, file, state);
    match (answer, again) {
        (40 | 255, 0) => 0,
        (41, 34) => 41,
        _ => 255,
    }
}

/// Acts: 0, or the number of the refusal, and the database.
fn act<S: Alter>(alloc: Global, connection: Connection<S>, action: &Action) -> (u8, Connection<S>) {
    match open_file(alloc, connection, &NODE_1) {
        Ok(mut file) => {
            let answer = match action {
                Action::Open | Action::Grow => 0,
                Action::Save(_, new) => save_or_stop(alloc, &mut file, new),
                Action::Load(state) => load_or_stop(alloc, &mut file, state),
            };
            (answer, file.into_connection())
        }
        Err(refused) => refused,
    }
}

/// Whether the database has no table, or all three with the rows of a node that has done nothing. After the answer 0
/// it has them.
fn is_left_by_open<S: Alter>(connection: &mut Connection<S>, answer: u8) -> bool {
    if connection.schema().tables.as_slice().is_empty() {
        return answer != 0;
    }
    has_rows(connection, INITIAL_ROWS)
}

/// Whether the file is that of version 1, or one of version 2 with the rows of its clients. After the answer 0 it is
/// that.
fn is_left_by_growth<S: Alter>(connection: &mut Connection<S>, answer: u8) -> bool {
    if says(
        connection,
        "SELECT group_concat(name) FROM sqlite_schema",
        "node,entry",
    ) {
        return answer != 0 && says(connection, "SELECT version || '' FROM node", "1");
    }
    has_rows(connection, TWO_ROWS)
}

/// Whether the database is what an action may leave that makes tables.
fn is_left<S: Alter>(connection: &mut Connection<S>, action: &Action, answer: u8) -> bool {
    match action {
        Action::Open => is_left_by_open(connection, answer),
        Action::Grow => is_left_by_growth(connection, answer),
        Action::Save(..) | Action::Load(_) => true,
    }
}

/// Whether the next open finds the state before the action or after it: 0, or 255, and the database. After the answer
/// 0 it finds that after it.
fn find<S: Alter>(
    alloc: Global,
    mut connection: Connection<S>,
    action: &Action,
    answer: u8,
) -> (u8, Connection<S>) {
    if !is_left(&mut connection, action, answer) {
        return (255, connection);
    }
    let (old, new) = states_of(action);
    let (new_answer, connection) = use_file(alloc, connection, &NODE_1, &new, &[]);
    let (old_answer, connection) = use_file(alloc, connection, &NODE_1, &old, &[]);
    let is_found = new_answer == 0 || (answer != 0 && old_answer == 0);
    (if is_found { 0 } else { 255 }, connection)
}

/// What is done with a database.
#[derive(Clone, Copy)]
pub enum Task {
    Act(Action),
    /// It looks for what an action with this answer may leave.
    Find(Action, u8),
    /// It makes the file of a state one of version 1.
    SetBack,
}

impl Trial for Task {
    fn run<S: Alter>(&self, alloc: Global, connection: Connection<S>) -> (u8, Connection<S>) {
        match self {
            Task::Act(action) => act(alloc, connection, action),
            Task::Find(action, answer) => find(alloc, connection, action, *answer),
            Task::SetBack => set_back(connection),
        }
    }
}

/// Makes the file of a state one of version 1: 0, or 255, and the database.
fn set_back<S: Alter>(mut connection: Connection<S>) -> (u8, Connection<S>) {
    let is_set = connection.execute_batch(SET_BACK).is_ok();
    (if is_set { 0 } else { 255 }, connection)
}

/// The answer of an action on these files, or 255 where the next open finds something else than it may. Before it the
/// files lose what is not synced.
fn answer_of<D: Crash + Drop>(alloc: Global, disks: Files<D>, action: &Action) -> u8 {
    let (answer, mut disks) = run_on_disks(alloc, disks, &Task::Act(*action));
    crash(&mut disks);
    let (found, disks) = run_on_disks(alloc, disks, &Task::Find(*action, answer));
    drop(disks);
    if found == 0 { answer } else { 255 }
}

/// The files before an action.
pub fn disks_before(alloc: Global, action: &Action) -> Option<Disks> {
    let disks = empty_disks(alloc);
    if matches!(action, Action::Open) {
        return Some(disks);
    }
    let (old, _) = states_of(action);
    let (answer, disks) = run_on_disks(alloc, disks, &Task::Act(Action::Save(INITIAL, old)));
    let (set_back, disks) = match action {
        Action::Grow => run_on_disks(alloc, disks, &Task::SetBack),
        _ => (0, disks),
    };
    if (answer, set_back) == (0, 0) {
        Some(disks)
    } else {
        None
    }
}

/// The answer of an action on copies of these files, as `answer_of` gives it.
fn answer_within(alloc: Global, before: &Disks, action: &Action, fuses: Fuses) -> u8 {
    match copies(alloc, before, fuses) {
        Some(disks) => answer_of(alloc, disks, action),
        None => 255,
    }
}

/// The file that stops.
#[derive(Clone, Copy)]
enum Side {
    Log,
    Database,
}

/// Only one of the files stops.
fn fuses_of(side: Side, calls: u64) -> Fuses {
    match side {
        Side::Log => Fuses {
            log: calls,
            db: u64::MAX,
        },
        Side::Database => Fuses {
            log: u64::MAX,
            db: calls,
        },
    }
}

/// Stops an action at each call of a file in turn, until it ends by itself: how many stops came after the database was
/// open. Each of these is 41. It is None where an answer is another, or the next open finds something else than it may.
fn stops(alloc: Global, action: &Action, side: Side) -> Option<u64> {
    let before = disks_before(alloc, action)?;
    let mut stops = 0u64;
    for calls in 0..1_000u64 {
        match answer_within(alloc, &before, action, fuses_of(side, calls)) {
            0 => return Some(stops),
            41 => stops = stops.saturating_add(1),
            UNOPENED => {}
            _ => return None,
        }
    }
    None
}

/// Whether an action is stopped at some call of each file, and each stop leaves the old state or the new one.
fn is_stopped_well(alloc: Global, action: &Action) -> bool {
    let of_log = stops(alloc, action, Side::Log).unwrap_or(0);
    let of_database = stops(alloc, action, Side::Database).unwrap_or(0);
    of_log > 0 && of_database > 0
}

#[test]
fn an_open_that_stops_leaves_no_table_or_both(rt: HostRuntime) {
    assert!(rt; is_stopped_well(rt.alloc(), &Action::Open));
}

#[test]
fn a_stop_leaves_the_file_of_version_1_or_that_of_version_2(rt: HostRuntime) {
    assert!(rt; is_stopped_well(rt.alloc(), &Action::Grow));
}

#[test]
fn a_stop_leaves_the_old_state_or_the_new(rt: HostRuntime) {
    for (name, action) in SAVES {
        assert!(rt; is_stopped_well(rt.alloc(), action), "{name}");
    }
}
