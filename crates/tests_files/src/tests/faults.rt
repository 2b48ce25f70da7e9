//! Files that are missing, another node's or of another epoch, and what is printed of them.

ghost use Rattle.std.specs.Prelude.{◌≡◌};

use super::databases::Databases;
use super::files::{MOST, NODE_0, Node, NodeFiles, Trial, WORDS, Words, run_of};
use super::starts::{Start, start};
use super::tried::{Tried, passes_in_memory};
use desk_epoch_stores::{EpochStores, OpenedEpoch};
use desk_types::Refusal;
use std::alloc::Global;
use tests_streams::Sink;

/// What is done to the files of three epochs, of which the third has not ended.
#[derive(Clone, Copy)]
enum Damage {
    None,
    /// The file of this name is lost.
    Lose(&'static str),
    /// The files of these names have each other's.
    Swap(&'static str, &'static str),
    /// The file of this name has no byte more.
    Cut(&'static str),
}

impl Damage {
    fn does<D: Databases>(self, databases: &mut D) -> Option<()> {
        match self {
            Damage::None => Some(()),
            Damage::Lose(name) => databases.rename(name, "lost"),
            Damage::Swap(one, other) => {
                databases.rename(one, "swapped")?;
                databases.rename(other, one)?;
                databases.rename("swapped", other)
            }
            Damage::Cut(name) => databases.cut(name),
        }
    }
}

/// What is done to the files, which node starts with them, and what is printed then.
type Row = (Damage, Node, &'static str);

const OTHERS_NODE: Node = Node {
    id: 1,
    n: 3,
    domain: "desk.example",
};

const OTHERS_GROUP: Node = Node {
    id: 0,
    n: 5,
    domain: "desk.example",
};

const OTHERS_DOMAIN: Node = Node {
    id: 0,
    n: 3,
    domain: "other.example",
};

const ROWS: &[Row] = &[
    (
        Damage::Lose("desk.1"),
        NODE_0,
        "desk: 45 WrongFile\ndesk: desk.1 is missing\n",
    ),
    (
        Damage::Lose("desk.2"),
        NODE_0,
        "desk: 45 WrongFile\ndesk: desk.2 is missing\n",
    ),
    // The first file is made anew, and the second one is not a new one.
    (
        Damage::Lose("desk"),
        NODE_0,
        "desk: 45 WrongFile\ndesk: desk.1 is used, though the epoch before it has not ended\n",
    ),
    (
        Damage::Swap("desk.1", "desk.2"),
        NODE_0,
        "desk: 45 WrongFile\ndesk: desk.1 is not the file of its epoch\n",
    ),
    (
        Damage::Swap("desk", "desk.1"),
        NODE_0,
        "desk: 45 WrongFile\ndesk: desk is not the file of its epoch\n",
    ),
    (
        Damage::Cut("desk.2"),
        NODE_0,
        "desk: 45 WrongFile\ndesk: desk.2 is not the file of its epoch\n",
    ),
    (
        Damage::None,
        OTHERS_NODE,
        concat!(
            "desk: 45 WrongFile\ndesk: desk holds no saved state of node 1 of 3 with this domain: ",
            "it is of version 2, node 0 of 3, domain desk.example\n"
        ),
    ),
    (
        Damage::None,
        OTHERS_GROUP,
        concat!(
            "desk: 45 WrongFile\ndesk: desk holds no saved state of node 0 of 5 with this domain: ",
            "it is of version 2, node 0 of 3, domain desk.example\n"
        ),
    ),
    (
        Damage::None,
        OTHERS_DOMAIN,
        concat!(
            "desk: 45 WrongFile\ndesk: desk holds no saved state of node 0 of 3 with this domain: ",
            "it is of version 2, node 0 of 3, domain desk.example, so the domain is another, or the rows are no ",
            "saved state\n"
        ),
    ),
];

/// Why a node does not start with its files; nothing where it does.
fn refusal_of<T: EpochStores>(alloc: Global, files: &mut T) -> Option<Refusal> {
    match OpenedEpoch::current(alloc, files, MOST) {
        Ok(opened) => {
            drop(opened);
            None
        }
        Err(refusal) => Some(refusal),
    }
}

/// The files of a row.
fn files_of<F: NodeFiles + Drop>(alloc: Global, row: &Row) -> Option<F> {
    let mut databases = run_of::<F>(alloc, &[MOST, MOST, 2])?;
    row.0.does(&mut databases)?;
    let node = row.1;
    F::of(alloc, databases, Words { node, ..WORDS })
}

/// Whether that of a row is printed where a node does not start with its files.
fn is_refused<F: NodeFiles + Drop>(alloc: Global, row: &Row) -> bool {
    let Some(mut files) = files_of::<F>(alloc, row) else {
        return false;
    };
    let Some(refusal) = refusal_of(alloc, &mut files) else {
        return false;
    };
    let mut sink = Sink::whole(Vec::new(alloc));
    files.print(&mut sink, &refusal);
    sink.bytes.as_slice() == row.2.as_bytes()
}

/// A first file that has ended, as a desk of one file leaves it, and with a third one where `has_third`.
fn ended_file<F: NodeFiles + Drop>(alloc: Global, has_third: bool) -> Option<F::Databases> {
    let mut databases = run_of::<F>(alloc, &[MOST, 1])?;
    databases.rename("desk.1", "lost")?;
    if !has_third {
        databases.rename("desk.2", "lost")?;
    }
    Some(databases)
}

/// Where a node starts with such files, or the number of the refusal, where an operator asks for a second one or not.
fn start_ended<F: NodeFiles + Drop>(
    alloc: Global,
    has_third: bool,
    adds_second: bool,
) -> Option<Result<Start, u8>> {
    let databases = ended_file::<F>(alloc, has_third)?;
    let words = Words {
        adds_second,
        ..WORDS
    };
    let mut files = F::of(alloc, databases, words)?;
    Some(start(alloc, &mut files))
}

/// Whether such files have a third one, whether an operator asks for a second one, and where a node starts then.
const SECOND: &[(bool, bool, Result<Start, u8>)] = &[
    (false, false, Err(45)),
    (false, true, Ok((1, 4, 0))),
    (true, true, Err(45)),
];

/// A start over files that are not as a node left them, by a row.
#[derive(Clone, Copy)]
pub enum Faulty {
    Files(usize),
    Second(usize),
}

impl Trial for Faulty {
    fn passes<F: NodeFiles + Drop>(&self, alloc: Global) -> bool {
        match self {
            Faulty::Files(index) => match ROWS.get(*index) {
                Some(row) => is_refused::<F>(alloc, row),
                None => false,
            },
            Faulty::Second(index) => match SECOND.get(*index) {
                Some(row) => start_ended::<F>(alloc, row.0, row.1) == Some(row.2),
                None => false,
            },
        }
    }
}

#[test]
fn other_files_are_refused_by_name(rt: HostRuntime) {
    for index in 0..ROWS.len() {
        assert!(rt;
            passes_in_memory(rt.alloc(), Tried::Faulty(Faulty::Files(index))),
            "{index}"
        );
    }
}

#[test]
fn a_second_file_is_added_to_one_that_has_ended(rt: HostRuntime) {
    for index in 0..SECOND.len() {
        assert!(rt;
            passes_in_memory(rt.alloc(), Tried::Faulty(Faulty::Second(index))),
            "{index}"
        );
    }
}
