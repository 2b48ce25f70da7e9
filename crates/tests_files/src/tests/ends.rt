//! How a node in its second epoch ends, and what is printed of its files.

ghost use Rattle.std.specs.Prelude.{◌≡◌};

use super::databases::Databases;
use super::files::{MOST, NodeFiles, Trial, WORDS, run_of};
use super::tried::{Tried, passes_in_memory};
use desk_epoch_stores::EndedStores;
use desk_types::Refusal;
use std::alloc::Global;
use tests_streams::Sink;

/// How a node ends.
#[derive(Clone, Copy)]
enum End {
    Well,
    /// Its store fails.
    Fails,
    /// Another node was named for its number.
    Stopped,
    /// The file after the next one is another's, so the next one is not opened.
    FailsAhead,
}

/// What is printed of a node in whose place another acts.
const REPLACED: &str = "desk: 34 NodeStopped\ndesk: another node acts in the place of this one\n";

/// How a node ends, with which exit status, and what is printed then.
const ROWS: &[(End, u8, &str)] = &[
    (End::Well, 0, ""),
    (
        End::Fails,
        1,
        concat!(
            "desk: 41 StoreFault\ndesk: desk.1 can not be read or written, or a view, an index or a ",
            "foreign key in it names node, entry or client\n"
        ),
    ),
    (End::Stopped, 1, REPLACED),
    (
        End::FailsAhead,
        1,
        "desk: 45 WrongFile\ndesk: desk.3 is used, though the epoch before it has not ended\n",
    ),
];

/// The outcome of a node that ends so.
fn outcome(end: End) -> Result<(), Refusal> {
    match end {
        End::Well => Ok(()),
        End::Stopped => Err(Refusal::NodeStopped),
        End::Fails | End::FailsAhead => Err(Refusal::StoreFault),
    }
}

/// A node in its second epoch, which has opened the third one where it can.
fn running<F: NodeFiles + Drop>(alloc: Global, end: End) -> Option<EndedStores<F, F::Store>> {
    let mut databases = run_of::<F>(alloc, &[MOST, 1])?;
    if matches!(end, End::FailsAhead) {
        databases.rename("desk", "desk.3")?;
    }
    let mut stores = F::of(alloc, databases, WORDS)?;
    let current = stores.open(1).ok()?;
    let next = stores.open(2).ok();
    Some(EndedStores {
        stores,
        epoch: 1,
        current,
        next,
    })
}

/// Whether a node ends as a row says: with which exit status, and what is printed.
fn ends_as<F: NodeFiles + Drop>(alloc: Global, row: &(End, u8, &str)) -> bool {
    let mut sink = Sink::whole(Vec::new(alloc));
    let Some(ended) = running::<F>(alloc, row.0) else {
        return false;
    };
    let status = F::end(ended, outcome(row.0), &mut sink);
    status == row.1 && sink.bytes.as_slice() == row.2.as_bytes()
}

/// Whether this is printed of a start that is refused so, where no file is.
fn is_printed<F: NodeFiles + Drop>(alloc: Global, refusal: &Refusal, wanted: &str) -> bool {
    let Some(files) = F::of(alloc, F::Databases::empty(alloc), WORDS) else {
        return false;
    };
    let mut sink = Sink::whole(Vec::new(alloc));
    files.print(&mut sink, refusal);
    sink.bytes.as_slice() == wanted.as_bytes()
}

/// What is printed of a node.
#[derive(Clone, Copy)]
pub enum Printed {
    /// At its end, by a row.
    End(usize),
    /// At a start in whose place another node acts.
    ReplacedStart,
}

impl Trial for Printed {
    fn passes<F: NodeFiles + Drop>(&self, alloc: Global) -> bool {
        match self {
            Printed::End(index) => match ROWS.get(*index) {
                Some(row) => ends_as::<F>(alloc, row),
                None => false,
            },
            Printed::ReplacedStart => is_printed::<F>(alloc, &Refusal::NodeStopped, REPLACED),
        }
    }
}

#[test]
fn an_end_is_reported_by_the_file_that_ended_it(rt: HostRuntime) {
    for index in 0..ROWS.len() {
        assert!(rt;
            passes_in_memory(rt.alloc(), Tried::Printed(Printed::End(index))),
            "{index}"
        );
    }
}

#[test]
fn a_start_of_a_replaced_node_is_reported_as_that(rt: HostRuntime) {
    assert!(rt; passes_in_memory(rt.alloc(), Tried::Printed(Printed::ReplacedStart)));
}
