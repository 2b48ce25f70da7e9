//! The files of node 0, as epochs leave them.

ghost use Rattle.std.specs.Prelude.{◌≡◌};

use super::databases::Databases;
use desk_codec::get_entry;
use desk_epoch_files::{EndedFiles, EpochFiles, NamedDatabases};
use desk_epoch_stores::{EndedStores, EpochStores};
use desk_log::{Log, Saved, StateStore};
use desk_saved::SavedState;
use desk_types::{Domain, Entry, Owner, Refusal};
use std::alloc::{AllocError, Global};
use tests_streams::Sink;

/// How many entries an epoch has.
pub const MOST: u64 = 4;

/// The name of the first file.
const FILE: &str = "desk";

/// What stands after the client and the number of a request to open an incident for a fire at 12 Elm St.
const OPEN: &[u8] = b"\0\x1a\x01\0\0\0\0\x69\xa4\x2a\x40\x04fire\x0912 Elm St\0\0";

/// The same of one that names another node for number 1, by its token 5.
const REPLACE: &[u8] = b"\0\x12\x11\0\0\0\0\x69\xa4\x2a\x40\x01\0\0\0\0\0\0\0\x05";

fn put_request(bytes: &mut Vec<u8>, number: u64, body: &[u8]) -> Result<(), AllocError> {
    bytes.extend_from_slice(&7u64.to_be_bytes())?;
    bytes.extend_from_slice(&number.to_be_bytes())?;
    bytes.extend_from_slice(body)
}

fn entry(alloc: Global, number: u64, body: &[u8]) -> Option<Entry> {
    let mut bytes = Vec::new(alloc);
    put_request(&mut bytes, number, body).ok()?;
    match get_entry(alloc, bytes.as_slice()) {
        Ok((entry, _)) => Some(entry),
        Err(_) => None,
    }
}

/// A state whose entries are all committed: so many requests of client 7, the last of them with this body.
fn state(alloc: Global, count: u64, last: &[u8]) -> Option<Saved> {
    let mut log = Log::new(alloc);
    for number in 1..=count {
        let body = if number == count { last } else { OPEN };
        log.append(entry(alloc, number, body)?).ok()?;
    }
    let commit = log.len();
    Some(Saved::new(0, 0, log, commit))
}

/// A node of a group.
#[derive(Clone, Copy)]
pub struct Node {
    pub id: u8,
    pub n: u8,
    pub domain: &'static str,
}

pub const NODE_0: Node = Node {
    id: 0,
    n: 3,
    domain: "desk.example",
};

/// Which files a node has: how many entries its epochs have, and whether an operator asks for a second file.
#[derive(Clone, Copy)]
pub struct Words {
    pub node: Node,
    pub most: u64,
    pub adds_second: bool,
}

/// Node 0, without a second file.
pub const WORDS: Words = Words {
    node: NODE_0,
    most: MOST,
    adds_second: false,
};

/// The files of a node over databases that a test changes. What the tests do with them is generic over both: a proof
/// takes longer where their types are known.
pub trait NodeFiles: EpochStores {
    type Databases: Databases + Drop;

    /// The files of a node, in these databases.
    fn of(alloc: Global, databases: Self::Databases, words: Words) -> Option<Self>;

    /// The token of the node, where this one is named.
    fn start(&mut self, given: Option<u64>) -> Result<u64, Refusal>;

    /// Prints why a start was refused.
    fn print(&self, sink: &mut Sink, refusal: &Refusal);

    /// Prints how a node ended, and answers its exit status.
    fn end(
        ended: EndedStores<Self, Self::Store>,
        outcome: Result<(), Refusal>,
        sink: &mut Sink,
    ) -> u8;

    /// The databases.
    fn into_parts(self) -> Self::Databases;
}

impl<D: NamedDatabases + Databases + Drop> NodeFiles for EpochFiles<D> {
    type Databases = D;

    fn of(alloc: Global, databases: D, words: Words) -> Option<EpochFiles<D>> {
        let owner = Owner {
            id: words.node.id,
            n: words.node.n,
            domain: Domain::new(alloc, words.node.domain).ok()?,
        };
        let file = String::from_str(alloc, FILE).ok()?;
        Some(EpochFiles::new(alloc, databases, file, owner, words.most, words.adds_second))
    }

    fn start(&mut self, given: Option<u64>) -> Result<u64, Refusal> {
        self.start_member(given)
    }

    fn print(&self, sink: &mut Sink, refusal: &Refusal) {
        let _ = self.refusal_status(sink, refusal);
    }

    fn end(
        ended: EndedStores<EpochFiles<D>, SavedState<D::Pages>>,
        outcome: Result<(), Refusal>,
        sink: &mut Sink,
    ) -> u8 {
        EndedFiles::of_node(ended, outcome).status(sink)
    }

    fn into_parts(self) -> D {
        self.into_databases()
    }
}

/// What is tried with the files of a node, whatever databases these are in.
pub trait Trial {
    /// Whether it ends as it should.
    fn passes<F: NodeFiles + Drop>(&self, alloc: Global) -> bool;
}

/// Saves a state in an epoch: whether it was saved and its file closed.
fn save_epoch<T: EpochStores>(stores: &mut T, epoch: u64, state: &Saved) -> bool {
    let Ok(mut store) = stores.open(epoch) else {
        return false;
    };
    let is_saved = store.save_state(state, 0).is_ok();
    stores.close(epoch, store) && is_saved
}

/// Which entries a node has committed: so many of each epoch, the last of each with this body.
#[derive(Clone, Copy)]
struct Committed<'a> {
    counts: &'a [u64],
    last: &'static [u8],
}

/// Saves the states of a node in its epochs, one after the other.
fn save_all<T: EpochStores>(alloc: Global, stores: &mut T, committed: Committed) -> Option<()> {
    let mut epoch = 0u64;
    for count in committed.counts {
        let state = state(alloc, *count, committed.last)?;
        if !save_epoch(stores, epoch, &state) {
            return None;
        }
        epoch = epoch.saturating_add(1);
    }
    Some(())
}

/// What databases hold after a node has committed entries.
fn run_with<F: NodeFiles + Drop>(alloc: Global, committed: Committed) -> Option<F::Databases> {
    let mut files = F::of(alloc, F::Databases::empty(alloc), WORDS)?;
    save_all(alloc, &mut files, committed)?;
    Some(files.into_parts())
}

/// What databases hold after node 0 has committed so many entries of each epoch.
pub fn run_of<F: NodeFiles + Drop>(alloc: Global, counts: &[u64]) -> Option<F::Databases> {
    run_with::<F>(alloc, Committed { counts, last: OPEN })
}

/// The same where the last entry of each epoch names another node.
pub fn replaced_run<F: NodeFiles + Drop>(alloc: Global, counts: &[u64]) -> Option<F::Databases> {
    run_with::<F>(
        alloc,
        Committed {
            counts,
            last: REPLACE,
        },
    )
}
