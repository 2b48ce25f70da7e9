//! A replica of three nodes whose epochs end after two entries, with stores that may fail.

ghost use Rattle.std.specs.Prelude.{◌≡◌, IfOk, OnOk};
ghost use Rattle.desk_epoch_replica.specs.Saves.{IsSavedReplica};

use super::epochs::{Comes, TOKEN, event};
use desk_epoch_node::EpochEvent;
use desk_epoch_replica::{EpochAnswer, EpochItem, EpochReplica, ReplicaStep};
use desk_epoch_stores::{EpochStores, OpenedEpoch};
use desk_log::{Saved, StateStore};
use desk_types::{Domain, Owner, Refusal, WantOfMemory};
use std::alloc::Global;

/// A store in memory, which may fail at each save.
#[derive(Drop)]
struct FaultyStore {
    last: Saved,
    fails: bool,
}

impl StateStore for FaultyStore {
    ghost use Rattle.std.specs.Prelude.{false};

    ghost last = { λ store. store.last };

    ghost stopped = { λ _. false };

    ghost keeps = { λ _ _. Unit {0} };

    // It is never opened again.
    ghost leaves = { λ _ _ _. Unit {0} };

    fn copy_last(&self) -> Result<Saved, WantOfMemory> {
        self.last.copy()
    }

    fn save_state(&mut self, saved: &Saved, known: u64) -> Result<(), Refusal> {
        if self.fails {
            return Err(Refusal::StoreFault);
        }
        match self.last.follow(saved, known) {
            Ok(()) => Ok(()),
            Err(_) => Err(Refusal::StoreFault),
        }
    }

    ghost preserved_still = { λ _. tt };

    ghost preserved_further = { λ _ _ _ _ _. tt };
}

/// Opens empty stores, of which that of one epoch fails.
#[derive(Drop)]
struct FaultyStores {
    alloc: Global,
    faulty: u64,
}

impl EpochStores for FaultyStores {
    type Store = FaultyStore;

    ghost may_hold = { λ _ _ _. Unit {0} };

    fn open(&mut self, epoch: u64) -> Result<FaultyStore, Refusal> {
        Ok(FaultyStore {
            last: Saved::initial(self.alloc),
            fails: epoch == self.faulty,
        })
    }

    fn close(&mut self, epoch: u64, store: FaultyStore) -> bool
        ensures alloc { self.new.alloc ≡ self.old.alloc }
    {
        let _ = (epoch, store);
        true
    }
}

/// A replica whose last state is saved.
#[derive(Drop)]
struct Running {
    replica: EpochReplica<FaultyStores>,
    pub ghost saved: { IsSavedReplica ⟦<FaultyStore as StateStore>⟧ replica },
}

/// What comes to a replica, or what its keeper does.
#[derive(Clone, Copy)]
enum Asked {
    Meet(Comes),
    /// So many ticks go by.
    Ticks(u64),
    /// The store of the next epoch is opened.
    Prepare,
    /// The next epoch begins where it is due.
    Begin,
    /// All of a log that it was told is published.
    Publish,
}

/// Node 0 of three with a token at its start, where the store of an epoch fails.
fn start(alloc: Global, faulty: u64, token: u64) -> Option<Running> {
    let mut stores = FaultyStores { alloc, faulty };
    let Ok(opened) = OpenedEpoch::current(alloc, &mut stores, 2) else {
        return None;
    };
    let owner = Owner {
        id: 0,
        n: 3,
        domain: Domain::new(alloc, "desk.example").ok()?,
    };
    let replica = EpochReplica::start(alloc, stores, opened, owner, token).ok()?;
    Some(Running { replica })
}

fn item(alloc: Global, comes: Comes) -> Option<EpochItem> {
    match event(alloc, comes)? {
        EpochEvent::Request(entry) => Some(EpochItem::Request(entry)),
        EpochEvent::Packet(packet) => Some(EpochItem::Packet(packet)),
        EpochEvent::Resend => Some(EpochItem::Tick),
        other => {
            drop(other);
            None
        }
    }
}

/// A word of what comes of an item, with a number that it says.
fn word(step: &ReplicaStep) -> (&'static str, u64) {
    match step {
        ReplicaStep::Nothing => ("nothing", 0),
        ReplicaStep::Own { base, .. } => ("own", *base),
        ReplicaStep::Answer(answer) => match answer {
            EpochAnswer::Committed { place, .. } => ("committed", *place),
            EpochAnswer::Refused { refusal, .. } => ("refused", refusal.number() as u64),
            EpochAnswer::Deferred(_) => ("deferred", 0),
        },
        ReplicaStep::Ask { to, .. } => ("ask", *to as u64),
        ReplicaStep::AskAll { packets, .. } => ("ask all", packets.len() as u64),
        ReplicaStep::Tell { epoch, .. } => ("tell", *epoch),
        ReplicaStep::Began { epoch, .. } => ("began", *epoch),
        ReplicaStep::Replaced => ("replaced", 0),
    }
}

/// What is told of something, or a fault, with a number.
type Told = (&'static str, u64);

/// Does an item and saves what it made.
fn met(running: Running, item: EpochItem) -> Result<(Running, Told), Told> {
    let Running { mut replica } = running;
    let known = replica.committed().len() as u64;
    let told = match replica.act(item) {
        Ok(step) => word(&step),
        Err(_) => ("no memory", 0),
    };
    match replica.save(known) {
        Ok(()) => Ok((Running { replica }, told)),
        Err(_) => Err(("not saved", replica.past_len())),
    }
}

fn ticked(running: Running, ticks: u64) -> Result<(Running, Told), Told> {
    let mut running = running;
    for _tick in 0..ticks {
        let (next, _) = met(running, EpochItem::Tick)?;
        running = next;
    }
    Ok((running, ("ticks", ticks)))
}

fn begun(running: Running) -> Result<(Running, Told), Told> {
    let Running { mut replica } = running;
    match replica.begin_next() {
        Ok(Some(step)) => {
            let told = word(&step);
            Ok((Running { replica }, told))
        }
        Ok(None) => {
            let epoch = replica.node().epoch();
            Ok((Running { replica }, ("goes on", epoch)))
        }
        Err(_) => Err(("not begun", replica.past_len())),
    }
}

fn prepared(running: Running) -> Result<(Running, Told), Told> {
    let Running { mut replica } = running;
    match replica.prepare() {
        Ok(()) => Ok((Running { replica }, ("ready", 0))),
        Err(_) => Err(("not ready", 0)),
    }
}

fn published(running: Running) -> Result<(Running, Told), Told> {
    let Running { mut replica } = running;
    let count = match replica.reported() {
        Some(saved) => saved.commit(),
        None => 0,
    };
    replica.forget_reported();
    Ok((Running { replica }, ("published", count)))
}

fn done(alloc: Global, running: Running, asked: Asked) -> Result<(Running, Told), Told> {
    match asked {
        Asked::Meet(comes) => match item(alloc, comes) {
            Some(item) => met(running, item),
            None => Err(("no item", 0)),
        },
        Asked::Ticks(ticks) => ticked(running, ticks),
        Asked::Prepare => prepared(running),
        Asked::Begin => begun(running),
        Asked::Publish => published(running),
    }
}

/// What is done to a replica, and what comes of it.
type Row = (Asked, Told);

/// The first row, counted from 1, that does not come true; 0 where there is no replica. The last row may be a fault.
fn first_untrue(alloc: Global, faulty: u64, token: u64, rows: &[Row]) -> Option<usize> {
    let Some(mut running) = start(alloc, faulty, token) else {
        return Some(0);
    };
    for (index, row) in rows.iter().enumerate() {
        match done(alloc, running, row.0) {
            Ok((next, told)) => {
                if told != row.1 {
                    return Some(index + 1);
                }
                running = next;
            }
            Err(fault) => {
                let is_last = index + 1 == rows.len() && fault == row.1;
                return if is_last { None } else { Some(index + 1) };
            }
        }
    }
    None
}

/// No store fails.
const NONE: u64 = 9;

// The numbers of refusals.
const STALE: u64 = 31;

const NODE_STOPPED: u64 = 34;

const MEMBER_UNHEARD: u64 = 38;

const GOES_OVER: &[Row] = &[
    (Asked::Meet(Comes::Request(7, 1)), ("own", 0)),
    (Asked::Meet(Comes::Request(7, 2)), ("own", 0)),
    (Asked::Meet(Comes::Request(8, 1)), ("deferred", 0)),
    (Asked::Meet(Comes::PrepareOk(0, 2)), ("own", 0)),
    // The next store is not open.
    (Asked::Begin, ("goes on", 0)),
    (Asked::Prepare, ("ready", 0)),
    (Asked::Begin, ("began", 1)),
    (Asked::Meet(Comes::Request(7, 2)), ("committed", 2)),
    (Asked::Meet(Comes::Request(7, 1)), ("refused", STALE)),
    (Asked::Meet(Comes::Request(8, 1)), ("own", 2)),
    (Asked::Meet(Comes::PrepareOk(1, 1)), ("own", 2)),
];

const IS_TOLD: &[Row] = &[
    // No store is ready for the next epoch.
    (Asked::Meet(Comes::Tell(0, 0, 2)), ("nothing", 0)),
    (Asked::Prepare, ("ready", 0)),
    (Asked::Meet(Comes::Tell(0, 0, 2)), ("began", 1)),
    (Asked::Prepare, ("ready", 0)),
    // The log before is not published.
    (Asked::Meet(Comes::Tell(1, 0, 2)), ("nothing", 0)),
    (Asked::Publish, ("published", 2)),
    (Asked::Meet(Comes::Tell(1, 0, 2)), ("began", 2)),
];

const ASKS_AND_TELLS: &[Row] = &[
    (Asked::Meet(Comes::PrepareOk(3, 1)), ("ask", 1)),
    (Asked::Meet(Comes::PrepareOk(3, 1)), ("nothing", 0)),
    (Asked::Ticks(49), ("ticks", 49)),
    (Asked::Meet(Comes::PrepareOk(3, 1)), ("nothing", 0)),
    (Asked::Ticks(1), ("ticks", 1)),
    (Asked::Meet(Comes::PrepareOk(3, 1)), ("ask", 1)),
    (Asked::Prepare, ("ready", 0)),
    (Asked::Meet(Comes::Tell(0, 0, 2)), ("began", 1)),
    (Asked::Meet(Comes::Ask(0, 0)), ("tell", 0)),
    (Asked::Meet(Comes::Ask(0, 0)), ("nothing", 0)),
    (Asked::Ticks(39), ("ticks", 39)),
    (Asked::Meet(Comes::Ask(0, 0)), ("nothing", 0)),
    (Asked::Ticks(1), ("ticks", 1)),
    (Asked::Meet(Comes::Ask(0, 0)), ("tell", 0)),
];

const SAVE_FAILS: &[Row] = &[(Asked::Meet(Comes::Request(7, 1)), ("not saved", 0))];

/// It is told a log, and what it then is cannot be saved.
const TOLD_SAVE_FAILS: &[Row] = &[
    (Asked::Prepare, ("ready", 0)),
    (Asked::Meet(Comes::Tell(0, 0, 2)), ("not saved", 2)),
];

const BEGINNING_FAILS: &[Row] = &[
    (Asked::Prepare, ("ready", 0)),
    (Asked::Meet(Comes::Request(7, 1)), ("own", 0)),
    (Asked::Meet(Comes::Request(7, 2)), ("own", 0)),
    (Asked::Meet(Comes::PrepareOk(0, 2)), ("own", 0)),
    (Asked::Begin, ("not begun", 2)),
];

/// No entry names the token of the node.
const AWAITS: &[Row] = &[
    (Asked::Meet(Comes::Request(7, 1)), ("refused", NODE_STOPPED)),
    (Asked::Meet(Comes::Resend), ("ask all", 2)),
    (Asked::Ticks(48), ("ticks", 48)),
    (Asked::Meet(Comes::Resend), ("nothing", 0)),
    (Asked::Meet(Comes::Resend), ("ask all", 2)),
    (Asked::Prepare, ("ready", 0)),
    (Asked::Meet(Comes::Tell(0, 0, 2)), ("began", 1)),
    (Asked::Begin, ("goes on", 1)),
    (Asked::Meet(Comes::Ask(0, 0)), ("nothing", 0)),
    (Asked::Meet(Comes::Request(7, 3)), ("refused", NODE_STOPPED)),
];

/// Node 1 is replaced once the token that is named was heard from it; no retry needs that.
const HEARS: &[Row] = &[
    (Asked::Meet(Comes::Replace(1)), ("refused", MEMBER_UNHEARD)),
    (Asked::Meet(Comes::AskAs(0, TOKEN)), ("nothing", 0)),
    (Asked::Ticks(99), ("ticks", 99)),
    // Node 4 is none of three, and node 2 did not ask.
    (Asked::Meet(Comes::Replace(4)), ("refused", MEMBER_UNHEARD)),
    (Asked::Meet(Comes::Replace(2)), ("refused", MEMBER_UNHEARD)),
    (Asked::Meet(Comes::Replace(1)), ("own", 0)),
    (Asked::Ticks(1), ("ticks", 1)),
    (Asked::Meet(Comes::Replace(1)), ("deferred", 0)),
    (Asked::Meet(Comes::PrepareOk(0, 1)), ("own", 0)),
    (Asked::Prepare, ("ready", 0)),
    (Asked::Begin, ("began", 1)),
    (Asked::Meet(Comes::Replace(1)), ("committed", 1)),
];

/// The token was heard in an ask of another epoch, but too long ago.
const HEARD_TOO_LONG_AGO: &[Row] = &[
    (Asked::Meet(Comes::AskAs(1, TOKEN)), ("ask", 1)),
    (Asked::Ticks(100), ("ticks", 100)),
    (Asked::Meet(Comes::Replace(1)), ("refused", MEMBER_UNHEARD)),
    (Asked::Meet(Comes::AskAs(1, TOKEN)), ("ask", 1)),
    (Asked::Meet(Comes::Replace(1)), ("own", 0)),
];

/// The node says another token than the one that is named.
const HEARS_ANOTHER_TOKEN: &[Row] = &[
    (Asked::Meet(Comes::AskAs(0, TOKEN)), ("nothing", 0)),
    (Asked::Meet(Comes::AskAs(0, TOKEN + 1)), ("nothing", 0)),
    (Asked::Meet(Comes::Replace(1)), ("refused", MEMBER_UNHEARD)),
    (Asked::Meet(Comes::Request(7, 1)), ("own", 0)),
];

/// A token that was named before is refused, though it was said a moment ago.
const NAMED_BEFORE: &[Row] = &[
    (Asked::Meet(Comes::AskAs(0, TOKEN)), ("nothing", 0)),
    (Asked::Meet(Comes::Replace(1)), ("own", 0)),
    (Asked::Meet(Comes::PrepareOk(0, 1)), ("own", 0)),
    (Asked::Prepare, ("ready", 0)),
    (Asked::Begin, ("began", 1)),
    (
        Asked::Meet(Comes::ReplaceAs(8, 1, TOKEN)),
        ("refused", MEMBER_UNHEARD),
    ),
    (Asked::Meet(Comes::AskAs(1, TOKEN + 1)), ("nothing", 0)),
    (Asked::Meet(Comes::ReplaceAs(8, 1, TOKEN + 1)), ("own", 1)),
];

/// So is one that was named for another node.
const NAMED_FOR_ANOTHER: &[Row] = &[
    (Asked::Prepare, ("ready", 0)),
    (Asked::Meet(Comes::TellReplace(2)), ("began", 1)),
    (Asked::Meet(Comes::AskAs(1, TOKEN)), ("nothing", 0)),
    (
        Asked::Meet(Comes::ReplaceAs(8, 1, TOKEN)),
        ("refused", MEMBER_UNHEARD),
    ),
    (Asked::Meet(Comes::AskAs(1, TOKEN + 1)), ("nothing", 0)),
    (Asked::Meet(Comes::ReplaceAs(8, 1, TOKEN + 1)), ("own", 1)),
];

/// The epoch whose store fails, the node's token, and what is done.
const RUNS: &[(u64, u64, &[Row])] = &[
    (NONE, 0, GOES_OVER),
    (NONE, 0, IS_TOLD),
    (NONE, 0, ASKS_AND_TELLS),
    (0, 0, SAVE_FAILS),
    (0, 0, TOLD_SAVE_FAILS),
    (1, 0, TOLD_SAVE_FAILS),
    (1, 0, BEGINNING_FAILS),
    (NONE, TOKEN, AWAITS),
    (NONE, 0, HEARS),
    (NONE, 0, HEARD_TOO_LONG_AGO),
    (NONE, 0, HEARS_ANOTHER_TOKEN),
    (NONE, 0, NAMED_BEFORE),
    (NONE, 0, NAMED_FOR_ANOTHER),
];

/// The first run, counted from 1, that does not come true, with its first row that does not.
fn first_other_run(alloc: Global) -> Option<(usize, usize)> {
    for (index, run) in RUNS.iter().enumerate() {
        if let Some(row) = first_untrue(alloc, run.0, run.1, run.2) {
            return Some((index + 1, row));
        }
    }
    None
}

#[test]
fn a_replica_goes_over_epochs_with_its_stores(rt: HostRuntime) {
    let alloc = rt.alloc();
    assert!(rt; first_other_run(alloc) == None);
}
