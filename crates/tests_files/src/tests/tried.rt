//! What is tried with files in memory.

use super::databases::{Databases, MemoryDatabases};
use super::ends::Printed;
use super::faults::Faulty;
use super::files::{NodeFiles, Trial};
use super::members::Preserved;
use super::starts::After;
use super::stops::Stopped;
use desk_epoch_files::{EpochFiles, NamedDatabases};
use std::alloc::Global;

/// What is tried.
#[derive(Clone, Copy)]
pub enum Tried {
    Printed(Printed),
    Faulty(Faulty),
    Preserved(Preserved),
    After(After),
    Stopped(Stopped),
}

impl Trial for Tried {
    fn passes<F: NodeFiles + Drop>(&self, alloc: Global) -> bool {
        match self {
            Tried::Printed(trial) => trial.passes::<F>(alloc),
            Tried::Faulty(trial) => trial.passes::<F>(alloc),
            Tried::Preserved(trial) => trial.passes::<F>(alloc),
            Tried::After(trial) => trial.passes::<F>(alloc),
            Tried::Stopped(trial) => trial.passes::<F>(alloc),
        }
    }
}

/// Whether it ends as it should with the files of a node over these databases.
// The type of the files is named here, and that of the databases after it: a proof that knows both takes too long.
fn passes_over<D: NamedDatabases + Databases + Drop>(alloc: Global, tried: Tried) -> bool {
    tried.passes::<EpochFiles<D>>(alloc)
}

/// Whether it ends as it should with files in memory.
pub fn passes_in_memory(alloc: Global, tried: Tried) -> bool {
    passes_over::<MemoryDatabases>(alloc, tried)
}
