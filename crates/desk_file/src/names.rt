//! The names of a node's files.

ghost use Rattle.std.specs.Prelude.{◌≡◌, IfOk, string_bytes};
ghost use Rattle.desk_file.specs.Names.{name_in_epoch};

use std::alloc::{AllocError, Global};

/// The name of the file in which a node keeps its state in an epoch: its first file has the name itself, and each other
/// one the epoch's number after a dot.
pub fn name_in_epoch(alloc: Global, file: &str, epoch: u64) -> Result<String, AllocError>
    ensures { IfOk result (λ name. string_bytes name ≡ name_in_epoch file.now epoch) }
{
    if epoch == 0 {
        return String::from_str(alloc, file);
    }
    format!(in alloc; "{}.{}", file, epoch)
}
