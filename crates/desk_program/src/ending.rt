//! How a run of the program ended.

ghost use Rattle.std.specs.Prelude.{◌≡◌};
ghost use Rattle.desk_program.specs.Ending.{end_status};

use desk_output::{DONE, FAILED, REFUSED};
use desk_types::Refusal;

/// How a run ended that needs no files and no sockets.
#[derive(Drop)]
pub enum RunEnd {
    /// All went well.
    Done,
    /// This fault ended it: want of memory (`WantOfMemory`), or a fault of reading (`ReadFault`) or writing
    /// (`WriteFault`).
    Failed { fault: Refusal },
    /// Words were refused, or a line of a script is no event.
    Refused,
}

impl RunEnd {
    /// The exit status: 0, 1 after a fault, or 2.
    pub fn status(&self) -> u8
        ensures { result ≡ end_status self.now }
    {
        match self {
            RunEnd::Done => DONE,
            RunEnd::Failed { .. } => FAILED,
            RunEnd::Refused => REFUSED,
        }
    }
}
