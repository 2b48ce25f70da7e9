//! The log of what nodes were asked.

ghost use Rattle.std.specs.Prelude.{◌≡◌, [], ℕ, List};
ghost use Rattle.desk_lines.specs.Holding.{HoldsLine};
ghost use Rattle.desk_follow.specs.Tries.{GrowsByTry, came_of};

use crate::nodes::{NoReply, NodeReply};
use desk_lines::LineBuffer;
use http_server::Log;
use std::marker::Model;

/// What nodes were asked, and what came of it, in order. Only proofs read it: it takes no memory, and noting does
/// nothing when the program runs.
#[derive(Drop)]
pub struct TryLog {
    entries: Log<LineBuffer, NodeReply>,
}

impl Model for TryLog {
    ghost use Rattle.std.specs.Prelude.{List};
    ghost use Rattle.desk_follow.specs.Tries.{Try, tries_of};

    ghost Value = { List Try };

    ghost view = { λ log. tries_of log.entries.items };
}

impl TryLog {
    /// Nothing was asked.
    pub fn new() -> TryLog
        ensures { result ≡ [] }
    {
        TryLog {
            entries: Log::new(),
        }
    }

    /// Notes that a node was asked a line, whether after a handshake alone, and what came of it, which it gives back.
    pub fn note(
        &mut self,
        node: u8,
        is_keyed: bool,
        line: &LineBuffer,
        reply: Result<String, NoReply>,
    ) -> Result<String, NoReply>
        ensures tried { (text : List ℕ) → HoldsLine line.now text →
            GrowsByTry self.old self.new node is_keyed text (came_of reply) }
        ensures same { result ≡ reply }
    {
        let came = NodeReply {
            node,
            is_keyed,
            reply,
        };
        let entries = self.entries.and(line, &came);
        self.entries = entries;
        came.reply
    }
}
