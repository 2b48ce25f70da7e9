//! The nodes of a group, as who follows them sees them.

ghost use Rattle.std.specs.Prelude.{◌≡◌, OnErr};

use desk_lines::LineBuffer;

/// Why a node gave no reply.
#[derive(Clone, Copy, Debug, PartialEq, Eq)]
pub enum NoReply {
    /// Memory was refused.
    WantOfMemory,
    /// There was no connection, or it ended or was silent before the reply.
    Broken,
}

/// What came of a try at a node.
#[derive(Drop)]
pub struct NodeReply {
    pub node: u8,
    /// Whether the node is asked after a handshake alone.
    pub is_keyed: bool,
    pub reply: Result<String, NoReply>,
}

/// The nodes of a group.
pub trait Nodes {
    ghost use Rattle.std.specs.Prelude.{◌≡◌, ℕ, Bool, List};
    ghost use Rattle.desk_lines.specs.Holding.{HoldsLine};
    ghost use Rattle.desk_follow.specs.Tries.{Try, GrowsByTry, came_of};

    /// What nodes were asked and what came of it, in order.
    ghost tries: { Self → List Try };

    /// Whether the nodes have a key, by which each is asked.
    ghost has_key: { Self → Bool };

    /// A line begins: the time for its tries counts from here.
    fn begin(self) -> Self
        ensures tries { tries result ≡ tries self }
        ensures key { has_key result ≡ has_key self };

    /// Asks a node a line, once.
    fn ask(self, node: u8, line: &LineBuffer) -> (Self, Result<String, NoReply>)
        ensures tried { (text : List ℕ) → HoldsLine line.now text →
            GrowsByTry (tries self) (tries result.0) node (has_key self) text (came_of result.1) }
        ensures key { has_key result.0 ≡ has_key self };

    /// Waits so many milliseconds before the next try. False where the time for tries is over.
    fn pause(self, milliseconds: u64) -> (Self, bool)
        ensures tries { tries result.0 ≡ tries self }
        ensures key { has_key result.0 ≡ has_key self };
}
