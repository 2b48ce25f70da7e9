//! Lines to a keeper.

ghost use Rattle.std.specs.Prelude.{◌≡◌, IfOk, IfErr};
ghost use Rattle.std.specs.Result.{result_map_both};
ghost use Rattle.desk_sessions.specs.Exchanges.{Asked, IsNoWord, saying};

use desk_published::{BoardName, Reported};
use desk_types::{Entry, Refusal};
use std::sync::Wait;

/// A line to a keeper, which asks one request at a time.
pub trait Line<B: BoardName> {
    ghost use Rattle.std.specs.Prelude.{List, Option};
    ghost use Rattle.desk_sessions.specs.Exchanges.{Exchange};

    /// What it was asked and what came of it, in order, where the line tells.
    ghost exchanged: { Self → Option (List Exchange) };

    /// What no request changes.
    ghost Preserved: { Type 0 } = { Unit {0} };

    ghost preserved: { Self → Self.Preserved };

    /// Asks a request, and waits for the keeper's word of it. `NodeStopped` where the keeper has ended, `WantOfMemory`
    /// where memory was refused.
    fn ask<R: Wait>(self, rt: &R, entry: Entry) -> (Self, Result<Reported<B>, Refusal>)
        // The word is that of this request.
        ensures reported { IfOk result.1 (λ t. (t.client ≡ entry.client) × (t.number ≡ entry.number)) }
        ensures refused { IfErr result.1 IsNoWord }
        ensures asked { Asked (exchanged self) (exchanged result.0) entry
            (result_map_both (λ t. saying t.word t.published) (λ r. r) result.1) }
        ensures preserved { preserved result.0 ≡ preserved self };
}
