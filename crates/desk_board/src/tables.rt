//! The tables of a board, with no promise on what stands in them.

ghost use Rattle.std.specs.Prelude.{◌≡◌, ◌≤◌, IfOk, OnErr};
ghost use Rattle.desk_types.specs.declared.reply.Reply.TheVariants as replies;
ghost use Rattle.desk_board.specs.BoardValue.{empty_board};
ghost use Rattle.desk_board.specs.Execute.{reply_of, step_with_row, execute};
ghost use Rattle.desk_board.specs.Tables.{board_in};

use crate::row::{LatestRow, PlacedRequest, set_row};
use desk_incidents::Incidents;
use desk_types::limits::LAST_PLACE;
use desk_types::{Domain, Done, Entry, HashSeed, Refusal, Reply, WantOfMemory};
use desk_units::Units;
use indexmap::IndexMap;
use std::alloc::Global;

/// The tables of a board.
pub(crate) struct Tables {
    pub(crate) domain: Domain,
    pub(crate) incidents: Incidents,
    pub(crate) units: Units,
    pub(crate) rows: IndexMap<u64, LatestRow, HashSeed>,
    pub(crate) count: u64,
    pub(crate) alloc: Global,
}

// Written out, so that callers need not prove each part's drop.
impl Drop for Tables {
    fn drop(self) {
        let Tables {
            domain: _,
            incidents: _,
            units: _,
            rows: _,
            count: _,
            alloc: _,
        } = self;
    }
}

/// The reply at a place that tells what was done.
fn reply_of(place: u64, done: Done) -> Reply
    ensures { result ≡ reply_of place done }
{
    Reply::Done {
        place,
        word: done.word,
        incident: done.incident,
    }
}

impl Tables {
    /// The tables of the empty board.
    pub(crate) fn new(alloc: Global, domain: Domain) -> Tables
        ensures { board_in result ≡ empty_board domain }
    {
        let seed = domain.seed();
        Tables {
            domain,
            incidents: Incidents::new(alloc, seed),
            units: Units::new(alloc, seed),
            rows: IndexMap::with_hasher(alloc, seed),
            count: 0,
            alloc,
        }
    }

    /// Records a refusal, and changes nothing but the client's row and the count.
    fn refuse(&mut self, request: PlacedRequest, refusal: Refusal) -> Result<Reply, WantOfMemory>
        ensures ok { IfOk result (λ reply. (board_in self.new, reply)
            ≡ step_with_row request (board_in self.old, replies.Refused request.place refusal)) }
        ensures err { OnErr result (board_in self.new ≡ board_in self.old) }
    {
        let place = request.place;
        let reply = Reply::Refused { place, refusal };
        let row = request.row(reply.copy()?);
        self.rows.reserve(1)?;
        set_row(&mut self.rows, row);
        self.count = place;
        Ok(reply)
    }

    /// Executes the entry of a place. All memory for its row is taken before anything is changed.
    #[tactic(auto, unfolding(crate::specs::Execute::execute))]
    pub(crate) fn apply(&mut self, place: u64, entry: &Entry) -> Result<Reply, WantOfMemory>
        requires { place ≤ LAST_PLACE }
        ensures ok { IfOk result (λ reply. (board_in self.new, reply)
            ≡ execute (board_in self.old) place entry.now) }
        ensures err { OnErr result (board_in self.new ≡ board_in self.old) }
    {
        let request = PlacedRequest {
            client: entry.client,
            number: entry.number,
            place,
        };
        let incident = self.opened_id(place, &entry.command)?;
        self.rows.reserve(1)?;
        match self.perform(place, &entry.command) {
            Ok(done) => {
                let word = done.word;
                let row = request.row(reply_of(place, Done { word, incident }));
                set_row(&mut self.rows, row);
                self.count = place;
                Ok(reply_of(place, done))
            }
            Err(refusal) => self.refuse(request, refusal.unless_of_memory()?),
        }
    }
}
