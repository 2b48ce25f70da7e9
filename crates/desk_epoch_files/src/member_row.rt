//! What a node was started with.

ghost use Rattle.std.specs.Prelude.{◌≡◌, ◌↔◌, IsTrue, IfOk, OnErr};
ghost use Rattle.desk_epoch_files.specs.Members.{IsAskedFor, asked_row, default_row};

use crate::cause::Cause;
use desk_types::limits::LOG_ENTRIES;

/// What a node was started with, as its first file preserves it.
#[derive(Clone, Copy)]
pub(crate) struct MemberRow {
    /// Its token, which is 0 where it began with its group.
    pub(crate) token: u64,
    /// How many places its epochs have, in entries.
    pub(crate) places: u64,
}

impl MemberRow {
    /// That of a node which began with its group, with epochs of full logs.
    pub(crate) fn by_default() -> MemberRow
        ensures { result ≡ default_row }
    {
        MemberRow {
            token: 0,
            places: LOG_ENTRIES,
        }
    }

    /// Whether it is that one.
    pub(crate) fn is_default(&self) -> bool
        ensures { IsTrue result ↔ (self.now ≡ default_row) }
    {
        self.token == 0 && self.places == LOG_ENTRIES
    }

    /// That of a new node, for which this token is named, or none, and so many places.
    pub(crate) fn asked(given: Option<u64>, places: u64) -> MemberRow
        ensures { result ≡ asked_row given places }
    {
        MemberRow {
            token: given.unwrap_or(0),
            places,
        }
    }

    /// Its token, where it has the one that is named, if one is, and so many places.
    pub(crate) fn token_for(&self, given: Option<u64>, places: u64) -> Result<u64, Cause>
        ensures token { IfOk result (λ token. (token ≡ self.now.token) × IsAskedFor self.now given places) }
        ensures other { OnErr result (¬ (IsAskedFor self.now given places)) }
    {
        if self.places != places {
            return Err(Cause::OtherPlaces(self.places));
        }
        match given {
            Some(token) if token != self.token && self.token == 0 => Err(Cause::NoToken),
            Some(token) if token != self.token => Err(Cause::OtherToken),
            _ => Ok(self.token),
        }
    }
}
