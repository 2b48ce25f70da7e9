//! One history of entries, which only grows. Its entries are known to the proofs alone: what is stored is its length.

ghost use Rattle.std.specs.Prelude.{◌≡◌, ◌<◌, ◌^◌, ◌++◌, ◌∷◌, [], length, MatchBool};
ghost use Rattle.std.specs.Bool.{OnTrue};
ghost use mathlib.Core.List.{IsPrefix};
ghost use Rattle.desk_published.specs.History.{EndsWith, length_word};

use crate::board_name::BoardName;
use desk_types::Entry;
use logbook::{Gain, Offer, Plain, Play, Rule, Seen, Start, Word};
use std::marker::{Model, PhantomData};

/// The rule of a history: its word is its length.
pub struct HistoryRule;

impl Rule<Entry, u64> for HistoryRule {
    ghost use Rattle.std.specs.Prelude.{[]};
    ghost use base.Fml.{ftrue};
    ghost use Rattle.desk_published.specs.History.{HoldsLength};

    ghost holds = { λ cells log. HoldsLength cells log };

    ghost first = { [] };

    ghost hinted = { λ n log. Unit {0} };

    ghost shows = { λ log. [] };

    ghost keeps = { λ names log. ftrue };

    ghost moves = { λ ask before after answer. Unit {0} };
}

/// Nothing is given or taken at a step.
pub struct NoTrade;

impl Gain<Entry, u64> for NoTrade {
    ghost use base.Fml.{ftrue};

    ghost after = { λ names about answer. ftrue };
}

/// The step that adds an entry.
pub struct AddEntry;

impl Play<Entry, u64> for AddEntry {
    ghost use Rattle.desk_published.specs.History.{Adds};

    ghost then = { Adds };
}

impl Plain<Entry, Entry, u64> for AddEntry {
    ghost use Rattle.std.specs.Prelude.{None};

    ghost ask = { λ entry. entry };

    ghost state = { λ entry. None };
}

/// An empty history, which has no name yet.
pub struct NewHistory {
    length: Word<Entry, u64, HistoryRule>,
    seen: Seen<Entry, u64, HistoryRule>,
    pub ghost empty: { seen.log ≡ [] },
    pub ghost length_is: { length ≡ length_word seen.book },
}

// Written out, so that callers need not prove each part's drop.
impl Drop for NewHistory {
    fn drop(self) {
        let NewHistory { length: _, seen: _ } = self;
    }
}

impl NewHistory {
    /// An empty history.
    pub fn new() -> NewHistory {
        let (seen, mut first, _second) = Seen::open(Start::alone(), 0, 0);
        NewHistory {
            length: Word::tracked(0, &mut first),
            seen,
        }
    }

    /// Gives the history a name, by which types tell one history from another: its end, which one writer keeps, and its
    /// empty prefix.
    pub fn named<B: BoardName>(self) -> (HistoryEnd<B>, HistoryPrefix<B>)
        requires { self.seen.book ≡ B.book }
        ensures { result.1 ≡ [] }
    {
        let NewHistory { length, seen } = self;
        (
            HistoryEnd {
                length,
                name: PhantomData,
            },
            HistoryPrefix {
                len: 0,
                seen,
                name: PhantomData,
            },
        )
    }
}

/// The end of a history, by which its one writer adds entries.
pub struct HistoryEnd<B: BoardName> {
    length: Word<Entry, u64, HistoryRule>,
    name: PhantomData<B>,
    ghost length_is: { length ≡ length_word B.book },
}

// Written out, so that callers need not prove each part's drop.
impl<B: BoardName> Drop for HistoryEnd<B> {
    fn drop(self) {
        let HistoryEnd { length: _, name: _ } = self;
    }
}

/// A prefix of the history. A contract sees its entries; what it holds is how many they are.
pub struct HistoryPrefix<B: BoardName> {
    len: u64,
    seen: Seen<Entry, u64, HistoryRule>,
    name: PhantomData<B>,
}

// Written out, so that callers need not prove each part's drop.
impl<B: BoardName> Drop for HistoryPrefix<B> {
    fn drop(self) {
        let HistoryPrefix {
            len: _,
            seen: _,
            name: _,
        } = self;
    }
}

impl<B: BoardName> Model for HistoryPrefix<B> {
    ghost use Rattle.std.specs.Prelude.{◌≡◌, List, length};
    ghost use Rattle.desk_types.specs.declared.command.Entry.{Entry};

    ghost Value = { List Entry };

    ghost view = { λ p. p.seen.log };

    ghost invariant = { λ p. (p.len ≡ length p.seen.log) × (p.seen.book ≡ B.book) };
}

impl<B: BoardName> HistoryPrefix<B> {
    /// How many entries it has.
    pub fn len(&self) -> u64
        ensures { result ≡ length self.now }
    {
        self.len
    }

    /// The same prefix. It takes no memory.
    pub(crate) fn copy(&self) -> HistoryPrefix<B>
        ensures { result ≡ self.now }
    {
        HistoryPrefix {
            len: self.len,
            seen: self.seen.again(),
            name: PhantomData,
        }
    }

    /// Whether this prefix begins with the other: it does exactly where it is not the shorter one.
    pub fn begins_with(&self, other: &HistoryPrefix<B>) -> bool
        ensures { MatchBool result (IsPrefix other.now self.now) (length self.now < length other.now) }
    {
        let mut both = self.seen.again();
        both.learn(&other.seen);
        if other.len <= self.len { true } else { false }
    }

    /// Whether this prefix, which ends with the entry, is the other and the entry.
    pub(crate) fn is_other_and(&self, other: &HistoryPrefix<B>, entry: &Entry) -> bool
        requires { EndsWith self.now entry.now }
        ensures { OnTrue result (self.now ≡ other.now ++ entry.now ∷ []) }
    {
        if self.begins_with(other) && self.len - other.len == 1 {
            true
        } else {
            false
        }
    }

    /// The longer of two prefixes, which begins with both.
    pub(crate) fn longer(&self, other: &HistoryPrefix<B>) -> HistoryPrefix<B>
        ensures this { IsPrefix self.now result }
        ensures other { IsPrefix other.now result }
    {
        if self.begins_with(other) {
            self.copy()
        } else {
            prove!(other.begins_with(self));
            other.copy()
        }
    }

    /// Adds an entry to the history, where this prefix is all of it.
    pub(crate) fn push(&mut self, end: &HistoryEnd<B>, entry: &Entry) -> bool
        requires { length self.old < 2 ^ 62 }
        ensures { OnTrue result (self.new ≡ self.old ++ entry.now ∷ []) }
    {
        let mut offer: Offer<Entry, u64, HistoryRule, NoTrade> = self
            .seen
            .plain::<NoTrade, Entry, AddEntry>(entry);
        let mut pen = self.seen.no_pen();
        let len = self.len;
        let found = end
            .length
            .compare_exchange::<AddEntry, NoTrade>(
                len,
                len + 1,
                &mut self.seen,
                &mut offer,
                &mut pen,
            );
        self.len = if found == len { len + 1 } else { found };
        found == len
    }
}
