//! The state that a node keeps across a restart.

ghost use Rattle.std.specs.Prelude.{◌≡◌, ◌<◌, ◌≤◌, ◌+◌, ◌++◌, true, false, length, take, Err};
ghost use Rattle.std.specs.Prelude.{IfOk, IfErr, OnErr, OnOk};
ghost use Rattle.desk_types.specs.declared.refusal.Refusal.TheVariants as refusals;
ghost use Rattle.desk_log.specs.Change.{is_normal, commit_up_to, with_log, keeps_committed};
ghost use Rattle.desk_log.specs.SavedValue.{initial_saved, in_view, with_commit, with_entry};

use crate::log::Log;
use desk_types::limits::{LAST_VIEW, LOG_ENTRIES};
use desk_types::{Entry, Refusal, WantOfMemory};
use std::alloc::Global;
use std::marker::Model;

/// What a node keeps across a restart: its view, the last view in which it was normal, its log, and its commit, which
/// is the number of entries of the log, from the first, that it has committed. A view is at most 1,000,000,000,000, the
/// last normal view at most the view, and the commit at most the length of the log.
pub struct Saved {
    view: u64,
    normal: u64,
    log: Log,
    commit: u64,
}

// Written out, so that callers need not prove each part's drop.
impl Drop for Saved {
    fn drop(self) {
        let Saved {
            view: _,
            normal: _,
            log: _,
            commit: _,
        } = self;
    }
}

impl Model for Saved {
    ghost use Rattle.desk_log.specs.SavedValue.{SavedValue, IsSaved};

    ghost Value = { SavedValue };

    ghost view = { λ s. record { view = s.view; normal = s.normal; log = s.log; commit = s.commit } };

    ghost invariant = { λ s. IsSaved (record { view = s.view; normal = s.normal; log = s.log; commit = s.commit }) };
}

impl Saved {
    /// The state of a node that is in a view, was normal last in another, and committed so many entries of its log.
    pub fn new(view: u64, normal: u64, log: Log, commit: u64) -> Saved
        requires view { view ≤ LAST_VIEW }
        requires normal { normal ≤ view }
        requires commit { commit ≤ length log }
        ensures { result ≡ record { view = view; normal = normal; log = log; commit = commit } }
    {
        Saved {
            view,
            normal,
            log,
            commit,
        }
    }

    /// The saved state of a node that has done nothing: an empty log, and all numbers 0. It takes no memory.
    pub fn initial(alloc: Global) -> Saved
        ensures { result ≡ initial_saved }
    {
        Saved::new(0, 0, Log::new(alloc), 0)
    }

    /// The view that the node is in. The last one in which it was normal is not past it.
    pub fn view(&self) -> u64
        ensures value { result ≡ self.now.view }
        ensures within { result ≤ LAST_VIEW }
        ensures order { self.now.normal ≤ self.now.view }
    {
        self.view
    }

    /// The last view in which the node was normal.
    pub fn normal(&self) -> u64
        ensures value { result ≡ self.now.normal }
        ensures within { result ≤ self.now.view }
    {
        self.normal
    }

    /// Whether the node is normal in its view, and doesn't change to it.
    pub fn is_normal(&self) -> bool
        ensures value { result ≡ is_normal self.now }
        ensures change { result ≡ false → self.now.normal < self.now.view }
    {
        self.normal == self.view
    }

    /// The entries that the node has, committed or not.
    pub fn log(&self) -> &Log
        ensures value { result.now ≡ self.now.log }
        ensures within { length self.now.log ≤ LOG_ENTRIES }
    {
        &self.log
    }

    /// How many entries of the log, from the first, are committed.
    pub fn commit(&self) -> u64
        ensures value { result ≡ self.now.commit }
        ensures within { result ≤ length self.now.log }
        ensures most { result ≤ LOG_ENTRIES }
    {
        self.commit
    }

    /// Goes to a view, which is not below the one before.
    pub fn set_view(&mut self, view: u64)
        requires least { self.old.view ≤ view }
        requires most { view ≤ LAST_VIEW }
        ensures { self.new ≡ in_view view self.old }
    {
        self.view = view;
    }

    /// Commits as many entries of the log, which are not fewer than before.
    pub fn set_commit(&mut self, commit: u64)
        requires least { self.old.commit ≤ commit }
        requires most { commit ≤ length self.old.log }
        ensures { self.new ≡ with_commit commit self.old }
    {
        self.commit = commit;
    }

    /// Commits up to a place, or to the last place of the log where that is less. The commit does not fall.
    pub fn commit_up_to(&mut self, place: u64)
        ensures { self.new ≡ commit_up_to place self.old }
    {
        let upto = place.min(self.log.len());
        self.commit = self.commit.max(upto);
    }

    /// Whether the committed entries are the first ones of a log, which is that of the first `base` entries followed by
    /// the given ones.
    #[tactic(auto, using(crate::proofs::JoinedLogs::preserved_within))]
    pub fn keeps_committed(&self, base: u64, entries: &[Entry]) -> bool
        requires { base ≤ self.now.commit }
        ensures value { result ≡ keeps_committed self.now (take base self.now.log ++ entries.now) }
        ensures within { result ≡ true → self.now.commit ≤ base + length entries.now }
    {
        self.log.goes_on(base, self.commit, entries)
    }

    /// Takes its first `base` entries followed by the given ones in the place of its log, is normal in a view, and
    /// commits up to a place of that log. The commit does not fall. The first entries are not copied. Where memory is
    /// refused nothing changes.
    pub fn adopt(
        &mut self,
        view: u64,
        base: u64,
        entries: Vec<Entry>,
        commit: u64,
    ) -> Result<(), WantOfMemory>
        requires least_view { self.old.view ≤ view }
        requires most_view { view ≤ LAST_VIEW }
        requires prefix { base ≤ length self.old.log }
        requires room { base + length entries.items ≤ LOG_ENTRIES }
        requires preserved { self.old.commit ≤ base + length entries.items }
        ensures ok { OnOk result (self.new ≡ with_log view (take base self.old.log ++ entries.items) commit self.old) }
        ensures err { OnErr result (self.new ≡ self.old) }
    {
        self.log.replace_after(base, entries)?;
        let upto = commit.min(self.log.len());
        self.view = view;
        self.normal = view;
        self.commit = self.commit.max(upto);
        Ok(())
    }

    /// Puts an entry last in the log, and gives its place. A full log refuses it by `BookFull`, and else only memory
    /// can refuse it. Nothing is changed then, and the entry is dropped.
    pub fn append(&mut self, entry: Entry) -> Result<u64, Refusal>
        ensures appended { OnOk result (self.new ≡ with_entry entry self.old) }
        ensures place { IfOk result (λ place. place ≡ length self.old.log + 1) }
        ensures full { length self.old.log ≡ LOG_ENTRIES → result ≡ Err refusals.BookFull }
        ensures room { length self.old.log < LOG_ENTRIES → IfErr result (λ refusal. refusal ≡ refusals.WantOfMemory) }
        ensures unchanged { OnErr result (self.new ≡ self.old) }
    {
        self.log.append(entry)
    }

    /// Takes a log in the place of its own, and is normal in a view. Neither the view nor the commit falls.
    pub fn install(&mut self, view: u64, log: Log, commit: u64)
        requires least_view { self.old.view ≤ view }
        requires most_view { view ≤ LAST_VIEW }
        requires least_commit { self.old.commit ≤ commit }
        requires most_commit { commit ≤ length log }
        ensures { self.new ≡ record { view = view; normal = view; log = log; commit = commit } }
    {
        *self = Saved::new(view, view, log, commit);
    }

    /// An equal saved state. It takes memory for the log.
    pub fn copy(&self) -> Result<Saved, WantOfMemory>
        ensures { IfOk result (λ saved. saved ≡ self.now) }
    {
        Ok(Saved {
            view: self.view,
            normal: self.normal,
            log: self.log.copy()?,
            commit: self.commit,
        })
    }

    /// Becomes another, where the caller knows that both logs begin with the same `known` entries, which are not
    /// compared. Entries that both have are not copied. Where memory is refused the numbers stay, and all that was in
    /// the log does, maybe with some of the other's entries after it.
    pub fn follow(&mut self, other: &Saved, known: u64) -> Result<(), WantOfMemory>
        requires within { (known ≤ length self.old.log) × (known ≤ length other.now.log) }
        requires same { take known self.old.log ≡ take known other.now.log }
        ensures ok { OnOk result (self.new ≡ other.now) }
        ensures preserved { OnErr result ((more : _) × (self.new ≡ record self.old { log = self.old.log ++ more })) }
    {
        let common = self.log.same_front_after(&other.log, known);
        self.log.follow(&other.log, common)?;
        self.view = other.view;
        self.normal = other.normal;
        self.commit = other.commit;
        Ok(())
    }
}
