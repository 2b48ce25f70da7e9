//! How much of a log is of its epoch.

ghost use Rattle.std.specs.Prelude.{◌≡◌, ◌≤◌, ℕ, [], ◌∷◌, ◌++◌, List, length, take};
ghost use Rattle.desk_types.specs.declared.command.Entry.{Entry as AnEntry};
ghost use Rattle.desk_log.specs.SavedValue.{committed_entries};
ghost use Rattle.desk_epoch_node.specs.Ends.{IsCut, IsShort, reaches_end};

use crate::replacement::named_by;
use desk_log::{Log, Saved};
use desk_types::Entry;

/// How many entries of a list are of its epoch, up to the epoch's end, and whether they reach that end. It comes after
/// an entry that names a replacement, and after so many entries, `most`.
#[derive(Clone, Copy)]
pub struct Cut {
    pub count: u64,
    pub ended: bool,
}

/// No entries, where an epoch has one at least.
pub fn first_cut() -> Cut
    ensures { (most : ℕ) → 1 ≤ most → IsCut most [] result }
{
    Cut {
        count: 0,
        ended: false,
    }
}

/// One entry more.
#[tactic(auto, using(crate::proofs::Cuts::cut_push))]
fn cut_with_entry(cut: Cut, entry: &Entry, most: u64) -> Cut
    requires short { IsShort most cut }
    ensures cut { (before : List AnEntry) → IsCut most before cut → IsCut most (before ++ entry.now ∷ []) result }
    ensures short { IsShort most result }
{
    if cut.ended {
        return cut;
    }
    let count = cut.count + 1;
    Cut {
        count,
        ended: count >= most || named_by(entry).is_some(),
    }
}

/// More entries after those of a cut.
pub(crate) fn cut_with(first: Cut, entries: &[Entry], most: u64) -> Cut
    requires short { IsShort most first }
    ensures cut { (before : List AnEntry) → IsCut most before first → IsCut most (before ++ entries.now) result }
    ensures short { IsShort most result }
{
    let mut cut = first;
    for entry in entries {
        cut = cut_with_entry(cut, entry, most);
    }
    cut
}

/// What is committed of a saved state, after the cut of what was committed before, which had so many entries.
pub fn cut_at_commit(before: Cut, known: u64, saved: &Saved, most: u64) -> Cut
    requires short { IsShort most before }
    requires known { known ≤ saved.now.commit }
    ensures cut { IsCut most (take known saved.now.log) before → IsCut most (committed_entries saved.now) result }
    ensures short { IsShort most result }
{
    // What is committed stands in the log.
    prove!(saved.commit() <= saved.log().len());
    let committed = &saved.log().entries()[..saved.commit() as usize];
    cut_with(before, &committed[known as usize..], most)
}

/// Whether the first entries of a log, so many, reach the end of their epoch, which comes after `most` entries, at
/// least 1, or after the first that names a replacement. The time is linear in them.
pub fn has_ended(log: &Log, commit: u64, most: u64) -> bool
    requires commit { commit ≤ length log.now }
    requires least { 1 ≤ most }
    ensures { result ≡ reaches_end most (take commit log.now) }
{
    cut_with(first_cut(), &log.entries()[..commit as usize], most).ended
}
