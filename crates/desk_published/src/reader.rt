//! A reader of the published board.

ghost use Rattle.std.specs.Prelude.{◌≡◌, length, MatchOption};
ghost use Rattle.std.specs.Fn.{FnOnceReturnsAt};
ghost use mathlib.Core.List.{IsPrefix};
ghost use Rattle.left_right.specs.Sides.{view};
ghost use Rattle.desk_board.specs.Log.{board_of};
ghost use Rattle.desk_published.specs.Laws.{HasRow};
ghost use Rattle.desk_published.specs.Reads.{one_more_failed, HasFailedOnce};
ghost use Rattle.desk_published.specs.Reported.{IfPublished};

use crate::board_name::BoardName;
use crate::history::HistoryPrefix;
use crate::published::PublishedBoard;
use crate::reported::Reported;
use crate::rule::{Enter, PrefixRule, SeatView};
use crossbeam_utils::rule::Protocol;
use desk_board::Board;
use left_right::reader::Reader;

/// Reads the published board. Its pass is the list that it has seen or learned, and it counts the reads that gave no
/// answer.
pub struct BoardReader<B: BoardName>
where
    PrefixRule: Protocol<PublishedBoard<B>, SeatView>,
{
    pub(crate) inner: Reader<PublishedBoard<B>, SeatView, PrefixRule>,
    pub(crate) pass: HistoryPrefix<B>,
    /// How many reads gave no answer; the count begins again after its greatest value.
    pub(crate) failed_reads: u64,
}

// Written out, so that callers need not prove each part's drop.
impl<B: BoardName> Drop for BoardReader<B>
where
    PrefixRule: Protocol<PublishedBoard<B>, SeatView>,
{
    fn drop(self) {
        let BoardReader {
            inner: _,
            pass: _,
            failed_reads: _,
        } = self;
    }
}

// One failed read more.
fn one_more_failed(count: u64) -> u64
    ensures { result ≡ one_more_failed count }
{
    if count < u64::MAX { count + 1 } else { 0 }
}

impl<B: BoardName> BoardReader<B> {
    /// Calls `f` on the published board, and never waits. `None` where the board cannot be entered, or where what is
    /// entered is shorter than the pass; then `f` is not called, and the read is counted as failed.
    pub fn read<T, F: FnOnce(&Board) -> T + Drop>(self, f: F) -> (BoardReader<B>, Option<T>)
        requires { F.IsAlwaysCallable f }
        ensures read { MatchOption result.1 (result.0.pass ≡ self.pass)
            (λ answer. IsPrefix self.pass result.0.pass
            × FnOnceReturnsAt F.FnOnce f (board_of B.domain result.0.pass) answer) }
        ensures rule { MatchOption result.1
            (IsPrefix (view self.inner.place).seen (view result.0.inner.place).seen)
            (λ _. IsPrefix (view self.inner.place).seen result.0.pass
            × ((view result.0.inner.place).seen ≡ result.0.pass)) }
        ensures failed { MatchOption result.1 (HasFailedOnce self.failed_reads result.0.failed_reads)
            (λ _. result.0.failed_reads ≡ self.failed_reads) }
    {
        let BoardReader {
            inner,
            pass,
            failed_reads,
        } = self;
        let one_more = one_more_failed(failed_reads);
        match inner.enter_as::<Enter>() {
            Ok(reading) => {
                let shown = reading.get();
                if shown.history().begins_with(&pass) {
                    let answer = f(shown.board());
                    let pass = shown.history().copy();
                    let inner = reading.leave();
                    (
                        BoardReader {
                            inner,
                            pass,
                            failed_reads,
                        },
                        Some(answer),
                    )
                } else {
                    let inner = reading.leave();
                    (
                        BoardReader {
                            inner,
                            pass,
                            failed_reads: one_more,
                        },
                        None,
                    )
                }
            }
            Err(inner) => (
                BoardReader {
                    inner,
                    pass,
                    failed_reads: one_more,
                },
                None,
            ),
        }
    }

    /// Later reads begin with what `reported` says. Where that is that a request is published, its client's row is on
    /// the board of the pass, and so on that of every later one.
    #[tactic(auto, using(crate::proofs::ReportedRows::learnt_row))]
    pub fn learn(self, reported: &Reported<B>) -> BoardReader<B>
        ensures pass { IsPrefix self.pass result.pass }
        ensures reported { IsPrefix reported.now.published result.pass }
        ensures row { IfPublished reported.now.word
            (HasRow B.domain result.pass reported.now.client reported.now.number) }
        ensures seat { result.inner ≡ self.inner }
        ensures failed { result.failed_reads ≡ self.failed_reads }
    {
        let BoardReader {
            inner,
            pass,
            failed_reads,
        } = self;
        let pass = pass.longer(&reported.published);
        BoardReader {
            inner,
            pass,
            failed_reads,
        }
    }
}
