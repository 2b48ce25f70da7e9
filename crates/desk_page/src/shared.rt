//! What the threads of a page's server share.

ghost use Rattle.std.specs.Prelude.{◌≤◌, ℕ, List, IfOk, IfSome, IsSomeAnd};
ghost use Rattle.desk_page.specs.Boards.{IsListedPlace, IsNewer, IsWritten, Writes, list_document};
ghost use Rattle.desk_page.specs.Reported.{place_listed};

use crate::asks::{ask, read_board};
use crate::board::Board;
use crate::board_line::BoardLine;
use crate::group::SeenGroup;
use crate::metrics::microseconds_since;
use bytes::Bytes;
use desk_http::Admitted;
use desk_lines::Handler;
use desk_metrics::{CommandOutcome, Counts};
use desk_types::Refusal;
use std::alloc::{AllocError, Global};
use std::sync::{Condvar, CondvarTimeouts, Mutex, Wait};
use std::thread;
use std::time::{Clock, Duration, Instant};

/// For how long a free handler is looked for before there are no replies, in seconds.
const FREE_SECONDS: u64 = 5;

/// Between two looks for a free handler, in milliseconds.
const FREE_MILLISECONDS: u64 = 10;

/// So often it is looked for where the clock fails. Else these looks take longer than the time for them.
const FREE_LOOKS: u64 = 500;

/// Why there are no replies to the lines of a body.
#[derive(Clone, Copy, Debug, PartialEq, Eq)]
pub(crate) enum NoReplies {
    /// A handler was asked, and gave up.
    GivenUp,
    /// No handler was free in time, and none was asked.
    Busy,
}

/// What the threads of a page's server share: the board that was announced last, what is known of the nodes, what was
/// counted, and two handlers that answer commands.
pub struct SharedPage<D: Handler> {
    board: Mutex<Board<D>>,
    /// Who waits for a board is woken where one is announced, and where nodes begin or cease to answer.
    news: Condvar,
    group: Mutex<SeenGroup>,
    counts: Mutex<Counts>,
    first: Mutex<Option<D>>,
    second: Mutex<Option<D>>,
}

// Written out, so that callers need not prove each part's drop.
impl<D: Handler + Drop> Drop for SharedPage<D> {
    fn drop(self) {
        let SharedPage {
            board: _,
            news: _,
            group: _,
            counts: _,
            first: _,
            second: _,
        } = self;
    }
}

impl<D: Handler> SharedPage<D> {
    /// No board was announced yet. These two desks answer commands.
    pub fn new(first: D, second: D) -> SharedPage<D> {
        SharedPage {
            board: Mutex::new(Board::new()),
            news: Condvar::new(),
            group: Mutex::new(SeenGroup::new()),
            counts: Mutex::new(Counts::new()),
            first: Mutex::new(Some(first)),
            second: Mutex::new(Some(second)),
        }
    }
}

/// Announces a board, where its place is above that of the board before it. Gives the place of the board that is
/// announced last then, which is not below the line's.
pub fn publish_board<D: Handler, R: Wait>(
    rt: &R,
    shared: &SharedPage<D>,
    line: BoardLine<D>,
) -> Option<u64>
    ensures listed { IfSome result (IsListedPlace D.answers) }
    ensures above { IsSomeAnd result (λ place. line.place ≤ place) }
{
    let place = {
        let mut board = shared.board.lock(rt);
        board.publish(line)
    };
    shared.news.notify_all();
    place
}

/// Asks a handler for all open incidents, in a session of this number, and tells the board, where the reply is that of
/// a list. Gives the place of the board that is announced last then. Err where the handler gives up, and where memory
/// is refused.
pub fn publish_listed<D: Handler, R: Wait>(
    rt: &R,
    alloc: Global,
    shared: &SharedPage<D>,
    handler: D,
    session: u64,
) -> (D, Result<Option<u64>, Refusal>)
    // Wherever the reply tells the place of a list, the board that is announced last is not below it.
    ensures { IfOk result.1 (λ reported. (reply : List ℕ)
        × Writes D.answers handler (list_document session) result.0 reply
        × IfSome (place_listed reply) (λ place. IsSomeAnd reported (λ last. place ≤ last))) }
{
    let (handler, read) = read_board(alloc, handler, session);
    match read {
        Ok(Some(line)) => (handler, Ok(publish_board(rt, shared, line))),
        Ok(None) => (handler, Ok(None)),
        Err(refusal) => (handler, Err(refusal)),
    }
}

/// The place of the board that was announced last.
pub fn published_place<D: Handler, R: Wait>(rt: &R, shared: &SharedPage<D>) -> Option<u64>
    ensures { IfSome result (IsListedPlace D.answers) }
{
    let board = shared.board.lock(rt);
    board.place()
}

/// Says whether the reader's last line got a reply.
pub fn publish_liveness<D: Handler, R: Wait>(rt: &R, shared: &SharedPage<D>, is_live: bool) {
    let was_live = {
        let mut group = shared.group.lock(rt);
        let was_live = group.is_live;
        group.say_live(is_live);
        was_live
    };
    if was_live != is_live {
        shared.news.notify_all();
    }
}

/// Says which place each node shows, from node 0 on. A node that is down shows none.
pub fn publish_nodes<D: Handler, R: Wait>(rt: &R, shared: &SharedPage<D>, places: &[Option<u64>]) {
    let mut group = shared.group.lock(rt);
    group.see(places);
}

/// What is known of the nodes.
pub(crate) fn seen_group<D: Handler, R: Wait>(rt: &R, shared: &SharedPage<D>) -> SeenGroup {
    let group = shared.group.lock(rt);
    *group
}

/// What was counted.
pub(crate) fn counts_now<D: Handler, R: Wait>(rt: &R, shared: &SharedPage<D>) -> Counts {
    let counts = shared.counts.lock(rt);
    *counts
}

/// Counts a text that a browser sent for nodes, by what became of it, and how many microseconds it took, where that is
/// known.
pub(crate) fn count_command<D: Handler, R: Wait>(
    rt: &R,
    shared: &SharedPage<D>,
    outcome: CommandOutcome,
    microseconds: Option<u64>,
) {
    let mut counts = shared.counts.lock(rt);
    counts.count_outcome(outcome);
    if let Some(microseconds) = microseconds {
        counts.count_latency(microseconds);
    }
}

/// Counts an answer with this status, where it is that of a refused request.
pub(crate) fn count_answer<D: Handler, R: Wait>(rt: &R, shared: &SharedPage<D>, status: u16) {
    let mut counts = shared.counts.lock(rt);
    counts.count_answer(status);
}

/// Counts a connection that begins.
pub(crate) fn count_opened<D: Handler, R: Wait>(rt: &R, shared: &SharedPage<D>) {
    let mut counts = shared.counts.lock(rt);
    counts.open_connection();
}

/// Counts a connection that ends.
pub(crate) fn count_closed<D: Handler, R: Wait>(rt: &R, shared: &SharedPage<D>) {
    let mut counts = shared.counts.lock(rt);
    counts.close_connection();
}

/// The line of the board that was announced last, where it is of a place above the other. Where it is not, that of the
/// board after a wait: until the next is announced, until nodes begin or cease to answer, or until this time is over.
pub(crate) fn awaited_board<D: Handler, R: Wait + Clock>(
    rt: &R,
    shared: &SharedPage<D>,
    after: Option<u64>,
    limit: Duration,
) -> Result<Option<Bytes>, AllocError>
    ensures { IfOk result (λ found. IfSome found (IsNewer D.answers after)) }
{
    let board = shared.board.lock(rt);
    let found = board.newer(after)?;
    if found.is_some() {
        return Ok(found);
    }
    let (board, _ended) = shared.news.wait_timeout(rt, board, limit);
    board.newer(after)
}

/// Has a handler answer the lines of a body, and gives its replies. There are none where it gives up.
fn replies_by<D: Handler + Drop>(
    alloc: Global,
    preserved: &mut Option<D>,
    admitted: &Admitted<'_>,
) -> Result<Vec<u8>, NoReplies>
    ensures { IfOk result (λ out. IsWritten D.answers admitted.now.body.now out.items) }
{
    let Some(handler) = preserved.take() else {
        return Err(NoReplies::Busy);
    };
    let (handler, outcome) = ask(alloc, handler, admitted.body);
    *preserved = Some(handler);
    match outcome {
        Ok(out) => Ok(out),
        Err(_) => Err(NoReplies::GivenUp),
    }
}

/// Replies by the handler that is free, the first before the second.
fn replies_now<D: Handler + Drop>(
    alloc: Global,
    shared: &SharedPage<D>,
    admitted: &Admitted<'_>,
) -> Result<Vec<u8>, NoReplies>
    ensures { IfOk result (λ out. IsWritten D.answers admitted.now.body.now out.items) }
{
    if let Some(mut preserved) = shared.first.try_lock() {
        return replies_by(alloc, &mut *preserved, admitted);
    }
    match shared.second.try_lock() {
        Some(mut preserved) => replies_by(alloc, &mut *preserved, admitted),
        None => Err(NoReplies::Busy),
    }
}

/// Whether a free handler was looked for long enough, by the clock.
fn is_look_over<R: Clock>(rt: &R, began: &Option<Instant>) -> bool {
    match microseconds_since(rt, began) {
        Some(passed) => passed >= FREE_SECONDS * 1_000_000,
        None => false,
    }
}

/// Has a handler answer the lines of a body, and gives its replies. There are none where it gives up, and where neither
/// handler is free for `FREE_SECONDS`: so a thread is not held by what others ask of nodes that are silent.
pub(crate) fn replies<D: Handler + Drop, R: Wait + Clock>(
    rt: &R,
    alloc: Global,
    shared: &SharedPage<D>,
    admitted: &Admitted<'_>,
) -> Result<Vec<u8>, NoReplies>
    ensures { IfOk result (λ out. IsWritten D.answers admitted.now.body.now out.items) }
{
    let began = Instant::now(rt).ok();
    for _look in 0..FREE_LOOKS {
        let found = replies_now(alloc, shared, admitted);
        match found {
            Err(NoReplies::Busy) if !is_look_over(rt, &began) => {
                thread::sleep(rt, Duration::from_millis(FREE_MILLISECONDS));
            }
            _ => return found,
        }
    }
    Err(NoReplies::Busy)
}
