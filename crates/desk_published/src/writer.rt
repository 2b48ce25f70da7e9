//! The writer of the published board: it publishes what a node has committed.

ghost use Rattle.std.specs.Prelude.{◌≡◌, ◌≢◌, ◌≤◌, ◌<◌, ◌^◌, [], ◌∷◌, ◌++◌, None, length, is_some, IfOk, OnOk};
ghost use Rattle.std.specs.Prelude.{◌==◌, ◌+◌, IfSome, IsTrue, MatchBool, MatchResult, false};
ghost use mathlib.Core.List.{IsPrefix};
ghost use Rattle.left_right.specs.Sides.{view};
ghost use Rattle.desk_log.specs.SavedValue.{committed_entries};
ghost use Rattle.desk_published.specs.PrefixRule.{has_seen};
ghost use Rattle.desk_published.specs.Reported.{is_request_at};
ghost use Rattle.desk_published.specs.Writer.{as_list, EqualsPrefix, followed_by, published, pending};
ghost use Rattle.desk_published.specs.declared.limits.TheConstants.{HISTORY_ENTRIES};
ghost use Rattle.desk_published.specs.declared.reported.ReportedWord.TheVariants as words;

use crate::board_name::BoardName;
use crate::history::{HistoryEnd, HistoryPrefix, NewHistory};
use crate::limits::HISTORY_ENTRIES;
use crate::published::{NextEntry, PublishedBoard};
use crate::reader::BoardReader;
use crate::reported::Reported;
use crate::rule::{PrefixRule, Publish, SeatView};
use crossbeam_utils::rule::Protocol;
use desk_log::Saved;
use desk_types::{ClientId, Domain, Entry, Refusal, RequestNumber, WantOfMemory};
use left_right::Absorb;
use left_right::writer::Writer;
use std::alloc::{AllocError, Global};
use std::mem;
use std::sync::Wait;

/// Publishes what a node has committed. What it has noted of the committed log, and added to the history, is what is
/// published, then what is pending for the next publish, then an entry for which there was no memory. It is not `Drop`:
/// end it by `end`.
pub struct BoardWriter<B: BoardName>
where
    PublishedBoard<B>: Absorb<NextEntry<B>, State = [Entry; 0]>,
    PrefixRule: Protocol<PublishedBoard<B>, SeatView>,
{
    pub(crate) inner: Writer<PublishedBoard<B>, NextEntry<B>, SeatView, PrefixRule>,
    pub(crate) end: HistoryEnd<B>,
    pub(crate) noted: HistoryPrefix<B>,
    refused: Option<NextEntry<B>>,
    ghost shows: { view inner.desk.place ≡ has_seen (published inner) },
    ghost all: { noted ≡ published inner ++ (pending inner ++ as_list refused) },
}

// Adds an entry to the history. It comes back where the history has `HISTORY_ENTRIES` entries, or more than were noted
// here.
fn note_next<B: BoardName>(
    end: &HistoryEnd<B>,
    noted: &mut HistoryPrefix<B>,
    entry: Entry,
) -> Result<NextEntry<B>, Entry>
    ensures noted { MatchResult result (λ next. (next ≡ entry) × (noted.new ≡ noted.old ++ entry ∷ []))
        (λ back. (back ≡ entry) × (noted.new ≡ noted.old)) }
    ensures room { OnOk result (length noted.old < HISTORY_ENTRIES) }
{
    let mut more = noted.copy();
    if more.len() >= HISTORY_ENTRIES || !more.push(end, &entry) {
        return Err(entry);
    }
    *noted = more.copy();
    Ok(NextEntry::new(entry, more))
}

// Makes an entry that was noted part of what the next publish publishes, or holds it where there is no memory for that.
fn append_or_hold<B: BoardName>(
    inner: &mut Writer<PublishedBoard<B>, NextEntry<B>, SeatView, PrefixRule>,
    refused: &mut Option<NextEntry<B>>,
    next: NextEntry<B>,
)
    requires nothing { refused.old ≡ None }
    ensures desk { inner.new.desk ≡ inner.old.desk }
    ensures preserved { pending inner.new ++ as_list refused.new ≡ pending inner.old ++ next ∷ [] }
{
    drop(mem::replace(refused, inner.append(next).err()));
}

// Publishes all that is pending, and waits for readers that are still in what was published before the last time. Where
// memory is refused nothing changes for readers, and the next publish goes on. Where nothing is pending it does
// nothing.
fn publish_pending<B: BoardName, R: Wait>(
    rt: &R,
    inner: Writer<PublishedBoard<B>, NextEntry<B>, SeatView, PrefixRule>,
) -> (
    Writer<PublishedBoard<B>, NextEntry<B>, SeatView, PrefixRule>,
    Result<(), AllocError>,
)
    requires shows { view inner.desk.place ≡ has_seen (published inner) }
    ensures shows { view result.0.desk.place ≡ has_seen (published result.0) }
    ensures published { MatchResult result.1
        (λ _. (published result.0 ≡ published inner ++ pending inner) × (pending result.0 ≡ []))
        (λ _. (published result.0 ≡ published inner) × (pending result.0 ≡ pending inner)) }
    ensures nothing { pending inner ≡ [] → result.0 ≡ inner }
{
    if !inner.has_pending_operations() {
        return (inner, Ok(()));
    }
    inner.publish_as::<Publish, R>(rt)
}

// Whether a list of so many entries ends `count` after its first `base`.
fn reaches(len: u64, base: u64, count: u64) -> bool
    ensures { result ≡ (len == base + count) }
{
    len >= base && len - base == count
}

impl<B: BoardName> BoardWriter<B> {
    /// A writer of an empty list, with room for so many readers.
    pub fn new(
        alloc: Global,
        domain: &Domain,
        history: NewHistory,
        readers: usize,
    ) -> Result<BoardWriter<B>, WantOfMemory>
        requires book { history.seen.book ≡ B.book }
        requires domain { domain.now ≡ B.domain }
        requires readers { (0 < readers) × (readers < 2 ^ 32) }
        ensures published { IfOk result (λ writer. published writer.inner ≡ []) }
        ensures pending { IfOk result (λ writer. pending writer.inner ≡ []) }
        ensures noted { IfOk result (λ writer. writer.noted ≡ []) }
    {
        let one = domain.copy()?;
        let other = domain.copy()?;
        let (end, noted) = history.named::<B>();
        let first = PublishedBoard::new(alloc, one, &noted);
        let second = PublishedBoard::new(alloc, other, &noted);
        let inner = Writer::new(alloc, first, second, readers)?;
        Ok(BoardWriter {
            inner,
            end,
            noted,
            refused: None,
        })
    }

    /// How many entries were noted.
    pub fn noted_len(&self) -> u64
        ensures { result ≡ length self.now.noted }
    {
        self.noted.len()
    }

    /// How many entries are published.
    pub fn published_len(&self) -> u64
        ensures { result ≡ length (published self.now.inner) }
    {
        self.inner.published().history().len()
    }

    // Appends the entry for which there was no memory, if there is one.
    fn retry(&mut self)
        ensures desk { self.new.inner.desk ≡ self.old.inner.desk }
        ensures noted { self.new.noted ≡ self.old.noted }
    {
        let BoardWriter { inner, refused, .. } = self;
        if let Some(next) = refused.take() {
            append_or_hold(inner, refused, next);
        }
    }

    // Notes one more entry. False where there is no memory, or no room in the history.
    fn note(&mut self, entry: Entry) -> bool
        ensures desk { self.new.inner.desk ≡ self.old.inner.desk }
        ensures noted { MatchBool result (self.new.noted ≡ self.old.noted ++ entry ∷ [])
            (self.new.noted ≡ self.old.noted) }
    {
        let BoardWriter {
            inner,
            end,
            noted,
            refused,
        } = self;
        if refused.is_some() {
            drop(entry);
            return false;
        }
        match note_next(end, noted, entry) {
            Ok(next) => {
                append_or_hold(inner, refused, next);
                true
            }
            Err(back) => {
                drop(back);
                false
            }
        }
    }

    // Notes entries that stand after the first `base` of those that were noted, as far as there is memory.
    fn note_after(&mut self, base: u64, entries: &[Entry])
        requires past { base ≤ length self.old.noted }
        requires noted { IsPrefix self.old.noted (followed_by base self.old.noted entries.now) }
        ensures desk { self.new.inner.desk ≡ self.old.inner.desk }
        ensures past { base ≤ length self.new.noted }
        ensures noted { IsPrefix self.new.noted (followed_by base self.old.noted entries.now) }
    {
        self.retry();
        for k in self.noted_len() - base..entries.len() as u64 {
            let Ok(copy) = entries[k as usize].copy() else {
                break;
            };
            if !self.note(copy) {
                break;
            }
        }
    }

    // Publishes entries that stand after the first `base` of those that were noted, as far as there is memory. Says
    // whether they are all published.
    fn publish_noted<R: Wait>(self, rt: &R, base: u64, entries: &[Entry]) -> (BoardWriter<B>, bool)
        requires past { base ≤ length self.noted }
        requires noted { IsPrefix self.noted (followed_by base self.noted entries.now) }
        ensures past { base ≤ length result.0.noted }
        ensures noted { IsPrefix result.0.noted (followed_by base self.noted entries.now) }
        ensures grows { IsPrefix (published self.inner) (published result.0.inner) }
        ensures published { IsPrefix (published result.0.inner) (followed_by base self.noted entries.now) }
        ensures whole { MatchBool result.1 (published result.0.inner ≡ followed_by base self.noted entries.now)
            (published result.0.inner ≢ followed_by base self.noted entries.now) }
    {
        let mut writer = self;
        writer.note_after(base, entries);
        let BoardWriter {
            inner,
            end,
            noted,
            refused,
        } = writer;
        let (inner, outcome) = publish_pending(rt, inner);
        let _ = outcome;
        let whole = reaches(
            inner.published().history().len(),
            base,
            entries.len() as u64,
        );
        (
            BoardWriter {
                inner,
                end,
                noted,
                refused,
            },
            whole,
        )
    }

    /// Publishes what is committed of a saved state, as far as there is memory, where that is wanted; it waits for
    /// readers that are still in what was published before the last time. True exactly where all that is committed is
    /// published then; where nothing is wanted it is false, and nothing changes. What was noted before has to be a
    /// prefix of what is committed.
    pub fn publish<R: Wait>(self, rt: &R, saved: &Saved, wanted: bool) -> (BoardWriter<B>, bool)
        requires { EqualsPrefix self.noted (committed_entries saved.now) }
        ensures noted { EqualsPrefix result.0.noted (committed_entries saved.now) }
        ensures held { IsPrefix (published result.0.inner) result.0.noted }
        ensures grows { IsPrefix (published self.inner) (published result.0.inner) }
        ensures published { IsPrefix (published result.0.inner) (committed_entries saved.now) }
        ensures whole { IsTrue wanted → MatchBool result.1
            (published result.0.inner ≡ committed_entries saved.now)
            (published result.0.inner ≢ committed_entries saved.now) }
        ensures unwanted { wanted ≡ false → (result.0 ≡ self) × (result.1 ≡ false) }
    {
        // What is committed stands in the log.
        prove!(saved.commit() <= saved.log().len());
        let committed = &saved.log().entries()[..saved.commit() as usize];
        self.publish_after(rt, 0, committed, wanted)
    }

    /// Publishes entries that stand after the first `base` of those that were noted, as far as there is memory, where
    /// that is wanted; it waits for readers that are still in what was published before the last time. True exactly
    /// where all of them are published then; where nothing is wanted it is false, and nothing changes. What was noted
    /// after the first `base` has to be a prefix of the entries.
    pub fn publish_after<R: Wait>(
        self,
        rt: &R,
        base: u64,
        entries: &[Entry],
        wanted: bool,
    ) -> (BoardWriter<B>, bool)
        requires past { base ≤ length self.noted }
        requires noted { EqualsPrefix self.noted (followed_by base self.noted entries.now) }
        ensures past { base ≤ length result.0.noted }
        ensures noted { EqualsPrefix result.0.noted (followed_by base self.noted entries.now) }
        // What is published was noted.
        ensures held { IsPrefix (published result.0.inner) result.0.noted }
        ensures grows { IsPrefix (published self.inner) (published result.0.inner) }
        ensures published { IsPrefix (published result.0.inner) (followed_by base self.noted entries.now) }
        ensures whole { IsTrue wanted → MatchBool result.1
            (published result.0.inner ≡ followed_by base self.noted entries.now)
            (published result.0.inner ≢ followed_by base self.noted entries.now) }
        ensures unwanted { wanted ≡ false → (result.0 ≡ self) × (result.1 ≡ false) }
    {
        if !wanted {
            return (self, false);
        }
        self.publish_noted(rt, base, entries)
    }

    /// A reader, whose pass is what is published. Err also where there are as many readers as there is room for.
    pub fn reader(&self) -> Result<BoardReader<B>, WantOfMemory>
        ensures { IfOk result (λ reader. reader.pass ≡ published self.now.inner) }
    {
        let inner = self.inner.factory().reader()?;
        Ok(BoardReader {
            inner,
            pass: self.inner.published().history().copy(),
            failed_reads: 0,
        })
    }

    /// Whether all that the reader has seen or learned is published: it is exactly where no more of it is than is
    /// published.
    pub fn covers(&self, reader: &BoardReader<B>) -> bool
        ensures { MatchBool result (IsPrefix reader.now.pass (published self.now.inner))
            (length (published self.now.inner) < length reader.now.pass) }
    {
        self.inner.published().history().begins_with(&reader.pass)
    }

    /// Tells a client that its request is published, where the entry at the place is that request, and is published;
    /// `None` elsewhere.
    pub fn tell(&self, client: ClientId, number: RequestNumber, place: u64) -> Option<Reported<B>>
        ensures there { is_some result ≡ is_request_at (published self.now.inner) client number place }
        ensures reported { IfSome result (λ t. (t.published ≡ published self.now.inner)
            × (t.client ≡ client) × (t.number ≡ number)
            × (t.word ≡ words.Published (length (published self.now.inner)))) }
    {
        self.inner.published().tell(client, number, place)
    }

    /// Tells a client that its request was refused.
    pub fn refuse(&self, client: ClientId, number: RequestNumber, refusal: Refusal) -> Reported<B>
        ensures published { result.published ≡ published self.now.inner }
        ensures request { (result.client ≡ client) × (result.number ≡ number) }
        ensures word { result.word ≡ words.Refused refusal }
    {
        self.inner.published().refuse(client, number, refusal)
    }

    /// Ends the board: from then on no reader can enter it. It waits for readers that are in it.
    pub fn end<R: Wait>(self, rt: &R) {
        let BoardWriter {
            inner,
            end: _end,
            noted: _noted,
            refused,
        } = self;
        drop(refused);
        let _last = inner.take(rt);
    }
}
