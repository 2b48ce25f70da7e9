//! Reads of a board that grows, and of one that has ended.

ghost use Rattle.std.specs.Prelude.{◌≡◌};

use desk_published::{BoardName, BoardReader, BoardWriter, NewHistory};
use desk_types::{
    ClientId, Command, Domain, Entry, KindText, RequestNumber, SiteText, WantOfMemory,
};
use std::alloc::Global;
use std::marker::Brand;
use std::sync::Wait;
use std::test::Fail;

/// So many entries are published, one after the other.
const ENTRIES: u64 = 300;

/// So often the board is read after its end.
const LATE_READS: u64 = 3;

/// An open of this number.
fn open(alloc: Global, number: u64) -> Option<Entry> {
    Some(Entry {
        client: ClientId::new(7)?,
        number: RequestNumber::new(number)?,
        command: Command::Open {
            at: 0,
            kind: KindText::new(alloc, "flood").ok()??,
            site: SiteText::new(alloc, "3 Mill Ln").ok()??,
            incident: None,
            call: None,
        },
    })
}

/// Publishes one entry more, and reads the board: whether it is read with all entries.
fn read_next<B: BoardName, R: Wait>(
    rt: &R,
    alloc: Global,
    writer: BoardWriter<B>,
    reader: BoardReader<B>,
) -> (BoardWriter<B>, BoardReader<B>, bool) {
    let noted = writer.noted_len();
    let Some(entry) = open(alloc, noted.saturating_add(1)) else {
        return (writer, reader, false);
    };
    let (writer, is_whole) = writer.publish_after(rt, noted, &[entry], true);
    let count = writer.noted_len();
    let (reader, read) = reader.read(|board| board.len());
    (
        writer,
        reader,
        is_whole && noted < count && read == Some(count),
    )
}

/// Whether each read of a board that grows has all entries.
fn read_growing<B: BoardName, R: Wait>(
    rt: &R,
    alloc: Global,
    writer: BoardWriter<B>,
    reader: BoardReader<B>,
) -> (BoardWriter<B>, BoardReader<B>, bool) {
    let (mut writer, mut reader) = (writer, reader);
    for _ in 0..ENTRIES {
        let (grown, back, is_read) = read_next(rt, alloc, writer, reader);
        writer = grown;
        reader = back;
        if !is_read {
            return (writer, reader, false);
        }
    }
    (writer, reader, true)
}

/// Whether no read of a board that has ended has an answer.
fn are_late<B: BoardName>(reader: BoardReader<B>) -> bool {
    let mut reader = reader;
    for _ in 0..LATE_READS {
        let (back, read) = reader.read(|board| board.len());
        reader = back;
        if read.is_some() {
            return false;
        }
    }
    true
}

/// Whether reads of a new board are answered until it ends, and none then.
fn are_answered_until_the_end<B: BoardName, R: Wait>(
    rt: &R,
    alloc: Global,
    history: NewHistory,
    domain: &Domain,
) -> Result<bool, WantOfMemory>
    requires book { history.seen.book ≡ B.book }
    requires domain { domain.now ≡ B.domain }
{
    let writer = BoardWriter::<B>::new(alloc, domain, history, 1)?;
    match writer.reader() {
        Ok(reader) => {
            let (writer, reader, are_read) = read_growing(rt, alloc, writer, reader);
            writer.end(rt);
            Ok(are_read && are_late(reader))
        }
        Err(fault) => {
            writer.end(rt);
            Err(fault)
        }
    }
}

/// The same, in a domain.
fn are_answered_in_a_domain<R: Wait>(rt: &R, alloc: Global) -> Result<bool, WantOfMemory> {
    let Ok(domain) = Domain::new(alloc, "desk.example") else {
        return Err(WantOfMemory);
    };
    are_answered_until_the_end::<Brand, R>(rt, alloc, NewHistory::new(), &domain)
}

#[test]
fn reads_are_answered_until_the_board_ends(rt: HostRuntime) -> Result<(), Fail> {
    assert!(rt; are_answered_in_a_domain(&rt, rt.alloc()) == Ok(true));
    Ok(())
}
