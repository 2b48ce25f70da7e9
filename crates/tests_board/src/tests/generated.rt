//! Generated commands, one after the other, on the board and on plain lists: each gets the same reply line of both, and
//! what it may have changed is shown alike.

use super::line::Line;
use super::plain::{Answer, Asked, HANDED_IN, PlainBoard, Subject};
use super::{empty_board, latest_text, reported};
use desk_board::Board;
use std::alloc::Global;

/// Numbers that follow from the one before, the same in each run.
#[derive(Clone, Copy)]
struct Random(u64);

impl Random {
    /// A number below `n`, or 0.
    fn below(&mut self, n: u64) -> u64 {
        let mut x = self.0;
        x ^= x << 13;
        x ^= x >> 7;
        x ^= x << 17;
        self.0 = x;
        if n == 0 { 0 } else { x % n }
    }

    /// One of some words.
    fn word(&mut self, words: &[&'static str]) -> &'static str {
        let at = self.below(words.len() as u64) as usize;
        match words.get(at) {
            Some(word) => word,
            None => "",
        }
    }
}

/// How many commands are made.
const COMMANDS: u64 = 2_000;

/// Clients have the numbers below this, and units those up to the other.
const CLIENTS: u64 = 40;

const UNITS: u64 = 12;

/// The words of the verbs, the more often the more of them there are.
const VERBS: &[&str] = &[
    "open",
    "open",
    "open",
    "open",
    "add_call",
    "add_call",
    "add_call",
    "link",
    "link",
    "link",
    "link",
    "unlink",
    "unlink",
    "merge",
    "merge",
    "split",
    "split",
    "clear",
    "reopen",
    "note",
    "sign_on",
    "sign_on",
    "sign_off",
    "assign",
    "assign",
    "assign",
    "status",
    "status",
    "release",
    "release",
    "stand_by",
    "stand_by",
    "stand_by",
    "stand_down",
    "replace",
];

const KINDS: &[&str] = &["fire", "smoke", "medical"];

/// An incident that opened lately, or now and then one that somebody handed in or may hand in.
fn drawn_incident(random: &mut Random, plain: &PlainBoard) -> u64 {
    let handed_in = random.below(6).saturating_add(HANDED_IN);
    match plain.recent_incident(random.below(9) as usize) {
        Some(id) if random.below(12) > 0 => id,
        _ => handed_in,
    }
}

/// What a command opens under: in most cases no identifier of its own, else one that is handed in, or now and then one
/// that only the desk gives.
fn drawn_name(random: &mut Random) -> u64 {
    match random.below(64) {
        0 => 1,
        1..=7 => random.below(24).saturating_add(HANDED_IN),
        _ => 0,
    }
}

/// A command whose call has most likely not come yet.
fn drawn(random: &mut Random, plain: &PlainBoard) -> Asked {
    Asked {
        client: random.below(CLIENTS).max(1),
        verb: random.word(VERBS),
        incident: drawn_incident(random, plain),
        other: drawn_incident(random, plain),
        call: random.below(4_000).saturating_add(1),
        unit: random.below(UNITS).saturating_add(1),
        status: random.below(7).saturating_add(1),
        kind: random.word(KINDS),
        site: random.below(24),
    }
}

/// A command that opens an incident, in half of all cases with a call.
fn opening(random: &mut Random, asked: &Asked) -> Asked {
    Asked {
        incident: drawn_name(random),
        call: if random.below(2) == 0 { 0 } else { asked.call },
        ..*asked
    }
}

/// A command that splits a call which came lately from its incident, or now and then from another.
fn split(random: &mut Random, plain: &PlainBoard, asked: &Asked) -> Asked {
    match plain.recent_call(random.below(12) as usize) {
        Some((call, incident)) if random.below(5) > 0 => Asked {
            call,
            incident,
            ..*asked
        },
        Some((call, _)) => Asked { call, ..*asked },
        None => *asked,
    }
}

/// The next command.
fn next_asked(random: &mut Random, plain: &PlainBoard) -> Asked {
    let asked = drawn(random, plain);
    match asked.verb {
        "open" => opening(random, &asked),
        "split" => split(random, plain, &asked),
        _ => asked,
    }
}

/// Whether a text is a line with these members in braces, and a newline.
fn has_members(text: &str, members: &str) -> bool {
    match text.strip_prefix("{") {
        Some(after) => after.strip_suffix("}\n") == Some(members),
        None => false,
    }
}

/// Whether a document with these members gets a line of the board with those.
fn is_alike(alloc: Global, board: &mut Board, members: Line, wanted: Line) -> bool {
    let is_alike = match reported(alloc, board, members.as_str()) {
        Some(text) => has_members(text.as_str(), wanted.as_str()),
        None => false,
    };
    drop(members);
    drop(wanted);
    is_alike
}

/// Whether the board shows what the lists say.
fn is_shown_alike(alloc: Global, board: &mut Board, plain: &PlainBoard, subject: Subject) -> bool {
    is_alike(
        alloc,
        board,
        subject.members(alloc),
        plain.shown(alloc, subject),
    )
}

/// The states of which incidents are listed, the empty one for all.
const STATES: &[&str] = &["", "open", "cleared", "merged"];

/// Whether the incidents of each state are listed alike, from a place on, or all of them with the units.
fn are_listed_alike(alloc: Global, board: &mut Board, plain: &PlainBoard, from: u64) -> bool {
    for state in STATES {
        let listed = Subject::List {
            state: *state,
            from,
        };
        if !is_shown_alike(alloc, board, plain, listed) {
            return false;
        }
    }
    true
}

/// The same of all incidents, and of those from the first place on, from one in the middle, from the last, and from
/// after that.
fn are_lists_alike(alloc: Global, board: &mut Board, plain: &PlainBoard) -> bool {
    let count = board.len();
    for from in [0, 1, count / 2, count, count.saturating_add(1)] {
        if !are_listed_alike(alloc, board, plain, from) {
            return false;
        }
    }
    true
}

/// The list of a state, which is one of four by the call that a command names, of what was opened lately.
fn recent_list(count: u64, asked: &Asked) -> Subject {
    let state = match STATES.get((asked.call % 4) as usize) {
        Some(state) => *state,
        None => "",
    };
    let from = count.saturating_sub(asked.site).max(1);
    Subject::List { state, from }
}

/// Whether all incidents and all units are shown alike, the counts, and the lists.
fn are_shown_alike(alloc: Global, board: &mut Board, plain: &PlainBoard) -> bool {
    for before in 0..COMMANDS {
        let Some(id) = plain.recent_incident(before as usize) else {
            break;
        };
        if !is_shown_alike(alloc, board, plain, Subject::Incident(id)) {
            return false;
        }
    }
    for unit in 1..=UNITS {
        if !is_shown_alike(alloc, board, plain, Subject::Unit(unit)) {
            return false;
        }
    }
    is_shown_alike(alloc, board, plain, Subject::Board) && are_lists_alike(alloc, board, plain)
}

/// Whether what a command names is shown alike, the counts, and a list. What it opened, or was told, stands for its
/// incident.
fn is_named_alike(
    alloc: Global,
    board: &mut Board,
    plain: &PlainBoard,
    asked: &Asked,
    reported: u64,
) -> bool {
    let incident = if reported > 0 {
        reported
    } else {
        asked.incident.max(1)
    };
    let listed = recent_list(board.len(), asked);
    is_shown_alike(alloc, board, plain, Subject::Incident(incident))
        && is_shown_alike(alloc, board, plain, Subject::Incident(asked.other))
        && is_shown_alike(alloc, board, plain, Subject::Unit(asked.unit))
        && is_shown_alike(alloc, board, plain, Subject::Board)
        && is_shown_alike(alloc, board, plain, listed)
}

/// Whether a command gets the same reply line of both, and what it may have changed is shown alike; after each
/// hundredth also all else.
fn is_next_alike(alloc: Global, board: &mut Board, plain: &mut PlainBoard, asked: &Asked) -> bool {
    let answer = plain.answer(asked);
    if !is_alike(alloc, board, asked.members(alloc), answer.line(alloc))
        || !is_named_alike(alloc, board, plain, asked, answer.incident)
    {
        return false;
    }
    answer.place % 100 > 0 || are_shown_alike(alloc, board, plain)
}

/// Whether a line tells the place of a client's latest reply, and this, or that there is none.
fn tells_latest(alloc: Global, text: &str, latest: Option<Answer>) -> bool {
    let Some(answer) = latest else {
        return text == "none\n";
    };
    match text.split_once(" ") {
        Some((place, line)) => {
            let wanted = answer.line(alloc);
            let is_reported = has_members(line, wanted.as_str());
            drop(wanted);
            is_reported && place.parse() == Ok(answer.place)
        }
        None => false,
    }
}

/// Whether a client's latest reply is the same, and its place.
fn is_latest_alike(alloc: Global, board: &Board, client: u64, latest: Option<Answer>) -> bool {
    match latest_text(alloc, board, client) {
        Some(text) => tells_latest(alloc, text.as_str(), latest),
        None => false,
    }
}

/// The same of all clients.
fn are_latest_alike(alloc: Global, board: &Board, plain: &PlainBoard) -> bool {
    for client in 1..CLIENTS {
        if !is_latest_alike(alloc, board, client, plain.latest(client)) {
            return false;
        }
    }
    true
}

/// The place of the first command whose reply or whose shows differ, or one past the last where what is shown at the
/// end does.
fn first_unlike(alloc: Global, board: &mut Board, plain: &mut PlainBoard) -> Option<u64> {
    let mut random = Random(20_261_125);
    for before in 0..COMMANDS {
        let asked = next_asked(&mut random, plain);
        if !is_next_alike(alloc, board, plain, &asked) {
            return Some(before.saturating_add(1));
        }
    }
    if are_shown_alike(alloc, board, plain) && are_latest_alike(alloc, board, plain) {
        return None;
    }
    Some(COMMANDS.saturating_add(1))
}

#[test]
fn two_thousand_commands_are_answered_and_shown_as_by_plain_lists(rt: HostRuntime) {
    if let Some(mut board) = empty_board(rt.alloc()) {
        let mut plain = PlainBoard::new(rt.alloc());
        let unlike = first_unlike(rt.alloc(), &mut board, &mut plain);
        drop(plain);
        drop(board);
        assert!(rt; unlike == None, "place {unlike:?}");
    }
}

/// More incidents than a list has room for.
const MANY: u64 = 1_030;

/// Whether so many incidents are opened alike, and listed.
fn are_many_listed_alike(alloc: Global, board: &mut Board, plain: &mut PlainBoard) -> bool {
    let mut random = Random(20_261_128);
    for _ in 0..MANY {
        let asked = Asked {
            verb: "open",
            incident: 0,
            call: 0,
            ..drawn(&mut random, plain)
        };
        let answer = plain.answer(&asked);
        if !is_alike(alloc, board, asked.members(alloc), answer.line(alloc)) {
            return false;
        }
    }
    are_lists_alike(alloc, board, plain)
}

#[test]
fn more_incidents_than_a_list_has_room_for_are_listed_as_by_plain_lists(rt: HostRuntime) {
    if let Some(mut board) = empty_board(rt.alloc()) {
        let mut plain = PlainBoard::new(rt.alloc());
        let are_alike = are_many_listed_alike(rt.alloc(), &mut board, &mut plain);
        drop(plain);
        drop(board);
        assert!(rt; are_alike);
    }
}
