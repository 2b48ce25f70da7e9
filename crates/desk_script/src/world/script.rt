//! Scripts of a group of nodes: lines, each of them an event.

ghost use Rattle.std.specs.Prelude.{◌≡◌, ◌∷◌, ◌++◌, [], not, None, IfOk, IfErr, OnOk};
ghost use Rattle.desk_types.specs.declared.limits.TheConstants.{DOCUMENT_BYTES};
ghost use Rattle.desk_eido.specs.Reading.{ask_on_line};
ghost use Rattle.desk_lines.specs.Lines.{lines_of};
ghost use Rattle.desk_script.specs.Script.{spelled_number, command_in, request_of, numbered_event, event_of};
ghost use Rattle.desk_script.specs.Script.{is_no_event};
ghost use Rattle.desk_script.specs.Script.{first_no_event, events_of};
ghost use Rattle.desk_script.specs.WorldRun.{IsNoEventOf, IsScriptFault};

use super::WorldFault;
use desk_arena::DocArena;
use desk_eido::{Ask, read_document};
use desk_lines::{first_line, is_blank, split_at_first};
use desk_types::limits::DOCUMENT_BYTES;
use desk_types::{Entry, WantOfMemory};
use desk_world::WorldEvent;
use std::alloc::Global;

/// How many digits the number of a node or of a packet may have.
const NUMBER_DIGITS: usize = 18;

/// The number that decimal digits spell.
#[tactic(auto, unfolding(crate::specs::Script::spelled_number))]
fn number_in(text: &[u8]) -> Option<u64>
    ensures { result ≡ spelled_number text.now }
{
    if text.is_empty() || text.len() > NUMBER_DIGITS {
        return None;
    }
    let mut number = 0;
    for byte in text {
        if *byte < b'0' || *byte > b'9' {
            return None;
        }
        number = number * 10 + u64::from(*byte - b'0');
    }
    Some(number)
}

/// The command that a document asks for; none where it is refused, or is a show.
fn command_in(
    alloc: Global,
    document: &[u8],
    arena: &mut DocArena,
) -> Result<Option<Entry>, WantOfMemory>
    requires { arena.old.capacity ≡ DOCUMENT_BYTES }
    ensures command { IfOk result (λ entry. entry ≡ command_in (ask_on_line DOCUMENT_BYTES document.now)) }
    ensures capacity { arena.new.capacity ≡ DOCUMENT_BYTES }
{
    match read_document(alloc, document, arena) {
        Ok(Ask::Command(entry)) => Ok(Some(entry)),
        Ok(Ask::Show(_)) => Ok(None),
        Err(refusal) => {
            refusal.unless_of_memory()?;
            Ok(None)
        }
    }
}

/// The request that stands after its word.
#[tactic(auto, unfolding(crate::specs::Script::request_of))]
fn request_in(
    alloc: Global,
    text: &[u8],
    arena: &mut DocArena,
) -> Result<Option<WorldEvent>, WantOfMemory>
    requires { arena.old.capacity ≡ DOCUMENT_BYTES }
    ensures event { IfOk result (λ event. event ≡ request_of text.now) }
    ensures capacity { arena.new.capacity ≡ DOCUMENT_BYTES }
{
    let Some((node, document)) = split_at_first(text, b' ') else {
        return Ok(None);
    };
    let Some(node) = number_in(node) else {
        return Ok(None);
    };
    match command_in(alloc, document, arena)? {
        Some(entry) => Ok(Some(WorldEvent::Request(node, entry))),
        None => Ok(None),
    }
}

/// What a word says of a number.
fn numbered_event(word: &[u8], number: u64) -> Option<WorldEvent>
    ensures { result ≡ numbered_event word.now number }
{
    if word == b"deliver".as_slice() {
        Some(WorldEvent::Deliver(number))
    } else if word == b"resend".as_slice() {
        Some(WorldEvent::Resend(number))
    } else if word == b"suspect".as_slice() {
        Some(WorldEvent::Suspect(number))
    } else if word == b"restart".as_slice() {
        Some(WorldEvent::Restart(number))
    } else {
        None
    }
}

/// The event that a line is.
#[tactic(auto, unfolding(crate::specs::Script::event_of))]
fn event_in(
    alloc: Global,
    line: &[u8],
    arena: &mut DocArena,
) -> Result<Option<WorldEvent>, WantOfMemory>
    requires { arena.old.capacity ≡ DOCUMENT_BYTES }
    ensures event { IfOk result (λ event. event ≡ event_of line.now) }
    ensures capacity { arena.new.capacity ≡ DOCUMENT_BYTES }
{
    let Some((word, rest)) = split_at_first(line, b' ') else {
        return Ok(None);
    };
    if word == b"request".as_slice() {
        return request_in(alloc, rest, arena);
    }
    match number_in(rest) {
        Some(number) => Ok(numbered_event(word, number)),
        None => Ok(None),
    }
}

/// The arena into which each document is read.
fn document_arena(alloc: Global) -> Result<DocArena, WantOfMemory>
    ensures { IfOk result (λ arena. arena.capacity ≡ DOCUMENT_BYTES) }
{
    match DocArena::with_capacity(alloc, DOCUMENT_BYTES) {
        Ok(arena) => Ok(arena),
        Err(_) => Err(WantOfMemory),
    }
}

/// Takes a line, and answers whether it is an event or blank.
fn take_line(
    alloc: Global,
    line: &[u8],
    arena: &mut DocArena,
    events: &mut Vec<WorldEvent>,
) -> Result<bool, WantOfMemory>
    requires { arena.old.capacity ≡ DOCUMENT_BYTES }
    ensures taken { IfOk result (λ is_taken. is_taken ≡ not (is_no_event line.now)) }
    ensures events { OnOk result (events.new.items ≡ events.old.items ++ events_of (line.now ∷ [])) }
    ensures capacity { arena.new.capacity ≡ DOCUMENT_BYTES }
{
    match event_in(alloc, line, arena)? {
        Some(event) => {
            events.push(event)?;
            Ok(true)
        }
        None => Ok(is_blank(line)),
    }
}

/// The events of a script, in the order of its lines. Lines of spaces, tabs and carriage returns alone are skipped.
pub(super) fn events_in(alloc: Global, script: &[u8]) -> Result<Vec<WorldEvent>, WorldFault>
    ensures events { IfOk result (λ events. events.items ≡ events_of (lines_of script.now)) }
    ensures alone { OnOk result (first_no_event (lines_of script.now) ≡ None) }
    ensures line { IfErr result (IsNoEventOf script.now) }
    ensures fault { IfErr result IsScriptFault }
{
    let mut arena = document_arena(alloc)?;
    let mut events = Vec::new(alloc);
    let mut rest = script;
    let mut number = 1;
    while !rest.is_empty() {
        let (line, beyond) = first_line(rest);
        if !take_line(alloc, line, &mut arena, &mut events)? {
            return Err(WorldFault::NoEvent { line: number });
        }
        rest = beyond;
        number += 1;
    }
    Ok(events)
}
