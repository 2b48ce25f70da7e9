//! The line of an event.

ghost use Rattle.std.specs.Prelude.{◌≡◌, OnOk, IfOk};
ghost use Rattle.std.specs.Io.KnownBytes.{Appends};
ghost use Rattle.desk_events.specs.Lines.{line_head, event_members, event_line, suppressed_line};

use crate::event::Event;
use desk_output::LinePart::{Number, Text};
use desk_output::write_parts;
use desk_types::{Refusal, WantOfMemory};
use std::alloc::Global;
use std::io::Write;

/// Writes the members with which each line begins.
fn write_head<W: Write>(
    writer: &mut W,
    name: &'static str,
    node: u8,
    time: u64,
) -> Result<(), Refusal>
    ensures { OnOk result
        (Appends (W.contents writer.old) (W.contents writer.new) (line_head name.now node time)) }
{
    write_parts(
        writer,
        &[
            Text("{\"event\":\""),
            Text(name),
            Text("\",\"node\":"),
            Number(node as u64),
            Text(",\"time\":"),
            Number(time),
            Text(","),
        ],
    )
}

/// Writes the members that an event has of its own, and the end of its line.
fn write_members<W: Write>(writer: &mut W, event: &Event) -> Result<(), Refusal>
    ensures { OnOk result
        (Appends (W.contents writer.old) (W.contents writer.new) (event_members event.now)) }
{
    match event {
        Event::Ports { peers, sessions } => write_parts(
            writer,
            &[
                Text("\"peers\":"),
                Number(*peers as u64),
                Text(",\"sessions\":"),
                Number(*sessions as u64),
                Text("}\n"),
            ],
        ),
        Event::LinkUp { to } => write_parts(
            writer,
            &[Text("\"to\":"), Number(*to as u64), Text("}\n")],
        ),
        Event::LinkDown { to, why } => write_parts(
            writer,
            &[
                Text("\"to\":"),
                Number(*to as u64),
                Text(",\"why\":\""),
                Text(why.word()),
                Text("\"}\n"),
            ],
        ),
        Event::Epoch { epoch } => {
            write_parts(writer, &[Text("\"epoch\":"), Number(*epoch), Text("}\n")])
        }
        Event::View { view, leader } => write_parts(
            writer,
            &[
                Text("\"view\":"),
                Number(*view),
                Text(",\"leader\":"),
                Number(*leader as u64),
                Text("}\n"),
            ],
        ),
        Event::Behind { place } => {
            write_parts(writer, &[Text("\"place\":"), Number(*place), Text("}\n")])
        }
        Event::Level { place } => {
            write_parts(writer, &[Text("\"place\":"), Number(*place), Text("}\n")])
        }
        Event::SlowSave { milliseconds } => write_parts(
            writer,
            &[
                Text("\"milliseconds\":"),
                Number(*milliseconds),
                Text("}\n"),
            ],
        ),
        Event::Refused { at, why } => write_parts(
            writer,
            &[
                Text("\"at\":\""),
                Text(at.word()),
                Text("\",\"why\":\""),
                Text(why.word()),
                Text("\"}\n"),
            ],
        ),
        Event::End { why } => write_parts(writer, &[Text("\"why\":\""), Text(*why), Text("\"}\n")]),
    }
}

/// Writes the line of an event of a node at a time, which is in milliseconds since 1970. Err where a write fails, or
/// takes no byte; a prefix of the line may be written then.
pub fn write_event<W: Write>(
    writer: &mut W,
    time: u64,
    node: u8,
    event: &Event,
) -> Result<(), Refusal>
    ensures { OnOk result
        (Appends (W.contents writer.old) (W.contents writer.new) (event_line time node event.now)) }
{
    write_head(writer, event.name(), node, time)?;
    write_members(writer, event)
}

/// The line of an event. Err where memory is refused.
pub(crate) fn event_text(
    alloc: Global,
    time: u64,
    node: u8,
    event: &Event,
) -> Result<Vec<u8>, WantOfMemory>
    ensures { IfOk result (λ line. line.items ≡ event_line time node event.now) }
{
    let mut line = Vec::new(alloc);
    match write_event(&mut line, time, node, event) {
        Ok(()) => Ok(line),
        Err(_) => Err(WantOfMemory),
    }
}

/// The line that tells how many events got none in the second before.
pub(crate) fn suppressed_text(
    alloc: Global,
    time: u64,
    node: u8,
    count: u64,
) -> Result<Vec<u8>, WantOfMemory>
    ensures { IfOk result (λ line. line.items ≡ suppressed_line time node count) }
{
    let mut line = Vec::new(alloc);
    let written = match write_head(&mut line, "suppressed", node, time) {
        Ok(()) => write_parts(&mut line, &[Text("\"count\":"), Number(count), Text("}\n")]),
        Err(fault) => Err(fault),
    };
    match written {
        Ok(()) => Ok(line),
        Err(_) => Err(WantOfMemory),
    }
}
