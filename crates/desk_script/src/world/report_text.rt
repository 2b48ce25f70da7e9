//! The lines that tell what a run of a group of nodes gave.

ghost use Rattle.std.specs.Prelude.{◌≡◌, ◌≤◌, ◌+◌, ◌++◌, IfOk, OnOk, length, string_bytes};
ghost use Rattle.std.specs.List.{flat_map, enumerate_from};
ghost use Rattle.desk_script.specs.ReportText.{message_text, packet_line, packet_lines, answer_line};
ghost use Rattle.desk_script.specs.ReportText.{output_lines, outputs_lines, node_line, report_text};

use desk_eido::reply_line;
use desk_log::Saved;
use desk_types::{Message, Outcome, Packet, WantOfMemory};
use desk_world::{EventOutput, WorldReport};
use std::alloc::Global;

/// What a message says.
fn message_text(alloc: Global, message: &Message) -> Result<String, WantOfMemory>
    ensures { IfOk result (λ text. string_bytes text ≡ message_text message.now) }
{
    let view = message.view();
    match message {
        Message::Prepare { place, commit, .. } => {
            Ok(format!(in alloc; "Prepare view {view} place {place} commit {commit}")?)
        }
        Message::PrepareOk { place, .. } => {
            Ok(format!(in alloc; "PrepareOk view {view} place {place}")?)
        }
        Message::Commit { commit, .. } => {
            Ok(format!(in alloc; "Commit view {view} commit {commit}")?)
        }
        Message::StartViewChange { .. } => Ok(format!(in alloc; "StartViewChange view {view}")?),
        Message::DoViewChange {
            normal,
            commit,
            log,
            ..
        } => {
            let count = log.as_slice().len();
            Ok(format!(in alloc;
                "DoViewChange view {view} normal {normal} log {count} commit {commit}"
            )?)
        }
        Message::StartView { commit, log, .. } => {
            let count = log.as_slice().len();
            Ok(format!(in alloc; "StartView view {view} log {count} commit {commit}")?)
        }
        Message::GetState { base, .. } => {
            Ok(format!(in alloc; "GetState view {view} base {base}")?)
        }
        Message::NewState {
            base,
            commit,
            entries,
            ..
        } => {
            let count = entries.as_slice().len();
            Ok(format!(in alloc; "NewState view {view} base {base} log {count} commit {commit}")?)
        }
    }
}

/// Writes the line of a packet.
#[tactic(auto, unfolding(crate::specs::ReportText::packet_line))]
fn push_packet(
    alloc: Global,
    text: &mut String,
    number: u64,
    to: u8,
    packet: &Packet,
) -> Result<(), WantOfMemory>
    ensures line { OnOk result (string_bytes text.new
        ≡ string_bytes text.old ++ packet_line (number, (to, packet.now))) }
{
    let message = packet.message();
    let from = message.from();
    let said = message_text(alloc, message)?;
    write!(text, "packet {number}: {from} to {to} {said}\n")?;
    Ok(())
}

/// Writes the line of an answer.
#[tactic(auto, unfolding(crate::specs::ReportText::answer_line))]
fn push_answer(
    alloc: Global,
    text: &mut String,
    node: u8,
    outcome: &Outcome,
) -> Result<(), WantOfMemory>
    ensures { OnOk result (string_bytes text.new ≡ string_bytes text.old ++ answer_line (node, outcome.now)) }
{
    let reply = reply_line(alloc, outcome)?;
    write!(text, "answer {node}: {reply}")?;
    Ok(())
}

/// Writes the line of what a node saves.
#[tactic(auto, unfolding(crate::specs::ReportText::node_line))]
fn push_node(text: &mut String, node: usize, saved: &Saved) -> Result<(), WantOfMemory>
    ensures { OnOk result (string_bytes text.new ≡ string_bytes text.old ++ node_line (node, saved.now)) }
{
    let view = saved.view();
    let normal = saved.normal();
    let count = saved.log().len();
    let commit = saved.commit();
    write!(
        text,
        "node {node}: view {view} normal {normal} log {count} commit {commit}\n"
    )?;
    Ok(())
}

/// Writes the lines of packets, of which the first has a number, and answers the number of the next. Each line is some
/// bytes of the text, so that no number passes its range.
fn push_packets(
    alloc: Global,
    text: &mut String,
    first: u64,
    packets: &[(u8, Packet)],
) -> Result<u64, WantOfMemory>
    requires { first ≤ length (string_bytes text.old) + 1 }
    ensures next { IfOk result (λ next. next ≡ first + length packets.now) }
    ensures lines { OnOk result (string_bytes text.new ≡ string_bytes text.old ++ packet_lines first packets.now) }
    ensures within { IfOk result (λ next. next ≤ length (string_bytes text.new) + 1) }
{
    let mut number = first;
    for (to, packet) in packets {
        push_packet(alloc, text, number, *to, packet)?;
        prove!(number < text.len() as u64);
        number += 1;
    }
    Ok(number)
}

/// Writes the lines of answers.
fn push_answers(
    alloc: Global,
    text: &mut String,
    answers: &[(u8, Outcome)],
) -> Result<(), WantOfMemory>
    ensures { OnOk result (string_bytes text.new ≡ string_bytes text.old ++ flat_map answer_line answers.now) }
{
    for (node, outcome) in answers {
        push_answer(alloc, text, *node, outcome)?;
    }
    Ok(())
}

/// Writes the lines of what an event gave, of whose packets the first has a number, and answers the number of the next.
#[tactic(auto, unfolding(crate::specs::ReportText::output_lines))]
fn push_output(
    alloc: Global,
    text: &mut String,
    first: u64,
    output: &EventOutput,
) -> Result<u64, WantOfMemory>
    requires { first ≤ length (string_bytes text.old) + 1 }
    ensures next { IfOk result (λ next. next ≡ first + length output.now.packets) }
    ensures lines { OnOk result (string_bytes text.new ≡ string_bytes text.old ++ output_lines first output.now) }
    ensures within { IfOk result (λ next. next ≤ length (string_bytes text.new) + 1) }
{
    let next = push_packets(alloc, text, first, output.packets.as_slice())?;
    push_answers(alloc, text, output.answers.as_slice())?;
    Ok(next)
}

/// Writes the lines of what each event gave.
fn push_outputs(
    alloc: Global,
    text: &mut String,
    outputs: &[EventOutput],
) -> Result<(), WantOfMemory>
    ensures { OnOk result (string_bytes text.new ≡ string_bytes text.old ++ outputs_lines 1 outputs.now) }
{
    let mut number = 1;
    for output in outputs {
        number = push_output(alloc, text, number, output)?;
    }
    Ok(())
}

/// Writes the lines of what each node saves.
fn push_nodes(text: &mut String, nodes: &[Saved]) -> Result<(), WantOfMemory>
    ensures { OnOk result (string_bytes text.new
        ≡ string_bytes text.old ++ flat_map node_line (enumerate_from 0 nodes.now)) }
{
    for i in 0..nodes.len() {
        push_node(text, i, &nodes[i])?;
    }
    Ok(())
}

/// The lines of a report: after each other what each event gave, and at the end what each node saves. Packets are
/// numbered from 1.
pub(super) fn report_text(alloc: Global, report: &WorldReport) -> Result<String, WantOfMemory>
    ensures { IfOk result (λ text.
        string_bytes text ≡ report_text report.now.events.items report.now.nodes.items) }
{
    let mut text = String::new(alloc);
    push_outputs(alloc, &mut text, report.events.as_slice())?;
    push_nodes(&mut text, report.nodes.as_slice())?;
    Ok(text)
}
