//! Packets and answers as texts.

use desk_node::Step;
use desk_types::{Entry, Items, Message, Outcome, Packet, Refusal, Reply};
use std::fmt::{self, Display, Formatter, Write};

/// Numbers, each after its label. An empty label stands for no number.
type Numbers = [(&'static str, u64); 5];

const NONE: (&str, u64) = ("", 0);

fn kind_name(message: &Message) -> &'static str {
    match message {
        Message::Prepare { .. } => "Prepare",
        Message::PrepareOk { .. } => "PrepareOk",
        Message::Commit { .. } => "Commit",
        Message::StartViewChange { .. } => "StartViewChange",
        Message::DoViewChange { .. } => "DoViewChange",
        Message::StartView { .. } => "StartView",
        Message::GetState { .. } => "GetState",
        Message::NewState { .. } => "NewState",
    }
}

/// The numbers of a message that stand after its view.
fn other_numbers(message: &Message) -> Numbers {
    match message {
        Message::Prepare {
            place,
            commit,
            entry,
            ..
        } => [
            ("place", *place),
            ("commit", *commit),
            ("client", entry.client.get()),
            ("number", entry.number.get()),
            NONE,
        ],
        Message::PrepareOk { place, .. } => [("place", *place), NONE, NONE, NONE, NONE],
        Message::Commit { commit, .. } => [("commit", *commit), NONE, NONE, NONE, NONE],
        Message::StartViewChange { .. } => [NONE; 5],
        Message::DoViewChange {
            normal,
            commit,
            log,
            ..
        } => logged(("normal", *normal), log, *commit),
        Message::StartView { commit, log, .. } => logged(NONE, log, *commit),
        Message::GetState { base, .. } => [("base", *base), NONE, NONE, NONE, NONE],
        Message::NewState {
            base,
            commit,
            entries,
            ..
        } => logged(("base", *base), entries, *commit),
    }
}

/// A number, then how many entries come with it, and the commit.
fn logged(number: (&'static str, u64), entries: &Items<Entry>, commit: u64) -> Numbers {
    let length = entries.as_slice().len() as u64;
    [number, ("log", length), ("commit", commit), NONE, NONE]
}

/// What tells a reply: its numbers, and the incident that it opens.
fn reply_parts(reply: &Reply) -> ([(&'static str, u64); 3], &str) {
    match reply {
        Reply::Done {
            place,
            incident: Some(id),
            ..
        } => ([("place", *place), NONE, NONE], id.as_text()),
        Reply::Done { place, .. } => ([("place", *place), NONE, NONE], "nothing"),
        Reply::Refused { place, refusal } => (
            [
                ("place", *place),
                ("refusal", refusal.number() as u64),
                NONE,
            ],
            "",
        ),
    }
}

fn refusal_numbers(refusal: &Refusal) -> [(&'static str, u64); 3] {
    let number = ("refusal", refusal.number() as u64);
    match refusal {
        Refusal::NotPrimary { view, node } => [number, ("view", *view), ("node", *node as u64)],
        Refusal::Stale { latest } => [number, ("latest", *latest), NONE],
        _ => [number, NONE, NONE],
    }
}

/// What tells an answer: its numbers, and the incident that it opens.
fn answer_parts(answer: &Outcome) -> (Numbers, &str) {
    match answer {
        Outcome::Command {
            client,
            number,
            reply,
        } => {
            let (reported, opened) = reply_parts(reply);
            let client = ("client", client.get());
            (
                [
                    client,
                    ("number", number.get()),
                    reported[0],
                    reported[1],
                    reported[2],
                ],
                opened,
            )
        }
        Outcome::Node {
            client,
            number,
            refusal,
        } => {
            let reported = refusal_numbers(refusal);
            let client = ("client", client.get());
            (
                [
                    client,
                    ("number", number.get()),
                    reported[0],
                    reported[1],
                    reported[2],
                ],
                "",
            )
        }
        _ => ([NONE, NONE, NONE, NONE, NONE], "another"),
    }
}

fn write_numbers<W: Write>(f: &mut Formatter<W>, numbers: &Numbers) -> fmt::Result {
    for (label, number) in numbers {
        if !label.is_empty() {
            write!(f, " {label} {number}")?;
        }
    }
    Ok(())
}

/// A packet with its receiver, as `0 to 1 Prepare view 0 place 1 commit 0 client 7 number 1`.
#[derive(Clone, Copy)]
struct PacketText<'a> {
    to: u8,
    packet: &'a Packet,
}

impl Display for PacketText<'_> {
    fn fmt<W: Write>(&self, f: &mut Formatter<W>) -> fmt::Result {
        let message = self.packet.message();
        let (kind, from, view) = (kind_name(message), message.from(), message.view());
        write!(f, "{from} to {} {kind} view {view}", self.to)?;
        write_numbers(f, &other_numbers(message))
    }
}

/// An answer of a node, as `answer 0: client 7 number 1 place 1 opens urn:..`.
#[derive(Clone, Copy)]
struct AnswerText<'a> {
    node: u8,
    answer: &'a Outcome,
}

impl Display for AnswerText<'_> {
    fn fmt<W: Write>(&self, f: &mut Formatter<W>) -> fmt::Result {
        let (numbers, opened) = answer_parts(self.answer);
        write!(f, "answer {}:", self.node)?;
        write_numbers(f, &numbers)?;
        if opened.is_empty() {
            return Ok(());
        }
        write!(f, " opens {opened}")
    }
}

/// Each packet of a step, and each answer, on a line of its own.
#[derive(Clone, Copy)]
pub struct StepText<'a> {
    pub node: u8,
    pub step: &'a Step,
}

impl Display for StepText<'_> {
    fn fmt<W: Write>(&self, f: &mut Formatter<W>) -> fmt::Result {
        for sent in &self.step.packets {
            let (to, packet) = (sent.0, &sent.1);
            writeln!(f, "{}", PacketText { to, packet })?;
        }
        for answer in &self.step.answers {
            let node = self.node;
            writeln!(f, "{}", AnswerText { node, answer })?;
        }
        Ok(())
    }
}
