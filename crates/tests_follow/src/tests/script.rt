//! Nodes that answer by a script.

ghost use Rattle.std.specs.Prelude.{◌≡◌};

use desk_follow::{Follower, NoReply, Nodes, TryLog, follow_lines};
use desk_lines::LineBuffer;
use desk_types::Refusal;
use std::alloc::Global;

/// What a node answers to a try, if it does.
pub(super) type Answer = Option<&'static str>;

/// Nodes that answer in turn by a script, which of them were asked, and the pauses between. When the script is at its
/// end there is no time for another try.
#[derive(Drop)]
pub(super) struct Scripted<'a> {
    alloc: Global,
    answers: &'a [Answer],
    asked: Vec<u8>,
    pauses: Vec<u64>,
    tries: TryLog,
}

impl<'a> Scripted<'a> {
    pub(super) fn new(alloc: Global, answers: &'a [Answer]) -> Scripted<'a> {
        Scripted {
            alloc,
            answers,
            asked: Vec::new(alloc),
            pauses: Vec::new(alloc),
            tries: TryLog::new(),
        }
    }

    /// What a node answers that is asked now.
    fn answer(&mut self, node: u8) -> Result<String, NoReply>
        ensures { self.new.tries ≡ self.old.tries }
    {
        if self.asked.push(node).is_err() {
            return Err(NoReply::WantOfMemory);
        }
        match self.answers.get(self.asked.len().saturating_sub(1)) {
            Some(Some(text)) => String::from_str(self.alloc, text).map_err(
                |_| NoReply::WantOfMemory,
            ),
            _ => Err(NoReply::Broken),
        }
    }
}

impl<'a> Nodes for Scripted<'a> {
    ghost use Rattle.std.specs.Prelude.{false};

    ghost tries = { λ nodes. nodes.tries };

    ghost has_key = { λ _. false };

    fn begin(self) -> Scripted<'a> {
        self
    }

    fn ask(self, node: u8, line: &LineBuffer) -> (Scripted<'a>, Result<String, NoReply>) {
        let mut nodes = self;
        let reply = nodes.answer(node);
        let reply = nodes.tries.note(node, false, line, reply);
        (nodes, reply)
    }

    fn pause(self, milliseconds: u64) -> (Scripted<'a>, bool) {
        let mut nodes = self;
        let is_preserved = nodes.pauses.push(milliseconds).is_ok();
        let more = nodes.asked.len() < nodes.answers.len();
        (nodes, is_preserved && more)
    }
}

/// Whether a line that is answered so is asked at these nodes, with these pauses between, and the last answer is told.
pub(super) fn is_reported(alloc: Global, answers: &[Answer], asked: &[u8], pauses: &[u64]) -> bool {
    let (mut input, mut output) = ("{}\n".as_bytes(), Vec::new(alloc));
    let follower = Follower::new(Scripted::new(alloc, answers), 3);
    let (follower, outcome) = follow_lines(alloc, &mut input, &mut output, follower);
    let reported = match answers.last() {
        Some(Some(reply)) => output.as_slice() == reply.as_bytes(),
        _ => false,
    };
    let is_so = follower.nodes.asked.as_slice() == asked
        && follower.nodes.pauses.as_slice() == pauses;
    drop(follower);
    outcome.is_ok() && reported && is_so
}

/// Whether a line that is answered so is given up, and nothing is told.
pub(super) fn is_given_up(alloc: Global, answers: &[Answer]) -> bool {
    let (mut input, mut output) = ("{}\n".as_bytes(), Vec::new(alloc));
    let follower = Follower::new(Scripted::new(alloc, answers), 3);
    let (follower, outcome) = follow_lines(alloc, &mut input, &mut output, follower);
    let is_late = follower.is_late;
    drop(follower);
    let is_fault = match &outcome {
        Err(Refusal::ReadFault) => true,
        _ => false,
    };
    is_late && output.is_empty() && is_fault
}
