//! Following the primary.

ghost use Rattle.std.specs.Prelude.{◌≡◌, ◌≢◌, ◌≤◌, ◌<◌, ◌*◌, min, OnOk, IfErr, IfSome, MatchResult, Some};
ghost use Rattle.std.specs.Prelude.{string_bytes, false};
ghost use Rattle.std.specs.Io.KnownBytes.{IsAtEnd};
ghost use Rattle.desk_types.specs.Group.{IsGroupSize};
ghost use Rattle.desk_types.specs.Refusal.{IsStreamFault};
ghost use Rattle.desk_types.specs.declared.limits.TheConstants.{MOST_NODES};
ghost use Rattle.desk_lines.specs.Lines.{lines_of};
ghost use Rattle.desk_lines.specs.Served.{Served, BreaksOff};
ghost use Rattle.desk_follow.specs.declared.course.Course.TheVariants as courses;
ghost use Rattle.desk_follow.specs.declared.follow.TheConstants.{LONGEST_PAUSE};
ghost use Rattle.desk_follow.specs.Readings.{course_of};
ghost use Rattle.desk_follow.specs.Tries.{Answered, Tried, GivenUp, IsWithin, course_by, came_of, following_node};
ghost use Rattle.desk_follow.specs.Tries.{node_by};

use crate::course::{Course, course_of};
use crate::nodes::{NoReply, Nodes};
use desk_lines::{Handler, LineBuffer, NoGate, ReplyText, serve_lines};
use desk_types::Refusal;
use desk_types::limits::MOST_NODES;
use std::alloc::Global;
use std::io::{Read, Write};

/// The first pause before a line is asked again, in milliseconds. Each later one of the line is twice as long.
const FIRST_PAUSE: u64 = 20;

/// The longest pause, in milliseconds.
const LONGEST_PAUSE: u64 = 500;

/// Who asks the nodes of a group.
pub struct Follower<N: Nodes> {
    pub nodes: N,
    /// The node that is asked next.
    pub node: u8,
    /// How many nodes the group has.
    pub count: u8,
    /// A line was given up since its time was over.
    pub is_late: bool,
    ghost within: { node < count },
    ghost few: { count ≤ MOST_NODES },
}

// Written out, so that callers need not prove each part's drop.
impl<N: Nodes + Drop> Drop for Follower<N> {
    fn drop(self) {
        let Follower {
            nodes: _,
            node: _,
            count: _,
            is_late: _,
        } = self;
    }
}

impl<N: Nodes> Follower<N> {
    /// Who has asked nothing yet, of a group of so many nodes.
    pub fn new(nodes: N, count: u8) -> Follower<N>
        requires few { IsGroupSize count }
        ensures asked { result.nodes ≡ nodes }
        ensures first { result.node ≡ 0 }
        ensures count { result.count ≡ count }
        ensures late { result.is_late ≡ false }
    {
        Follower {
            nodes,
            node: 0,
            count,
            is_late: false,
        }
    }

    /// Who has asked nodes a line, and asks this node next.
    fn after_line(nodes: N, node: u8, count: u8, is_late: bool) -> Follower<N>
        requires within { node < count }
        requires few { count ≤ MOST_NODES }
        ensures nodes { result.nodes ≡ nodes }
        ensures node { result.node ≡ node }
        ensures count { result.count ≡ count }
        ensures late { result.is_late ≡ is_late }
    {
        Follower {
            nodes,
            node,
            count,
            is_late,
        }
    }
}

/// Why a line is to be asked again.
#[derive(Drop)]
struct Again {
    course: Course,
    lacks_memory: bool,
}

/// The reply, where one came that is final.
fn final_reply(came: Result<String, NoReply>, count: u8) -> Result<String, Again>
    ensures { MatchResult result
        (λ reply. (came_of came ≡ Some (string_bytes reply)) × (course_of count (string_bytes reply) ≡ courses.Final))
        (λ again. (again.course ≡ course_by count (came_of came)) × (again.course ≢ courses.Final)
        × IsWithin count again.course) }
{
    match came {
        Ok(reply) => match course_of(reply.as_bytes(), count) {
            Course::Final => Ok(reply),
            course => Err(Again {
                course,
                lacks_memory: false,
            }),
        },
        Err(fault) => Err(Again {
            course: Course::Later,
            lacks_memory: fault == NoReply::WantOfMemory,
        }),
    }
}

/// The node after a node. After the last it is the first.
fn following_node(node: u8, count: u8) -> u8
    requires { node < count }
    ensures same { result ≡ following_node count node }
    ensures within { result < count }
{
    if node + 1 == count { 0 } else { node + 1 }
}

/// Where a line goes that is asked again, which was asked at a node.
fn node_by(node: u8, count: u8, course: Course) -> u8
    requires within { node < count }
    requires primary { IsWithin count course }
    ensures same { result ≡ node_by count node course }
    ensures within { result < count }
{
    match course {
        Course::At(primary) if primary != node => primary,
        Course::Final => node,
        _ => following_node(node, count),
    }
}

/// The pause after a pause, in milliseconds.
fn longer_pause(pause: u64) -> u64
    requires { pause ≤ LONGEST_PAUSE }
    ensures { result ≡ min (2 * pause) LONGEST_PAUSE }
{
    (2 * pause).min(LONGEST_PAUSE)
}

/// How a line is asked again: how often it went to a primary that was named since its last pause, and its next pause in
/// milliseconds.
#[derive(Drop)]
struct Pace {
    sent_on: u8,
    pause: u64,
    ghost long: { pause ≤ LONGEST_PAUSE },
}

impl Pace {
    fn new() -> Pace {
        Pace {
            sent_on: 0,
            pause: FIRST_PAUSE,
        }
    }

    /// How many milliseconds are waited before the next try. A line goes to a primary that was named at once; but where
    /// nodes send it on more often than the group has nodes, it waits as well.
    fn wait(&mut self, is_sent_on: bool, count: u8) -> u64 {
        if is_sent_on && self.sent_on < count {
            self.sent_on += 1;
            return 0;
        }
        let pause = self.pause;
        self.sent_on = 0;
        self.pause = longer_pause(pause);
        pause
    }
}

/// A line is answered by its final reply, whichever node gives it.
///
/// It gives up where memory is refused (`WantOfMemory`), and where the time for the line's tries is over (`ReadFault`,
/// and the follower is late). Whether the line was done is unknown then.
impl<N: Nodes> Handler for Follower<N> {
    ghost use Rattle.std.specs.Prelude.{ℕ, Bool};
    ghost use Rattle.desk_follow.specs.Tries.{Answered, Tried, GivenUp};

    ghost answers = { λ f line reply g. Answered f.count (N.has_key f.nodes) (N.tries f.nodes) f.node line reply
        (N.tries g.nodes) g.node };

    ghost gives_up = { λ f line refusal g. Tried f.count (N.has_key f.nodes) (N.tries f.nodes) f.node line
        (N.tries g.nodes) g.node × GivenUp refusal g.is_late };

    ghost Preserved = { ℕ × Bool };

    ghost preserved = { λ f. (f.count, N.has_key f.nodes) };

    fn answer(self, line: &LineBuffer) -> (Follower<N>, Result<ReplyText, Refusal>) {
        let Follower {
            nodes,
            mut node,
            count,
            is_late: _,
        } = self;
        let mut nodes = nodes.begin();
        let mut pace = Pace::new();
        for _tried in 0..u64::MAX {
            let (asked, came) = nodes.ask(node, line);
            nodes = asked;
            let again = match final_reply(came, count) {
                Ok(reply) => {
                    let answered = Follower::after_line(nodes, node, count, false);
                    return (answered, Ok(ReplyText::Line(reply)));
                }
                Err(again) => again,
            };
            let next = node_by(node, count, again.course);
            let is_sent_on = again.course == Course::At(next);
            node = next;
            if again.lacks_memory {
                let lacking = Follower::after_line(nodes, node, count, false);
                return (lacking, Err(Refusal::WantOfMemory));
            }
            let (waited, more) = nodes.pause(pace.wait(is_sent_on, count));
            nodes = waited;
            if !more {
                break;
            }
        }
        let late = Follower::after_line(nodes, node, count, true);
        (late, Err(Refusal::ReadFault))
    }
}

/// Sends the lines of an input to the nodes of a group, one after the other, each until its final reply has come, and
/// writes that reply before the next line is sent, until the input is at its end.
///
/// Which lines are skipped, and when the output is flushed, is as `serve_lines` says. It ends where memory is refused
/// (`WantOfMemory`); at a read of the input that fails, after 4,294,967,295 reads of it, and where the time for a
/// line's tries is over, of which the follower tells (`ReadFault`); and at a write to the output that fails or takes no
/// byte (`WriteFault`).
pub fn follow_lines<I: Read, O: Write, N: Nodes>(
    alloc: Global,
    input: &mut I,
    output: &mut O,
    follower: Follower<N>,
) -> (Follower<N>, Result<(), Refusal>)
    ensures end { OnOk result.1 (IsAtEnd (I.remaining input.new)) }
    // Each line that is not skipped was asked at nodes until its final reply came, one after the other, each after a
    // handshake where they have a key, and exactly those replies were written.
    ensures ok { OnOk result.1 (IfSome (I.remaining input.old) (λ text.
        Served (λ f line reply g. Answered f.count (N.has_key f.nodes) (N.tries f.nodes) f.node line reply
        (N.tries g.nodes) g.node)
        follower (O.contents output.old) (lines_of text) result.0 (O.contents output.new))) }
    // That was so for the first of them. The next may have been given up, and whole replies were written unless a write
    // failed.
    ensures err { IfErr result.1 (λ r. IfSome (I.remaining input.old) (λ text.
        BreaksOff (λ f line reply g. Answered f.count (N.has_key f.nodes) (N.tries f.nodes) f.node line reply
        (N.tries g.nodes) g.node)
        (λ f line refusal g. Tried f.count (N.has_key f.nodes) (N.tries f.nodes) f.node line (N.tries g.nodes) g.node
        × GivenUp refusal g.is_late)
        r follower (O.contents output.old) (lines_of text) result.0 (O.contents output.new))) }
    ensures fault { IfErr result.1 IsStreamFault }
    ensures count { result.0.count ≡ follower.count }
    ensures key { N.has_key result.0.nodes ≡ N.has_key follower.nodes }
{
    serve_lines(alloc, input, output, follower, &NoGate)
}
