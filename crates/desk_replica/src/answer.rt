//! What the sessions that wait hear of their requests.

ghost use Rattle.std.specs.Prelude.{◌≡◌, ◌⊎◌, false, if◌then◌else◌, None, Some, IfSome, MatchOption};
ghost use Rattle.desk_replica.specs.declared.answer.Answer.TheVariants as answers;
ghost use Rattle.desk_replica.specs.Answers.{is_of_node, session_answer, place_of_reply, TakesMemory};

use desk_types::{ClientId, Outcome, Refusal, Reply, RequestNumber};

/// What becomes of a request.
#[derive(Drop)]
pub enum Answer {
    /// It is committed at this place of the history, counted from 1.
    Committed {
        client: ClientId,
        number: RequestNumber,
        place: u64,
    },
    /// The node refused it.
    Refused {
        client: ClientId,
        number: RequestNumber,
        refusal: Refusal,
    },
}

/// The place of the entry that a reply answers.
fn place_of(reply: &Reply) -> u64
    ensures { result ≡ place_of_reply reply.now }
{
    match reply {
        Reply::Done { place, .. } => *place,
        Reply::Refused { place, .. } => *place,
    }
}

// A copy of a refusal that a node gives. It takes no memory.
fn copy_of_nodes(refusal: &Refusal) -> Option<Refusal>
    ensures { result ≡ (if is_of_node refusal.now then Some refusal.now else None) }
{
    match refusal {
        Refusal::NotPrimary { view, node } => Some(Refusal::NotPrimary {
            view: *view,
            node: *node,
        }),
        Refusal::Stale { latest } => Some(Refusal::Stale { latest: *latest }),
        Refusal::BookFull => Some(Refusal::BookFull),
        _ => None,
    }
}

/// A copy of a refusal. There may be no memory for one that no node gives.
pub fn copy_refusal(refusal: &Refusal) -> Option<Refusal>
    ensures { MatchOption result (is_of_node refusal.now ≡ false) (λ copy. copy ≡ refusal.now) }
{
    match copy_of_nodes(refusal) {
        Some(copy) => Some(copy),
        None => refusal.copy().ok(),
    }
}

/// The refusal of a request; `None` where there is no memory for it, and no node gives such a one.
fn refused(client: ClientId, number: RequestNumber, refusal: &Refusal) -> Option<Answer>
    ensures { MatchOption result (is_of_node refusal.now ≡ false)
        (λ answer. answer ≡ answers.Refused client number refusal.now) }
{
    match copy_refusal(refusal) {
        Some(refusal) => Some(Answer::Refused {
            client,
            number,
            refusal,
        }),
        None => None,
    }
}

/// What an outcome tells the session of its request, whose place stands after so many entries of past logs; `None`
/// where it tells none, or is a refusal that no node gives and for which there is no memory.
pub fn session_answer(base: u64, outcome: &Outcome) -> Option<Answer>
    ensures { (result ≡ session_answer base outcome.now)
        ⊎ ((result ≡ None) × IfSome (session_answer base outcome.now) TakesMemory) }
{
    match outcome {
        Outcome::Document(_) => None,
        Outcome::Command {
            client,
            number,
            reply,
        } => Some(Answer::Committed {
            client: *client,
            number: *number,
            place: base.saturating_add(place_of(reply)),
        }),
        Outcome::Node {
            client,
            number,
            refusal,
        } => refused(*client, *number, refusal),
        Outcome::Board { .. } => None,
    }
}
