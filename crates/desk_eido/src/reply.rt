//! The line that tells an outcome.

ghost use Rattle.std.specs.Prelude.{◌≡◌, IfOk, codes, string_bytes};
ghost use Rattle.desk_types.specs.Refusal.{refusal_number};
ghost use Rattle.desk_types.specs.declared.outcome.Outcome.TheVariants as outcomes;
ghost use Rattle.desk_types.specs.declared.refusal.Refusal.TheVariants as refusals;
ghost use Rattle.desk_eido.specs.ReplyLine.{line_of, word_text, command_members, reply_members};
ghost use Rattle.desk_eido.specs.ReplyLine.{count, first_details, last_details};
ghost use Rattle.desk_eido.specs.Writing.{with_all, with_content};

use crate::reply_writer::ReplyWriter;
use crate::shown::with_shown;
use desk_types::{ClientId, Outcome, Refusal, Reply, RequestNumber, WantOfMemory, Word};
use std::alloc::Global;

/// The reply that tells an outcome, as a compact JSON object and a newline. The members stand in the order of their
/// names' bytes.
pub fn reply_line(alloc: Global, outcome: &Outcome) -> Result<String, WantOfMemory>
    ensures { IfOk result (λ line. string_bytes line ≡ line_of outcome.now) }
{
    with_outcome(ReplyWriter::new(alloc)?, outcome)?.into_line()
}

/// The reply that tells want of memory, which takes none.
pub fn want_of_memory_line() -> &'static str
    ensures { result.now ≡ line_of (outcomes.Document refusals.WantOfMemory) }
{
    "{\"refusal\":40}\n"
}

/// With the members that tell an outcome.
fn with_outcome(reply: ReplyWriter, outcome: &Outcome) -> Result<ReplyWriter, WantOfMemory>
    ensures { IfOk result (λ w. w ≡ with_all (reply_members outcome.now) reply) }
{
    match outcome {
        Outcome::Document(refusal) => {
            let reply = with_first_details(reply, refusal)?;
            with_last_details(with_refusal(reply, refusal)?, refusal)
        }
        Outcome::Command {
            client,
            number,
            reply: answer,
        } => with_answer(reply, *client, *number, answer),
        Outcome::Node {
            client,
            number,
            refusal,
        } => {
            let reply = with_first_details(reply, refusal)?.count("number", number.get())?;
            let reply = with_refusal(reply, refusal)?.count("session", client.get())?;
            with_last_details(reply, refusal)
        }
        Outcome::Board { client, shown } => with_shown(reply, *client, shown),
    }
}

/// With the members that tell what the board answered to a command.
fn with_answer(
    reply: ReplyWriter,
    client: ClientId,
    number: RequestNumber,
    answer: &Reply,
) -> Result<ReplyWriter, WantOfMemory>
    ensures { IfOk result (λ w. w ≡ with_all (command_members client number answer.now) reply) }
{
    match answer {
        Reply::Done {
            place,
            word,
            incident,
        } => reply
            .optional_incident("incident", incident)?
            .count("number", number.get())?
            .text("ok", word_text(*word))?
            .count("place", *place)?
            .count("session", client.get()),
        Reply::Refused { place, refusal } => {
            let reply = with_first_details(reply, refusal)?
                .count("number", number.get())?
                .count("place", *place)?;
            let reply = with_refusal(reply, refusal)?.count("session", client.get())?;
            with_last_details(reply, refusal)
        }
    }
}

/// With a refusal's number.
pub(crate) fn with_refusal(
    reply: ReplyWriter,
    refusal: &Refusal,
) -> Result<ReplyWriter, WantOfMemory>
    ensures { IfOk result (λ w. w ≡ with_content (codes "refusal") (count (refusal_number refusal.now)) reply) }
{
    reply.count("refusal", u64::from(refusal.number()))
}

/// With what a refusal tells besides its number under names that come before `number` and `place`.
pub(crate) fn with_first_details(
    reply: ReplyWriter,
    refusal: &Refusal,
) -> Result<ReplyWriter, WantOfMemory>
    ensures { IfOk result (λ w. w ≡ with_all (first_details refusal.now) reply) }
{
    match refusal {
        Refusal::Missing { member }
        | Refusal::WrongKind { member }
        | Refusal::OutOfRange { member }
        | Refusal::BadIdentifier { member }
        | Refusal::BadTime { member } => reply.text("member", member.name()),
        Refusal::IncidentMerged { into: incident }
        | Refusal::UnitCommitted { incident }
        | Refusal::StandingBy { incident } => reply.text("incident", incident.as_text()),
        Refusal::NotPrimary { node, .. } => reply.count("node", u64::from(*node)),
        Refusal::Stale { latest } => reply.count("latest", *latest),
        _ => Ok(reply),
    }
}

/// With what it tells under names that come after `session`.
pub(crate) fn with_last_details(
    reply: ReplyWriter,
    refusal: &Refusal,
) -> Result<ReplyWriter, WantOfMemory>
    ensures { IfOk result (λ w. w ≡ with_all (last_details refusal.now) reply) }
{
    match refusal {
        Refusal::NotPrimary { view, .. } => reply.count("view", *view),
        _ => Ok(reply),
    }
}

/// The word that tells what was done.
fn word_text(word: Word) -> &'static str
    ensures { result.now ≡ word_text word }
{
    match word {
        Word::Opened => "opened",
        Word::CallAdded => "call_added",
        Word::Linked => "linked",
        Word::Unlinked => "unlinked",
        Word::Merged => "merged",
        Word::Split => "split",
        Word::Cleared => "cleared",
        Word::Reopened => "reopened",
        Word::Noted => "noted",
        Word::SignedOn => "signed_on",
        Word::SignedOff => "signed_off",
        Word::Assigned => "assigned",
        Word::StatusSet => "status_set",
        Word::Released => "released",
        Word::StandingBy => "standing_by",
        Word::StoodDown => "stood_down",
        Word::Replaced => "replaced",
    }
}
