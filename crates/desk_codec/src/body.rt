//! Readers of bodies: a verb's number, when the command was made, and the verb's fields.

ghost use Rattle.std.specs.Prelude.{◌≡◌, ◌⊎◌, IfOk, IfErr};
ghost use Rattle.desk_types.specs.declared.command.Command.{Command};
ghost use Rattle.desk_types.specs.declared.refusal.Refusal.TheVariants as refusals;
ghost use Rattle.desk_codec.specs.Spelling.{SpellsBody};
ghost use Rattle.desk_codec.specs.Reading.{Gives, first_open, first_add_call, first_link, first_unlink, first_merge};
ghost use Rattle.desk_codec.specs.Reading.{first_split, first_clear, first_reopen, first_note, first_sign_on};
ghost use Rattle.desk_codec.specs.Reading.{first_sign_off, first_assign, first_set_status, first_release};
ghost use Rattle.desk_codec.specs.Reading.{first_stand_by, first_stand_down, first_replace};
ghost use Rattle.desk_codec.specs.Reading.{first_of_verb, first_body, whole_body};

use crate::fault::{FrameFault, SpellingFault};
use crate::field::{node_of, read_byte, read_seconds, read_status, read_u64, token_of};
use crate::identifier::{read_call, read_incident, read_optional_call, read_optional_incident};
use crate::text::{read_text, read_unit};
use desk_types::{Command, Verb};
use std::alloc::Global;

#[tactic(auto, unfolding(crate::specs::Reading::first_open))]
fn read_open(alloc: Global, bytes: &[u8]) -> Result<(Command, &[u8]), SpellingFault>
    ensures { Gives (λ x. (x.0, x.1.now)) result (first_open bytes.now) }
{
    let (at, rest) = read_seconds(bytes)?;
    let (kind, rest) = read_text(alloc, rest)?;
    let (site, rest) = read_text(alloc, rest)?;
    let (incident, rest) = read_optional_incident(alloc, rest)?;
    let (call, rest) = read_optional_call(alloc, rest)?;
    Ok((
        Command::Open {
            at,
            kind,
            site,
            incident,
            call,
        },
        rest,
    ))
}

#[tactic(auto, unfolding(crate::specs::Reading::first_add_call))]
fn read_add_call(alloc: Global, bytes: &[u8]) -> Result<(Command, &[u8]), SpellingFault>
    ensures { Gives (λ x. (x.0, x.1.now)) result (first_add_call bytes.now) }
{
    let (at, rest) = read_seconds(bytes)?;
    let (incident, rest) = read_incident(alloc, rest)?;
    let (call, rest) = read_call(alloc, rest)?;
    Ok((Command::AddCall { at, incident, call }, rest))
}

#[tactic(auto, unfolding(crate::specs::Reading::first_link))]
fn read_link(alloc: Global, bytes: &[u8]) -> Result<(Command, &[u8]), SpellingFault>
    ensures { Gives (λ x. (x.0, x.1.now)) result (first_link bytes.now) }
{
    let (at, rest) = read_seconds(bytes)?;
    let (incident, rest) = read_incident(alloc, rest)?;
    let (other, rest) = read_incident(alloc, rest)?;
    Ok((
        Command::Link {
            at,
            incident,
            other,
        },
        rest,
    ))
}

#[tactic(auto, unfolding(crate::specs::Reading::first_unlink))]
fn read_unlink(alloc: Global, bytes: &[u8]) -> Result<(Command, &[u8]), SpellingFault>
    ensures { Gives (λ x. (x.0, x.1.now)) result (first_unlink bytes.now) }
{
    let (at, rest) = read_seconds(bytes)?;
    let (incident, rest) = read_incident(alloc, rest)?;
    let (other, rest) = read_incident(alloc, rest)?;
    Ok((
        Command::Unlink {
            at,
            incident,
            other,
        },
        rest,
    ))
}

#[tactic(auto, unfolding(crate::specs::Reading::first_merge))]
fn read_merge(alloc: Global, bytes: &[u8]) -> Result<(Command, &[u8]), SpellingFault>
    ensures { Gives (λ x. (x.0, x.1.now)) result (first_merge bytes.now) }
{
    let (at, rest) = read_seconds(bytes)?;
    let (incident, rest) = read_incident(alloc, rest)?;
    let (into, rest) = read_incident(alloc, rest)?;
    Ok((Command::Merge { at, incident, into }, rest))
}

#[tactic(auto, unfolding(crate::specs::Reading::first_split))]
fn read_split(alloc: Global, bytes: &[u8]) -> Result<(Command, &[u8]), SpellingFault>
    ensures { Gives (λ x. (x.0, x.1.now)) result (first_split bytes.now) }
{
    let (at, rest) = read_seconds(bytes)?;
    let (incident, rest) = read_incident(alloc, rest)?;
    let (call, rest) = read_call(alloc, rest)?;
    let (kind, rest) = read_text(alloc, rest)?;
    let (site, rest) = read_text(alloc, rest)?;
    Ok((
        Command::Split {
            at,
            incident,
            call,
            kind,
            site,
        },
        rest,
    ))
}

#[tactic(auto, unfolding(crate::specs::Reading::first_clear))]
fn read_clear(alloc: Global, bytes: &[u8]) -> Result<(Command, &[u8]), SpellingFault>
    ensures { Gives (λ x. (x.0, x.1.now)) result (first_clear bytes.now) }
{
    let (at, rest) = read_seconds(bytes)?;
    let (incident, rest) = read_incident(alloc, rest)?;
    Ok((Command::Clear { at, incident }, rest))
}

#[tactic(auto, unfolding(crate::specs::Reading::first_reopen))]
fn read_reopen(alloc: Global, bytes: &[u8]) -> Result<(Command, &[u8]), SpellingFault>
    ensures { Gives (λ x. (x.0, x.1.now)) result (first_reopen bytes.now) }
{
    let (at, rest) = read_seconds(bytes)?;
    let (incident, rest) = read_incident(alloc, rest)?;
    Ok((Command::Reopen { at, incident }, rest))
}

#[tactic(auto, unfolding(crate::specs::Reading::first_note))]
fn read_note(alloc: Global, bytes: &[u8]) -> Result<(Command, &[u8]), SpellingFault>
    ensures { Gives (λ x. (x.0, x.1.now)) result (first_note bytes.now) }
{
    let (at, rest) = read_seconds(bytes)?;
    let (incident, rest) = read_incident(alloc, rest)?;
    let (text, rest) = read_text(alloc, rest)?;
    Ok((Command::Note { at, incident, text }, rest))
}

#[tactic(auto, unfolding(crate::specs::Reading::first_sign_on))]
fn read_sign_on(alloc: Global, bytes: &[u8]) -> Result<(Command, &[u8]), SpellingFault>
    ensures { Gives (λ x. (x.0, x.1.now)) result (first_sign_on bytes.now) }
{
    let (at, rest) = read_seconds(bytes)?;
    let (unit, rest) = read_unit(alloc, rest)?;
    Ok((Command::SignOn { at, unit }, rest))
}

#[tactic(auto, unfolding(crate::specs::Reading::first_sign_off))]
fn read_sign_off(alloc: Global, bytes: &[u8]) -> Result<(Command, &[u8]), SpellingFault>
    ensures { Gives (λ x. (x.0, x.1.now)) result (first_sign_off bytes.now) }
{
    let (at, rest) = read_seconds(bytes)?;
    let (unit, rest) = read_unit(alloc, rest)?;
    Ok((Command::SignOff { at, unit }, rest))
}

#[tactic(auto, unfolding(crate::specs::Reading::first_assign))]
fn read_assign(alloc: Global, bytes: &[u8]) -> Result<(Command, &[u8]), SpellingFault>
    ensures { Gives (λ x. (x.0, x.1.now)) result (first_assign bytes.now) }
{
    let (at, rest) = read_seconds(bytes)?;
    let (unit, rest) = read_unit(alloc, rest)?;
    let (incident, rest) = read_incident(alloc, rest)?;
    Ok((Command::Assign { at, unit, incident }, rest))
}

#[tactic(auto, unfolding(crate::specs::Reading::first_set_status))]
fn read_set_status(alloc: Global, bytes: &[u8]) -> Result<(Command, &[u8]), SpellingFault>
    ensures { Gives (λ x. (x.0, x.1.now)) result (first_set_status bytes.now) }
{
    let (at, rest) = read_seconds(bytes)?;
    let (unit, rest) = read_unit(alloc, rest)?;
    let (status, rest) = read_status(rest)?;
    Ok((Command::SetStatus { at, unit, status }, rest))
}

#[tactic(auto, unfolding(crate::specs::Reading::first_release))]
fn read_release(alloc: Global, bytes: &[u8]) -> Result<(Command, &[u8]), SpellingFault>
    ensures { Gives (λ x. (x.0, x.1.now)) result (first_release bytes.now) }
{
    let (at, rest) = read_seconds(bytes)?;
    let (unit, rest) = read_unit(alloc, rest)?;
    Ok((Command::Release { at, unit }, rest))
}

#[tactic(auto, unfolding(crate::specs::Reading::first_stand_by))]
fn read_stand_by(alloc: Global, bytes: &[u8]) -> Result<(Command, &[u8]), SpellingFault>
    ensures { Gives (λ x. (x.0, x.1.now)) result (first_stand_by bytes.now) }
{
    let (at, rest) = read_seconds(bytes)?;
    let (unit, rest) = read_unit(alloc, rest)?;
    let (incident, rest) = read_incident(alloc, rest)?;
    Ok((Command::StandBy { at, unit, incident }, rest))
}

#[tactic(auto, unfolding(crate::specs::Reading::first_stand_down))]
fn read_stand_down(alloc: Global, bytes: &[u8]) -> Result<(Command, &[u8]), SpellingFault>
    ensures { Gives (λ x. (x.0, x.1.now)) result (first_stand_down bytes.now) }
{
    let (at, rest) = read_seconds(bytes)?;
    let (unit, rest) = read_unit(alloc, rest)?;
    Ok((Command::StandDown { at, unit }, rest))
}

#[tactic(auto, unfolding(crate::specs::Reading::first_replace))]
fn read_replace(bytes: &[u8]) -> Result<(Command, &[u8]), SpellingFault>
    ensures { Gives (λ x. (x.0, x.1.now)) result (first_replace bytes.now) }
{
    let (at, rest) = read_seconds(bytes)?;
    let (number, rest) = read_byte(rest)?;
    let node = node_of(number)?;
    let (number, rest) = read_u64(rest)?;
    let token = token_of(number)?;
    Ok((Command::Replace { at, node, token }, rest))
}

/// What stands after the number of this verb.
#[tactic(auto, unfolding(crate::specs::Reading::first_of_verb))]
fn read_of_verb(alloc: Global, verb: Verb, bytes: &[u8]) -> Result<(Command, &[u8]), SpellingFault>
    ensures { Gives (λ x. (x.0, x.1.now)) result (first_of_verb verb bytes.now) }
{
    match verb {
        Verb::Open => read_open(alloc, bytes),
        Verb::AddCall => read_add_call(alloc, bytes),
        Verb::Link => read_link(alloc, bytes),
        Verb::Unlink => read_unlink(alloc, bytes),
        Verb::Merge => read_merge(alloc, bytes),
        Verb::Split => read_split(alloc, bytes),
        Verb::Clear => read_clear(alloc, bytes),
        Verb::Reopen => read_reopen(alloc, bytes),
        Verb::Note => read_note(alloc, bytes),
        Verb::SignOn => read_sign_on(alloc, bytes),
        Verb::SignOff => read_sign_off(alloc, bytes),
        Verb::Assign => read_assign(alloc, bytes),
        Verb::SetStatus => read_set_status(alloc, bytes),
        Verb::Release => read_release(alloc, bytes),
        Verb::StandBy => read_stand_by(alloc, bytes),
        Verb::StandDown => read_stand_down(alloc, bytes),
        Verb::Replace => read_replace(bytes),
    }
}

#[tactic(auto, unfolding(crate::specs::Reading::first_body))]
fn read_body(alloc: Global, bytes: &[u8]) -> Result<(Command, &[u8]), SpellingFault>
    ensures { Gives (λ x. (x.0, x.1.now)) result (first_body bytes.now) }
{
    let (byte, rest) = read_byte(bytes)?;
    match Verb::of_number(byte) {
        None => Err(SpellingFault::NoSpelling),
        Some(verb) => read_of_verb(alloc, verb, rest),
    }
}

#[tactic(auto, unfolding(crate::specs::Reading::whole_body))]
pub(crate) fn read_whole_body(alloc: Global, bytes: &[u8]) -> Result<Command, SpellingFault>
    ensures { Gives (λ x. x) result (whole_body bytes.now) }
{
    let (command, rest) = read_body(alloc, bytes)?;
    if rest.is_empty() {
        Ok(command)
    } else {
        // Where the command is dropped at the function's end, its proof takes ten times as long.
        drop(command);
        Err(SpellingFault::NoSpelling)
    }
}

/// The command that the bytes spell, all of them. Refused are bytes that are no spelling, by `FrameFault`, and want of
/// memory, by `WantOfMemory`.
pub fn get_body(alloc: Global, bytes: &[u8]) -> Result<Command, FrameFault>
    // What is read is spelled so.
    ensures found { IfOk result (λ c. SpellsBody c bytes.now) }
    // Bytes are refused only where they spell no command.
    ensures refused { IfErr result (λ e. (e.refusal ≡ refusals.WantOfMemory)
        ⊎ ((e.refusal ≡ refusals.FrameFault) × ((c : Command) → SpellsBody c bytes.now → ⊥))) }
{
    let command = read_whole_body(alloc, bytes)?;
    Ok(command)
}
