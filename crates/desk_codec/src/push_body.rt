//! Putting commands last. Where memory is refused, a part of the spelling stands last.
#![tactic(auto, using(crate::proofs::Growing::grows_rules))]

ghost use Rattle.std.specs.Prelude.{◌≡◌, ◌≤◌, ◌++◌, [], ◌∷◌, length, OnOk, OnErr, IfSome};
ghost use Rattle.std.specs.Str.{IsUtf8};
ghost use Rattle.desk_types.specs.NumberRange.{FitsNodeNumber, FitsToken};
ghost use Rattle.desk_types.specs.Numbers.{status_number};
ghost use Rattle.desk_types.specs.declared.verb.Verb.TheVariants as verbs;
ghost use Rattle.desk_codec.specs.Ranges.{FitsSeconds, FitsText, FitsUnit, FitsIncident, FitsCall, FitsCommand};
ghost use Rattle.desk_codec.specs.Growing.{Grows};
ghost use Rattle.desk_codec.specs.Spelling.{long, made_at, short_text, optional_text, body_spelling};

use crate::push::{push_byte, push_bytes};
use desk_types::limits::{KIND_BYTES, NOTE_BYTES, SITE_BYTES};
use desk_types::{
    BoundedText, CallId, Command, IncidentId, KindText, NodeNumber, NoteText, SiteText, Status,
    Token, UnitName, Verb, WantOfMemory,
};

/// Puts one byte of length and that many bytes last.
fn push_short_text(out: &mut Vec<u8>, text: &str) -> Result<(), WantOfMemory>
    requires { length text.now ≤ 255 }
    ensures spelling { OnOk result (out.new.items ≡ out.old.items ++ short_text text.now) }
    ensures utf8 { IsUtf8 text.now }
    ensures err { OnErr result (Grows out.old.items out.new.items) }
{
    push_byte(out, text.len() as u8)?;
    push_bytes(out, text.as_bytes())
}

fn push_text<const MOST: usize>(
    out: &mut Vec<u8>,
    text: &BoundedText<MOST>,
) -> Result<(), WantOfMemory>
    requires { MOST ≤ 255 }
    ensures spelling { OnOk result (out.new.items ≡ out.old.items ++ short_text text.now) }
    ensures fits { OnOk result (FitsText MOST text.now) }
    ensures err { OnErr result (Grows out.old.items out.new.items) }
{
    push_short_text(out, text.as_str())
}

fn push_unit(out: &mut Vec<u8>, unit: &UnitName) -> Result<(), WantOfMemory>
    ensures spelling { OnOk result (out.new.items ≡ out.old.items ++ short_text unit.now) }
    ensures fits { OnOk result (FitsUnit unit.now) }
    ensures err { OnErr result (Grows out.old.items out.new.items) }
{
    push_short_text(out, unit.as_text())
}

fn push_incident(out: &mut Vec<u8>, incident: &IncidentId) -> Result<(), WantOfMemory>
    ensures spelling { OnOk result (out.new.items ≡ out.old.items ++ short_text incident.now) }
    ensures fits { OnOk result (FitsIncident incident.now) }
    ensures err { OnErr result (Grows out.old.items out.new.items) }
{
    push_short_text(out, incident.as_text())
}

fn push_call(out: &mut Vec<u8>, call: &CallId) -> Result<(), WantOfMemory>
    ensures spelling { OnOk result (out.new.items ≡ out.old.items ++ short_text call.now) }
    ensures fits { OnOk result (FitsCall call.now) }
    ensures err { OnErr result (Grows out.old.items out.new.items) }
{
    push_short_text(out, call.as_text())
}

fn push_optional_incident(
    out: &mut Vec<u8>,
    incident: &Option<IncidentId>,
) -> Result<(), WantOfMemory>
    ensures spelling { OnOk result (out.new.items ≡ out.old.items ++ optional_text incident.now) }
    ensures fits { OnOk result (IfSome incident.now FitsIncident) }
    ensures err { OnErr result (Grows out.old.items out.new.items) }
{
    match incident {
        None => push_byte(out, 0),
        Some(incident) => {
            push_byte(out, 1)?;
            push_incident(out, incident)
        }
    }
}

fn push_optional_call(out: &mut Vec<u8>, call: &Option<CallId>) -> Result<(), WantOfMemory>
    ensures spelling { OnOk result (out.new.items ≡ out.old.items ++ optional_text call.now) }
    ensures fits { OnOk result (IfSome call.now FitsCall) }
    ensures err { OnErr result (Grows out.old.items out.new.items) }
{
    match call {
        None => push_byte(out, 0),
        Some(call) => {
            push_byte(out, 1)?;
            push_call(out, call)
        }
    }
}

/// A verb's number, and when the command was made.
fn push_verb(out: &mut Vec<u8>, verb: Verb, at: i64) -> Result<(), WantOfMemory>
    ensures spelling { OnOk result (out.new.items ≡ out.old.items ++ made_at verb at) }
    ensures fits { OnOk result (FitsSeconds at) }
    ensures err { OnErr result (Grows out.old.items out.new.items) }
{
    push_byte(out, verb.number())?;
    push_bytes(out, &at.to_be_bytes())
}

fn push_open(
    out: &mut Vec<u8>,
    at: i64,
    kind: &KindText,
    site: &SiteText,
    incident: &Option<IncidentId>,
    call: &Option<CallId>,
) -> Result<(), WantOfMemory>
    ensures spelling { OnOk result (out.new.items ≡ out.old.items ++ (made_at verbs.Open at
        ++ (short_text kind.now ++ (short_text site.now ++ (optional_text incident.now ++ optional_text call.now))))) }
    ensures fits { OnOk result (FitsSeconds at × FitsText KIND_BYTES kind.now × FitsText SITE_BYTES site.now
        × IfSome incident.now FitsIncident × IfSome call.now FitsCall) }
    ensures err { OnErr result (Grows out.old.items out.new.items) }
{
    push_verb(out, Verb::Open, at)?;
    push_text(out, kind)?;
    push_text(out, site)?;
    push_optional_incident(out, incident)?;
    push_optional_call(out, call)
}

/// A verb of an incident and a call, with nothing else or with more after them.
fn push_of_incident_and_call(
    out: &mut Vec<u8>,
    verb: Verb,
    at: i64,
    incident: &IncidentId,
    call: &CallId,
) -> Result<(), WantOfMemory>
    ensures spelling { OnOk result (out.new.items
        ≡ out.old.items ++ (made_at verb at ++ (short_text incident.now ++ short_text call.now))) }
    ensures fits { OnOk result (FitsSeconds at × FitsIncident incident.now × FitsCall call.now) }
    ensures err { OnErr result (Grows out.old.items out.new.items) }
{
    push_verb(out, verb, at)?;
    push_incident(out, incident)?;
    push_call(out, call)
}

/// A verb of two incidents.
fn push_of_two_incidents(
    out: &mut Vec<u8>,
    verb: Verb,
    at: i64,
    incident: &IncidentId,
    other: &IncidentId,
) -> Result<(), WantOfMemory>
    ensures spelling { OnOk result (out.new.items
        ≡ out.old.items ++ (made_at verb at ++ (short_text incident.now ++ short_text other.now))) }
    ensures fits { OnOk result (FitsSeconds at × FitsIncident incident.now × FitsIncident other.now) }
    ensures err { OnErr result (Grows out.old.items out.new.items) }
{
    push_verb(out, verb, at)?;
    push_incident(out, incident)?;
    push_incident(out, other)
}

fn push_kind_and_site(
    out: &mut Vec<u8>,
    kind: &KindText,
    site: &SiteText,
) -> Result<(), WantOfMemory>
    ensures spelling { OnOk result (out.new.items ≡ out.old.items ++ (short_text kind.now ++ short_text site.now)) }
    ensures fits { OnOk result (FitsText KIND_BYTES kind.now × FitsText SITE_BYTES site.now) }
    ensures err { OnErr result (Grows out.old.items out.new.items) }
{
    push_text(out, kind)?;
    push_text(out, site)
}

fn push_split(
    out: &mut Vec<u8>,
    at: i64,
    incident: &IncidentId,
    call: &CallId,
    kind: &KindText,
    site: &SiteText,
) -> Result<(), WantOfMemory>
    ensures spelling { OnOk result (out.new.items ≡ out.old.items ++ (made_at verbs.Split at
        ++ (short_text incident.now ++ (short_text call.now ++ (short_text kind.now ++ short_text site.now))))) }
    ensures fits { OnOk result (FitsSeconds at × FitsIncident incident.now × FitsCall call.now
        × FitsText KIND_BYTES kind.now × FitsText SITE_BYTES site.now) }
    ensures err { OnErr result (Grows out.old.items out.new.items) }
{
    push_of_incident_and_call(out, Verb::Split, at, incident, call)?;
    push_kind_and_site(out, kind, site)
}

/// A verb of an incident alone.
fn push_of_incident(
    out: &mut Vec<u8>,
    verb: Verb,
    at: i64,
    incident: &IncidentId,
) -> Result<(), WantOfMemory>
    ensures spelling { OnOk result (out.new.items
        ≡ out.old.items ++ (made_at verb at ++ short_text incident.now)) }
    ensures fits { OnOk result (FitsSeconds at × FitsIncident incident.now) }
    ensures err { OnErr result (Grows out.old.items out.new.items) }
{
    push_verb(out, verb, at)?;
    push_incident(out, incident)
}

fn push_note(
    out: &mut Vec<u8>,
    at: i64,
    incident: &IncidentId,
    text: &NoteText,
) -> Result<(), WantOfMemory>
    ensures spelling { OnOk result (out.new.items
        ≡ out.old.items ++ (made_at verbs.Note at ++ (short_text incident.now ++ short_text text.now))) }
    ensures fits { OnOk result (FitsSeconds at × FitsIncident incident.now × FitsText NOTE_BYTES text.now) }
    ensures err { OnErr result (Grows out.old.items out.new.items) }
{
    push_verb(out, Verb::Note, at)?;
    push_incident(out, incident)?;
    push_text(out, text)
}

/// A verb of a unit alone.
fn push_of_unit(out: &mut Vec<u8>, verb: Verb, at: i64, unit: &UnitName) -> Result<(), WantOfMemory>
    ensures spelling { OnOk result (out.new.items ≡ out.old.items ++ (made_at verb at ++ short_text unit.now)) }
    ensures fits { OnOk result (FitsSeconds at × FitsUnit unit.now) }
    ensures err { OnErr result (Grows out.old.items out.new.items) }
{
    push_verb(out, verb, at)?;
    push_unit(out, unit)
}

fn push_of_unit_and_incident(
    out: &mut Vec<u8>,
    verb: Verb,
    at: i64,
    unit: &UnitName,
    incident: &IncidentId,
) -> Result<(), WantOfMemory>
    ensures spelling { OnOk result (out.new.items
        ≡ out.old.items ++ (made_at verb at ++ (short_text unit.now ++ short_text incident.now))) }
    ensures fits { OnOk result (FitsSeconds at × FitsUnit unit.now × FitsIncident incident.now) }
    ensures err { OnErr result (Grows out.old.items out.new.items) }
{
    push_verb(out, verb, at)?;
    push_unit(out, unit)?;
    push_incident(out, incident)
}

fn push_set_status(
    out: &mut Vec<u8>,
    at: i64,
    unit: &UnitName,
    status: Status,
) -> Result<(), WantOfMemory>
    ensures spelling { OnOk result (out.new.items
        ≡ out.old.items ++ (made_at verbs.SetStatus at ++ (short_text unit.now ++ status_number status ∷ []))) }
    ensures fits { OnOk result (FitsSeconds at × FitsUnit unit.now) }
    ensures err { OnErr result (Grows out.old.items out.new.items) }
{
    push_verb(out, Verb::SetStatus, at)?;
    push_unit(out, unit)?;
    push_byte(out, status.number())
}

fn push_replace(
    out: &mut Vec<u8>,
    at: i64,
    node: NodeNumber,
    token: Token,
) -> Result<(), WantOfMemory>
    ensures spelling { OnOk result (out.new.items
        ≡ out.old.items ++ (made_at verbs.Replace at ++ (node ∷ long token))) }
    ensures fits { OnOk result (FitsSeconds at × FitsNodeNumber node × FitsToken token) }
    ensures err { OnErr result (Grows out.old.items out.new.items) }
{
    push_verb(out, Verb::Replace, at)?;
    push_byte(out, node.get())?;
    push_bytes(out, &token.get().to_be_bytes())
}

#[tactic(auto, using(crate::proofs::Growing::grows_rules), unfolding(crate::specs::Spelling::body_spelling))]
pub(crate) fn push_body(out: &mut Vec<u8>, command: &Command) -> Result<(), WantOfMemory>
    ensures spelling { OnOk result (out.new.items ≡ out.old.items ++ (body_spelling command.now)) }
    ensures fits { OnOk result (FitsCommand command.now) }
    ensures err { OnErr result (Grows out.old.items out.new.items) }
{
    match command {
        Command::Open {
            at,
            kind,
            site,
            incident,
            call,
        } => push_open(out, *at, kind, site, incident, call),
        Command::AddCall { at, incident, call } => push_of_incident_and_call(
            out,
            Verb::AddCall,
            *at,
            incident,
            call,
        ),
        Command::Link {
            at,
            incident,
            other,
        } => push_of_two_incidents(out, Verb::Link, *at, incident, other),
        Command::Unlink {
            at,
            incident,
            other,
        } => push_of_two_incidents(out, Verb::Unlink, *at, incident, other),
        Command::Merge { at, incident, into } => push_of_two_incidents(
            out,
            Verb::Merge,
            *at,
            incident,
            into,
        ),
        Command::Split {
            at,
            incident,
            call,
            kind,
            site,
        } => push_split(out, *at, incident, call, kind, site),
        Command::Clear { at, incident } => push_of_incident(out, Verb::Clear, *at, incident),
        Command::Reopen { at, incident } => push_of_incident(out, Verb::Reopen, *at, incident),
        Command::Note { at, incident, text } => push_note(out, *at, incident, text),
        Command::SignOn { at, unit } => push_of_unit(out, Verb::SignOn, *at, unit),
        Command::SignOff { at, unit } => push_of_unit(out, Verb::SignOff, *at, unit),
        Command::Assign { at, unit, incident } => push_of_unit_and_incident(
            out,
            Verb::Assign,
            *at,
            unit,
            incident,
        ),
        Command::SetStatus { at, unit, status } => push_set_status(out, *at, unit, *status),
        Command::Release { at, unit } => push_of_unit(out, Verb::Release, *at, unit),
        Command::StandBy { at, unit, incident } => push_of_unit_and_incident(
            out,
            Verb::StandBy,
            *at,
            unit,
            incident,
        ),
        Command::StandDown { at, unit } => push_of_unit(out, Verb::StandDown, *at, unit),
        Command::Replace { at, node, token } => push_replace(out, *at, *node, *token),
    }
}
