//! What commands do to the incidents and the units of a board.

ghost use Rattle.std.specs.Prelude.{◌≡◌, ◌≤◌, IfOk};
ghost use Rattle.desk_types.specs.Checks.{VerbOutcome};
ghost use Rattle.desk_board.specs.Execute.{refusal, effect, done};
ghost use Rattle.desk_board.specs.Tables.{board_in};

use crate::tables::Tables;
use desk_incidents::new_id;
use desk_types::limits::LAST_PLACE;
use desk_types::{Command, Done, IncidentId, Refusal, WantOfMemory, Word};

impl Tables {
    /// The identifier of the incident that a command at a place opens where no check refuses it, if it opens one.
    #[tactic(auto, unfolding(crate::specs::Execute::done))]
    pub(crate) fn opened_id(
        &self,
        place: u64,
        command: &Command,
    ) -> Result<Option<IncidentId>, WantOfMemory>
        requires { place ≤ LAST_PLACE }
        ensures { IfOk result (λ id. id ≡ (done place (board_in self.now) command.now).incident) }
    {
        match command {
            Command::Open { incident, .. } => {
                let id = new_id(self.alloc, place, &self.domain, incident)?;
                Ok(Some(id))
            }
            Command::Split { .. } => {
                let id = new_id(self.alloc, place, &self.domain, &None)?;
                Ok(Some(id))
            }
            _ => Ok(None),
        }
    }

    /// Does what a command asks for to the incidents and the units, or refuses it.
    pub(crate) fn perform(&mut self, place: u64, command: &Command) -> Result<Done, Refusal>
        requires { place ≤ LAST_PLACE }
        ensures settles { VerbOutcome (refusal (board_in self.old) command.now)
            (done place (board_in self.old) command.now) (effect place (board_in self.old) command.now)
            (board_in self.old) (board_in self.new) result }
        ensures rows { self.new.rows ≡ self.old.rows }
    {
        match command {
            Command::Open {
                at,
                kind,
                site,
                incident,
                call,
            } => self.open(place, *at, kind, site, incident, call),
            Command::AddCall { incident, call, .. } => self.incidents.add_call(incident, call),
            Command::Link {
                incident,
                other,
                ..
            } => self.incidents.link(incident, other),
            Command::Unlink {
                incident,
                other,
                ..
            } => self.incidents.unlink(incident, other),
            Command::Merge { incident, into, .. } => self.merge(incident, into),
            Command::Split {
                at,
                incident,
                call,
                kind,
                site,
            } => self.split(place, *at, incident, call, kind, site),
            Command::Clear { incident, .. } => self.clear(incident),
            Command::Reopen { incident, .. } => self.incidents.reopen(incident),
            Command::Note { incident, text, .. } => self.incidents.note(incident, text),
            Command::SignOn { unit, .. } => self.units.sign_on(unit),
            Command::SignOff { unit, .. } => self.sign_off(unit),
            Command::Assign { unit, incident, .. } => self.assign(unit, incident),
            Command::SetStatus { unit, status, .. } => self.units.set_status(unit, *status),
            Command::Release { unit, .. } => self.units.release(unit),
            Command::StandBy { unit, incident, .. } => self.stand_by(unit, incident),
            Command::StandDown { unit, .. } => self.units.stand_down(unit),
            // It is about the nodes of the group, of which the board has nothing.
            Command::Replace { .. } => Ok(Done::plain(Word::Replaced)),
        }
    }
}
