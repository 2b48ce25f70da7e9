//! The verbs of units, of which some look at incidents.

ghost use Rattle.std.specs.Prelude.{◌≡◌};
ghost use Rattle.std.specs.Option.{option_map};
ghost use Rattle.desk_types.specs.Checks.{VerbOutcome};
ghost use Rattle.desk_types.specs.declared.reply.Word.TheVariants as words;
ghost use Rattle.desk_incidents.specs.Checks.{IsCheckResult};
ghost use Rattle.desk_units.specs.Checks.{unit_of, pair_of_unit, not_there_refusal};
ghost use Rattle.desk_types.specs.Checks.{plain_done};
ghost use Rattle.desk_units.specs.Verbs.{units_after_sign_off};
ghost use Rattle.desk_board.specs.BoardValue.{with_units};
ghost use Rattle.desk_board.specs.Tables.{board_in};
ghost use Rattle.desk_board.specs.Verbs.{id_of_pair, sign_off_refusal_on, assign_refusal_on, board_after_assign};
ghost use Rattle.desk_board.specs.Verbs.{stand_by_refusal_on, board_after_stand_by};

use crate::tables::Tables;
use desk_incidents::Incidents;
use desk_types::{Done, IncidentId, Refusal, UnitName};
use desk_units::Units;

/// The identifier of the incident that a unit is committed to.
pub(crate) fn committed_id<'a>(
    incidents: &'a Incidents,
    units: &Units,
    unit: &UnitName,
) -> Option<&'a IncidentId>
    ensures { option_map (λ id. id.now) result
        ≡ id_of_pair (pair_of_unit unit.now units.now.committed_to) incidents.now.incidents }
{
    let number = units.commitment(unit)?;
    let incident = incidents.by_number(number)?;
    Some(&incident.id)
}

/// The identifier of the incident that a unit stands by for.
pub(crate) fn stand_by_id<'a>(
    incidents: &'a Incidents,
    units: &Units,
    unit: &UnitName,
) -> Option<&'a IncidentId>
    ensures { option_map (λ id. id.now) result
        ≡ id_of_pair (pair_of_unit unit.now units.now.standing_by) incidents.now.incidents }
{
    let number = units.stand_by_number(unit)?;
    let incident = incidents.by_number(number)?;
    Some(&incident.id)
}

/// Refuses a unit that is not signed on.
fn check_signed_on(units: &Units, unit: &UnitName) -> Result<(), Refusal>
    ensures { IsCheckResult (not_there_refusal (unit_of unit.now units.now.units)) result }
{
    match units.unit(unit) {
        None => Err(Refusal::UnitUnknown),
        Some(_) => Ok(()),
    }
}

impl Tables {
    /// Signs a unit off, or refuses to and names the incident that it is committed to.
    pub(crate) fn sign_off(&mut self, unit: &UnitName) -> Result<Done, Refusal>
        ensures settles { VerbOutcome (sign_off_refusal_on unit.now (board_in self.old)) (plain_done words.SignedOff)
            (with_units (units_after_sign_off unit.now self.old.units) (board_in self.old)) (board_in self.old)
            (board_in self.new) result }
        ensures rows { self.new.rows ≡ self.old.rows }
    {
        let committed_to = committed_id(&self.incidents, &self.units, unit);
        self.units.sign_off(unit, committed_to)
    }

    /// Commits a unit to an open incident, or refuses to.
    pub(crate) fn assign(&mut self, unit: &UnitName, incident: &IncidentId) -> Result<Done, Refusal>
        ensures settles { VerbOutcome (assign_refusal_on unit.now incident.now (board_in self.old))
            (plain_done words.Assigned)
            (board_after_assign unit.now incident.now (board_in self.old)) (board_in self.old) (board_in self.new)
            result }
        ensures rows { self.new.rows ≡ self.old.rows }
    {
        check_signed_on(&self.units, unit)?;
        let number = self.incidents.open_number(incident)?;
        let committed_to = committed_id(&self.incidents, &self.units, unit);
        self.units.assign(unit, number, committed_to)
    }
    /// Has a unit stand by for an open incident, or refuses to.
    pub(crate) fn stand_by(
        &mut self,
        unit: &UnitName,
        incident: &IncidentId,
    ) -> Result<Done, Refusal>
        ensures settles { VerbOutcome (stand_by_refusal_on unit.now incident.now (board_in self.old))
            (plain_done words.StandingBy)
            (board_after_stand_by unit.now incident.now (board_in self.old)) (board_in self.old) (board_in self.new)
            result }
        ensures rows { self.new.rows ≡ self.old.rows }
    {
        check_signed_on(&self.units, unit)?;
        let number = self.incidents.open_number(incident)?;
        let stand_by = stand_by_id(&self.incidents, &self.units, unit);
        self.units.stand_by(unit, number, stand_by)
    }
}
