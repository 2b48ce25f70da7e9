//! Committing units to incidents, and releasing them.

ghost use Rattle.std.specs.Prelude.{◌≡◌, Some, None, IfOk, OnOk, OnErr};
ghost use Rattle.std.specs.Option.{option_map};
ghost use Rattle.desk_types.specs.Checks.{VerbOutcome};
ghost use Rattle.desk_types.specs.declared.reply.Word.TheVariants as words;
ghost use Rattle.desk_units.specs.Checks.{committed_refusal, pair_of_unit};
ghost use Rattle.desk_types.specs.Checks.{plain_done};
ghost use Rattle.desk_units.specs.Verbs.{assign_refusal, units_after_assign, release_refusal};
ghost use Rattle.desk_units.specs.Verbs.{units_released, units_after_release};

use crate::unit::UnitPair;
use crate::units::Units;
use desk_types::{Done, IncidentId, Refusal, Status, UnitName, WantOfMemory, Word};

/// The refusal of a unit that is committed. It names the incident by the identifier that is handed in for it.
pub(crate) fn committed_refusal(
    commitment: Option<&UnitPair>,
    committed_to: Option<&IncidentId>,
) -> Result<Option<Refusal>, WantOfMemory>
    ensures { IfOk result (λ r. r ≡ committed_refusal (option_map (λ id. id.now) committed_to.entry)
        (option_map (λ p. p.now) commitment.entry)) }
{
    match (commitment, committed_to) {
        (None, _) => Ok(None),
        (Some(_), None) => Ok(Some(Refusal::IncidentUnknown)),
        (Some(_), Some(id)) => Ok(Some(Refusal::UnitCommitted {
            incident: id.copy()?,
        })),
    }
}

impl Units {
    /// The first check of an assignment that fails.
    fn assign_refusal(
        &self,
        unit: &UnitName,
        committed_to: Option<&IncidentId>,
    ) -> Result<Option<Refusal>, WantOfMemory>
        ensures { IfOk result (λ r. r
            ≡ assign_refusal unit.now (option_map (λ id. id.now) committed_to.entry) self.now) }
    {
        let Some(found) = self.unit(unit) else {
            return Ok(Some(Refusal::UnitUnknown));
        };
        if let Some(refusal) = committed_refusal(self.commitment_of(unit), committed_to)? {
            return Ok(Some(refusal));
        }
        match found.status {
            Status::OutOfService => Ok(Some(Refusal::UnitOffDuty)),
            _ => Ok(None),
        }
    }

    /// Dispatches a unit that is free and on duty to the incident of a number. `committed_to` is the identifier of the
    /// incident of its `commitment`, which the refusal names, and `None` where it has none.
    #[tactic(auto, using(crate::proofs::Refusals::settles_refused))]
    pub fn assign(
        &mut self,
        unit: &UnitName,
        number: u64,
        committed_to: Option<&IncidentId>,
    ) -> Result<Done, Refusal>
        ensures settles { VerbOutcome (assign_refusal unit.now (option_map (λ id. id.now) committed_to.entry) self.old)
            (plain_done words.Assigned) (units_after_assign unit.now number self.old) self.old self.new result }
    {
        if let Some(refusal) = self.assign_refusal(unit, committed_to)? {
            return Err(refusal);
        }
        self.committed_to.push(unit, number)?;
        self.units.set_status(unit, Status::Dispatched);
        Ok(Done::plain(Word::Assigned))
    }

    /// Takes a committed unit from its incident. It is available then; or it is dispatched to the incident that it
    /// stood by for.
    pub fn release(&mut self, unit: &UnitName) -> Result<Done, Refusal>
        ensures settles { VerbOutcome (release_refusal unit.now self.old) (plain_done words.Released)
            (units_after_release unit.now self.old) self.old self.new result }
    {
        if self.unit(unit).is_none() {
            return Err(Refusal::UnitUnknown);
        }
        if self.commitment_of(unit).is_none() {
            return Err(Refusal::UnitNotCommitted);
        }
        if let Some(number) = self.stand_by_number(unit) {
            self.move_on(unit, number)?;
            return Ok(Done::plain(Word::Released));
        }
        self.set_free(unit);
        Ok(Done::plain(Word::Released))
    }

    /// Takes a unit that does not stand by from its incident. It is available then.
    fn set_free(&mut self, unit: &UnitName)
        requires { pair_of_unit unit.now self.old.standing_by ≡ None }
        ensures { self.new ≡ units_released None unit.now self.old }
    {
        self.units.set_status(unit, Status::Available);
        self.committed_to.remove(unit);
    }

    /// Dispatches a unit to the incident of a number, and has it stand by no more, or changes nothing.
    fn move_on(&mut self, unit: &UnitName, number: u64) -> Result<(), WantOfMemory>
        ensures ok { OnOk result (self.new
            ≡ units_released (Some (record { unit = unit.now; incident = number })) unit.now self.old) }
        ensures err { OnErr result (self.new ≡ self.old) }
    {
        self.committed_to.put_last(unit, number)?;
        self.standing_by.remove(unit);
        self.units.set_status(unit, Status::Dispatched);
        Ok(())
    }
}
