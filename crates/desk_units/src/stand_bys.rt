//! Having committed units stand by for other incidents.

ghost use Rattle.std.specs.Prelude.{◌≡◌, IfOk};
ghost use Rattle.std.specs.Option.{option_map};
ghost use Rattle.desk_types.specs.Checks.{VerbOutcome, plain_done};
ghost use Rattle.desk_types.specs.declared.reply.Word.TheVariants as words;
ghost use Rattle.desk_units.specs.Checks.{standing_by_refusal};
ghost use Rattle.desk_units.specs.Verbs.{stand_by_refusal, units_after_stand_by, stand_down_refusal};
ghost use Rattle.desk_units.specs.Verbs.{units_after_stand_down};

use crate::unit::UnitPair;
use crate::units::Units;
use desk_types::{Done, IncidentId, Refusal, UnitName, WantOfMemory, Word};

/// The refusal of a unit that stands by. It names the incident by the identifier that is handed in for it.
fn standing_by_refusal(
    stand_by: Option<&UnitPair>,
    standing_by: Option<&IncidentId>,
) -> Result<Option<Refusal>, WantOfMemory>
    ensures { IfOk result (λ r. r ≡ standing_by_refusal (option_map (λ id. id.now) standing_by.entry)
        (option_map (λ p. p.now) stand_by.entry)) }
{
    match (stand_by, standing_by) {
        (None, _) => Ok(None),
        (Some(_), None) => Ok(Some(Refusal::IncidentUnknown)),
        (Some(_), Some(id)) => Ok(Some(Refusal::StandingBy {
            incident: id.copy()?,
        })),
    }
}

impl Units {
    /// The first check of a stand-by that fails.
    fn stand_by_refusal(
        &self,
        unit: &UnitName,
        number: u64,
        standing_by: Option<&IncidentId>,
    ) -> Result<Option<Refusal>, WantOfMemory>
        ensures { IfOk result (λ r. r
            ≡ stand_by_refusal unit.now number (option_map (λ id. id.now) standing_by.entry) self.now) }
    {
        if self.unit(unit).is_none() {
            return Ok(Some(Refusal::UnitUnknown));
        }
        match self.commitment(unit) {
            None => Ok(Some(Refusal::UnitNotCommitted)),
            Some(committed) if committed == number => Ok(Some(Refusal::SameIncident)),
            Some(_) => standing_by_refusal(self.stand_by_of(unit), standing_by),
        }
    }

    /// Has a committed unit stand by for the incident of a number, which is another than its own. `standing_by` is the
    /// identifier of the incident of its `stand_by_number`, which the refusal names, and `None` where it has none.
    #[tactic(auto, using(crate::proofs::Refusals::settles_refused))]
    pub fn stand_by(
        &mut self,
        unit: &UnitName,
        number: u64,
        standing_by: Option<&IncidentId>,
    ) -> Result<Done, Refusal>
        ensures settles { VerbOutcome (stand_by_refusal unit.now number (option_map (λ id. id.now) standing_by.entry)
            self.old)
            (plain_done words.StandingBy) (units_after_stand_by unit.now number self.old) self.old self.new result }
    {
        if let Some(refusal) = self.stand_by_refusal(unit, number, standing_by)? {
            return Err(refusal);
        }
        // That a unit is committed once at most shows that it is not committed to this incident.
        self.committed_to.has_each_once();
        self.standing_by.push(unit, number)?;
        Ok(Done::plain(Word::StandingBy))
    }

    /// Has a unit stand by no more.
    pub fn stand_down(&mut self, unit: &UnitName) -> Result<Done, Refusal>
        ensures settles { VerbOutcome (stand_down_refusal unit.now self.old) (plain_done words.StoodDown)
            (units_after_stand_down unit.now self.old) self.old self.new result }
    {
        if self.unit(unit).is_none() {
            return Err(Refusal::UnitUnknown);
        }
        if self.stand_by_of(unit).is_none() {
            return Err(Refusal::NotStandingBy);
        }
        self.standing_by.remove(unit);
        Ok(Done::plain(Word::StoodDown))
    }
}
