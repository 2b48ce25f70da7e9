//! Signing on and off.

ghost use Rattle.std.specs.Prelude.{◌≡◌, IfOk};
ghost use Rattle.std.specs.List.{list_any};
ghost use Rattle.std.specs.Option.{option_map};
ghost use Rattle.desk_types.specs.Checks.{VerbOutcome};
ghost use Rattle.desk_types.specs.declared.reply.Word.TheVariants as words;
ghost use Rattle.desk_units.specs.Checks.{has_name};
ghost use Rattle.desk_types.specs.Checks.{plain_done};
ghost use Rattle.desk_units.specs.Verbs.{sign_on_refusal, units_after_sign_on, sign_off_refusal};
ghost use Rattle.desk_units.specs.Verbs.{units_after_sign_off};

use crate::commitments::committed_refusal;
use crate::unit::Unit;
use crate::units::Units;
use desk_types::{Done, IncidentId, Refusal, Status, UnitName, WantOfMemory, Word};

impl Units {
    /// Signs a unit on, available, unless one of its name is signed on.
    pub fn sign_on(&mut self, unit: &UnitName) -> Result<Done, Refusal>
        ensures settles { VerbOutcome (sign_on_refusal unit.now self.old) (plain_done words.SignedOn)
            (units_after_sign_on unit.now self.old) self.old self.new result }
    {
        if self.is_signed_on(unit) {
            return Err(Refusal::UnitTaken);
        }
        let signed_on = Unit {
            name: unit.copy()?,
            status: Status::Available,
        };
        self.units.push(signed_on)?;
        Ok(Done::plain(Word::SignedOn))
    }

    /// Whether a unit of the name is signed on.
    fn is_signed_on(&self, unit: &UnitName) -> bool
        ensures { result ≡ list_any (has_name unit.now) self.now.units }
    {
        self.units.has(unit)
    }

    /// The first check of a signing off that fails.
    fn sign_off_refusal(
        &self,
        unit: &UnitName,
        committed_to: Option<&IncidentId>,
    ) -> Result<Option<Refusal>, WantOfMemory>
        ensures { IfOk result (λ r. r
            ≡ sign_off_refusal unit.now (option_map (λ id. id.now) committed_to.entry) self.now) }
    {
        if self.unit(unit).is_none() {
            return Ok(Some(Refusal::UnitUnknown));
        }
        committed_refusal(self.commitment_of(unit), committed_to)
    }

    /// Signs a unit off that is not committed. `committed_to` is the identifier of the incident of its `commitment`,
    /// which the refusal names, and `None` where it has none.
    #[tactic(auto, using(crate::proofs::Refusals::settles_refused))]
    pub fn sign_off(
        &mut self,
        unit: &UnitName,
        committed_to: Option<&IncidentId>,
    ) -> Result<Done, Refusal>
        ensures settles { VerbOutcome (sign_off_refusal unit.now (option_map (λ id. id.now) committed_to.entry)
            self.old)
            (plain_done words.SignedOff) (units_after_sign_off unit.now self.old) self.old self.new result }
    {
        if let Some(refusal) = self.sign_off_refusal(unit, committed_to)? {
            return Err(refusal);
        }
        self.units.remove(unit);
        Ok(Done::plain(Word::SignedOff))
    }
}
