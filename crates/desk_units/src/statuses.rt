//! Statuses of units, and how they change.

ghost use Rattle.std.specs.Prelude.{◌≡◌};
ghost use Rattle.std.specs.Option.{option_map};
ghost use Rattle.desk_types.specs.Checks.{VerbOutcome};
ghost use Rattle.desk_types.specs.declared.reply.Word.TheVariants as words;
ghost use Rattle.desk_units.specs.Checks.{is_at_work, change_refusal};
ghost use Rattle.desk_types.specs.Checks.{plain_done};
ghost use Rattle.desk_units.specs.Verbs.{status_refusal, units_after_set_status};

use crate::unit::UnitPair;
use crate::units::Units;
use desk_types::{Done, Refusal, Status, UnitName, Word};

/// Whether the status is one on the way of a committed unit.
fn is_at_work(status: Status) -> bool
    ensures { result ≡ is_at_work status }
{
    Status::Dispatched.number() <= status.number() && status.number() <= Status::AtFacility.number()
}

/// The refusal of a change of a unit's status.
fn change_refusal(commitment: Option<&UnitPair>, old: Status, new: Status) -> Option<Refusal>
    ensures { result ≡ change_refusal (option_map (λ p. p.now) commitment.entry) old new }
{
    match commitment {
        Some(_) if is_at_work(new) && old.number() < new.number() => None,
        Some(_) => Some(Refusal::StatusNotAllowed),
        None if is_at_work(new) => Some(Refusal::UnitNotCommitted),
        None if old.number() == new.number() => Some(Refusal::StatusNotAllowed),
        None => None,
    }
}

impl Units {
    /// The first check of a change of status that fails.
    fn status_refusal(&self, unit: &UnitName, status: Status) -> Option<Refusal>
        ensures { result ≡ status_refusal unit.now status self.now }
    {
        match self.unit(unit) {
            None => Some(Refusal::UnitUnknown),
            Some(found) => change_refusal(self.commitment_of(unit), found.status, status),
        }
    }

    /// Changes a unit's status. A committed unit goes on its way, and one that is not committed goes out of service or
    /// comes back.
    #[tactic(auto, using(crate::proofs::Refusals::settles_refused))]
    pub fn set_status(&mut self, unit: &UnitName, status: Status) -> Result<Done, Refusal>
        ensures settles { VerbOutcome (status_refusal unit.now status self.old) (plain_done words.StatusSet)
            (units_after_set_status unit.now status self.old) self.old self.new result }
    {
        if let Some(refusal) = self.status_refusal(unit, status) {
            return Err(refusal);
        }
        self.units.set_status(unit, status);
        Ok(Done::plain(Word::StatusSet))
    }
}
