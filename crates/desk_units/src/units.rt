//! The units of a board, and what they are committed to.

ghost use Rattle.std.specs.Prelude.{◌≡◌, IfOk, length};
ghost use Rattle.std.specs.Option.{option_map};
ghost use Rattle.desk_units.specs.UnitsValue.{no_units, units_in_slots};
ghost use Rattle.desk_units.specs.Checks.{unit_of, pair_of_unit, has_units, units_of};
ghost use Rattle.desk_units.specs.StandBys.{AreElsewhere};

use crate::on_duty::OnDuty;
use crate::unit::{Unit, UnitPair};
use crate::unit_pairs::UnitPairs;
use desk_types::{HashSeed, Items, UnitName, WantOfMemory};
use std::alloc::Global;
use std::marker::Model;

/// The units that are signed on, and the incidents that they are committed to and stand by for. A contract sees them as
/// their lists.
pub struct Units {
    pub(crate) units: OnDuty,
    pub(crate) committed_to: UnitPairs,
    pub(crate) standing_by: UnitPairs,
    pub(crate) alloc: Global,
}

// Written out, so that callers need not prove each part's drop.
impl Drop for Units {
    fn drop(self) {
        let Units {
            units: _,
            committed_to: _,
            standing_by: _,
            alloc: _,
        } = self;
    }
}

impl Model for Units {
    ghost use Rattle.desk_units.specs.StandBys.{AreElsewhere};
    ghost use Rattle.desk_units.specs.UnitsValue.{UnitsValue};

    ghost Value = { UnitsValue };

    ghost view = { λ u. record {
      units = u.units;
      committed_to = u.committed_to.pairs;
      standing_by = u.standing_by.pairs;
    } };

    ghost invariant = { λ u. AreElsewhere u.committed_to.pairs u.standing_by.pairs };
}

impl Units {
    /// No units. It takes no memory. Names are hashed with the seed.
    pub fn new(alloc: Global, seed: HashSeed) -> Units
        ensures { result ≡ no_units }
    {
        Units {
            units: OnDuty::new(alloc, seed),
            committed_to: UnitPairs::new(alloc, seed),
            standing_by: UnitPairs::new(alloc, seed),
            alloc,
        }
    }

    /// The unit of a name.
    pub fn unit(&self, name: &UnitName) -> Option<&Unit>
        ensures found { option_map (λ u. u.now) result ≡ unit_of name.now self.now.units }
    {
        self.units.of_name(name)
    }

    /// What a unit is committed to.
    pub(crate) fn commitment_of(&self, unit: &UnitName) -> Option<&UnitPair>
        ensures { option_map (λ p. p.now) result ≡ pair_of_unit unit.now self.now.committed_to }
    {
        self.committed_to.of_unit(unit)
    }

    /// The number of the incident that a unit is committed to.
    pub fn commitment(&self, unit: &UnitName) -> Option<u64>
        ensures committed { result ≡ option_map (λ p. p.incident) (pair_of_unit unit.now self.now.committed_to) }
    {
        let pair = self.commitment_of(unit)?;
        Some(pair.incident)
    }

    /// What a unit stands by for.
    pub(crate) fn stand_by_of(&self, unit: &UnitName) -> Option<&UnitPair>
        ensures { option_map (λ p. p.now) result ≡ pair_of_unit unit.now self.now.standing_by }
    {
        self.standing_by.of_unit(unit)
    }

    /// The number of the incident that a unit stands by for.
    pub fn stand_by_number(&self, unit: &UnitName) -> Option<u64>
        ensures stands_by { result ≡ option_map (λ p. p.incident) (pair_of_unit unit.now self.now.standing_by) }
    {
        let pair = self.stand_by_of(unit)?;
        Some(pair.incident)
    }

    /// Whether units are committed to the incident of a number.
    pub fn has_units(&self, number: u64) -> bool
        ensures committed { result ≡ has_units number self.now.committed_to }
    {
        self.committed_to.any_of(number)
    }

    /// The units that are committed to the incident of a number, in the order of their assignment.
    pub fn units_of(&self, alloc: Global, number: u64) -> Result<Items<UnitName>, WantOfMemory>
        ensures committed { IfOk result (λ units. units ≡ units_of number self.now.committed_to) }
    {
        self.committed_to.units_of(alloc, number)
    }

    /// Whether units stand by for the incident of a number.
    pub fn has_stand_bys(&self, number: u64) -> bool
        ensures stand_by { result ≡ has_units number self.now.standing_by }
    {
        self.standing_by.any_of(number)
    }

    /// The units that stand by for the incident of a number, in the order in which they began to.
    pub fn stand_bys_of(&self, alloc: Global, number: u64) -> Result<Items<UnitName>, WantOfMemory>
        ensures stand_by { IfOk result (λ units. units ≡ units_of number self.now.standing_by) }
    {
        self.standing_by.units_of(alloc, number)
    }

    /// Who stands by for an incident is committed, and to another. It does nothing: its clause is the fact.
    pub fn stand_bys_are_elsewhere(&self)
        ensures { AreElsewhere self.now.committed_to self.now.standing_by }
    {
        // Only where a field is used does a proof know what the type keeps.
        self.standing_by.has_each_once();
    }

    /// The slots in which the units stand in the order of their signing on. Those of units that signed off are empty.
    pub fn slots(&self) -> &[Option<Unit>]
        ensures all { units_in_slots result.now ≡ self.now.units }
    {
        self.units.slots()
    }

    /// How many units are signed on.
    pub fn count(&self) -> u64
        ensures count { result ≡ length self.now.units }
    {
        self.units.len() as u64
    }
}
