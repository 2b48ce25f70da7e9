//! The units of an incident that is merged into another.

ghost use Rattle.std.specs.Prelude.{◌≡◌, ◌≢◌, map, OnOk, OnErr};
ghost use Rattle.desk_units.specs.StandBys.{without_committed, without_all};
ghost use Rattle.desk_units.specs.Verbs.{pair_after_merge, units_after_merge};

use crate::unit_pairs::UnitPairs;
use crate::units::Units;
use desk_types::{UnitName, WantOfMemory};

/// Takes the stand-by of a unit out where the unit is committed to its incident. It takes no memory.
fn drop_committed(committed_to: &UnitPairs, standing_by: &mut UnitPairs, unit: &UnitName)
    ensures { standing_by.new.pairs ≡ without_committed committed_to.now.pairs unit.now standing_by.old.pairs }
{
    committed_to.has_each_once();
    standing_by.has_each_once();
    if let Some(committed) = committed_to.of_unit(unit) {
        if let Some(stand_by) = standing_by.of_unit(unit) {
            if committed.incident == stand_by.incident {
                standing_by.remove(unit);
            }
        }
    }
}

/// Takes the stand-bys of units out that are committed to their incident. It takes no memory.
fn drop_all_committed(committed_to: &UnitPairs, standing_by: &mut UnitPairs, units: &[UnitName])
    ensures { standing_by.new.pairs ≡ without_all committed_to.now.pairs units.now standing_by.old.pairs }
{
    for unit in units {
        drop_committed(committed_to, standing_by, unit);
    }
}

/// Moves the units of one incident to another, those that are committed to it and those that stand by for it, or
/// changes nothing.
fn move_both(
    committed_to: &mut UnitPairs,
    standing_by: &mut UnitPairs,
    from: u64,
    to: u64,
) -> Result<(), WantOfMemory>
    requires { from ≢ to }
    ensures committed { OnOk result (committed_to.new.pairs ≡ map (pair_after_merge from to) committed_to.old.pairs) }
    ensures stand_bys { OnOk result (standing_by.new.pairs ≡ map (pair_after_merge from to) standing_by.old.pairs) }
    ensures err_committed { OnErr result (committed_to.new.pairs ≡ committed_to.old.pairs) }
    ensures err_stand_bys { OnErr result (standing_by.new.pairs ≡ standing_by.old.pairs) }
{
    let of_committed = committed_to.prepare_move(from, to)?;
    let of_stand_bys = standing_by.prepare_move(from, to)?;
    committed_to.move_all(from, to, of_committed);
    standing_by.move_all(from, to, of_stand_bys);
    Ok(())
}

impl Units {
    /// Commits the units of the one incident to the other, and has those that stand by for it stand by for the other.
    /// Who is then committed where it stands by, stands by no more. Where memory is refused the units are as they were.
    pub fn merge(&mut self, from: u64, to: u64) -> Result<(), WantOfMemory>
        ensures merged { OnOk result (self.new ≡ units_after_merge from to self.old) }
        ensures err { OnErr result (self.new ≡ self.old) }
    {
        // So a merge of an incident with itself drops none.
        self.stand_bys_are_elsewhere();
        if from == to {
            return Ok(());
        }
        // Only who stands by at one of the two can be committed there then.
        let here = self.standing_by.units_of(self.alloc, from)?;
        let there = self.standing_by.units_of(self.alloc, to)?;
        move_both(&mut self.committed_to, &mut self.standing_by, from, to)?;
        drop_all_committed(&self.committed_to, &mut self.standing_by, here.as_slice());
        drop_all_committed(&self.committed_to, &mut self.standing_by, there.as_slice());
        Ok(())
    }
}
