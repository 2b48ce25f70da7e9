//! The units that are signed on, in slots, with an index of their names.

ghost use Rattle.std.specs.Prelude.{◌≡◌, ◌<◌, ◌++◌, ◌∷◌, [], false, length, filter, not, OnOk, OnErr};
ghost use Rattle.std.specs.List.{list_any};
ghost use Rattle.std.specs.Option.{option_map};
ghost use Rattle.desk_index.specs.Slots.{changed_at, live};
ghost use Rattle.desk_units.specs.Checks.{has_name, unit_of};
ghost use Rattle.desk_units.specs.NameTable.{status_set};
ghost use Rattle.desk_units.specs.Verbs.{with_status};

use crate::names::{put_name, slot_of, take_name};
use crate::unit::Unit;
use desk_index::{clear_slot, slot_count, standing_in};
use desk_types::{HashSeed, Status, UnitName, WantOfMemory, push_within};
use indexmap::IndexMap;
use std::alloc::Global;
use std::marker::Model;

/// The units that are signed on. A contract sees them as their list, in the order of their signing on.
pub(crate) struct OnDuty {
    slots: Vec<Option<Unit>>,
    names: IndexMap<UnitName, usize, HashSeed>,
}

// Written out, so that callers need not prove each part's drop.
impl Drop for OnDuty {
    fn drop(self) {
        let OnDuty { slots: _, names: _ } = self;
    }
}

impl Model for OnDuty {
    ghost use Rattle.std.specs.Prelude.{List};
    ghost use Rattle.desk_index.specs.Slots.{live};
    ghost use Rattle.desk_units.specs.declared.unit.Unit.{Unit};
    ghost use Rattle.desk_units.specs.NameTable.{IsNameTable};

    ghost Value = { List Unit };

    ghost view = { λ d. live d.slots.items };

    ghost invariant = { λ d. IsNameTable (λ u. u.name) d.slots.items d.names.entries };
}

/// Gives a status to the unit of a slot, where there is one.
fn set_unit(unit: &mut Option<Unit>, status: Status)
    ensures { unit.new ≡ option_map (status_set status) unit.old }
{
    if let Some(unit) = unit {
        unit.status = status;
    }
}

/// Gives a status to the unit at a place.
fn set_slot(slots: &mut Vec<Option<Unit>>, slot: usize, status: Status)
    requires { slot < length slots.old.items }
    ensures { slots.new.items ≡ changed_at slot (option_map (status_set status)) slots.old.items }
{
    set_unit(&mut slots[slot], status);
}

impl OnDuty {
    /// No units. It takes no memory.
    pub(crate) fn new(alloc: Global, seed: HashSeed) -> OnDuty
        ensures { result ≡ [] }
    {
        OnDuty {
            slots: Vec::new(alloc),
            names: IndexMap::with_hasher(alloc, seed),
        }
    }

    /// How many units are signed on.
    pub(crate) fn len(&self) -> usize
        ensures { result ≡ length self.now }
    {
        self.names.len()
    }

    /// The slots of units, of which those are empty whose unit signed off.
    pub(crate) fn slots(&self) -> &[Option<Unit>]
        ensures { live result.now ≡ self.now }
    {
        self.slots.as_slice()
    }

    /// The unit of a name.
    pub(crate) fn of_name(&self, name: &UnitName) -> Option<&Unit>
        ensures { option_map (λ u. u.now) result ≡ unit_of name.now self.now }
    {
        match slot_of(&self.names, name) {
            None => None,
            Some(slot) => standing_in(&self.slots, slot),
        }
    }

    /// Whether a unit of the name is signed on.
    pub(crate) fn has(&self, name: &UnitName) -> bool
        ensures { result ≡ list_any (has_name name.now) self.now }
    {
        slot_of(&self.names, name).is_some()
    }

    /// Puts a unit of a new name last, or changes nothing.
    pub(crate) fn push(&mut self, unit: Unit) -> Result<(), WantOfMemory>
        requires { list_any (has_name unit.name) self.old ≡ false }
        ensures ok { OnOk result (self.new ≡ self.old ++ unit ∷ []) }
        ensures err { OnErr result (self.new ≡ self.old) }
    {
        let name = unit.name.copy()?;
        self.slots.reserve(1)?;
        self.names.reserve(1)?;
        let slot = slot_count(&self.slots);
        put_name(&mut self.names, name, slot);
        push_within(&mut self.slots, Some(unit));
        Ok(())
    }

    /// Takes the unit of a name out, where there is one. It takes no memory.
    pub(crate) fn remove(&mut self, name: &UnitName)
        ensures { self.new ≡ filter (λ u. not (has_name name.now u)) self.old }
    {
        if let Some(slot) = take_name(&mut self.names, name) {
            clear_slot(&mut self.slots, slot);
        }
    }

    /// Gives a status to the unit of a name, where there is one. It takes no memory.
    pub(crate) fn set_status(&mut self, name: &UnitName, status: Status)
        ensures { self.new ≡ with_status name.now status self.old }
    {
        if let Some(slot) = slot_of(&self.names, name) {
            set_slot(&mut self.slots, slot, status);
        }
    }
}
