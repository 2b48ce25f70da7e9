//! Slots, of which some are empty.

ghost use Rattle.std.specs.Prelude.{◌≡◌, ◌<◌, None, length, set, vec_len, vec_capacity};
ghost use Rattle.std.specs.Option.{option_map};
ghost use Rattle.desk_index.specs.Slots.{standing};

/// How many slots there are.
pub fn slot_count<T>(slots: &[Option<T>]) -> usize
    ensures { result ≡ length slots.now }
{
    slots.len()
}

/// What stands in a slot, where there is such a slot and it is not empty.
pub fn standing_in<T>(slots: &[Option<T>], slot: usize) -> Option<&T>
    ensures { option_map (λ x. x.now) result ≡ standing slots.now slot }
{
    match slots.get(slot) {
        Some(Some(value)) => Some(value),
        _ => None,
    }
}

/// Empties a slot, which stays: those after it keep their numbers.
pub fn clear_slot<T: Drop>(slots: &mut Vec<Option<T>>, slot: usize)
    requires { slot < length slots.old.items }
    ensures items { slots.new.items ≡ set slots.old.items slot None }
    ensures len { vec_len slots.new ≡ vec_len slots.old }
    ensures room { vec_capacity slots.new ≡ vec_capacity slots.old }
{
    slots[slot] = None;
}
