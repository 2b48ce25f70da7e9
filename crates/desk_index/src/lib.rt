//! An index from numbers to places in a list, and slots of which some are empty, with their laws.
#![tactic(auto)]

mod places;
mod slot_list;
mod two_lists;

pub use places::{Places, push_place, with_room};
pub use slot_list::{clear_slot, slot_count, standing_in};
pub use two_lists::merged_list;
