//! Units with their statuses and the incidents that they are committed to and stand by for, and the verbs that change
//! them.
#![tactic(auto)]

mod commitments;
mod duty;
mod merge;
mod names;
mod on_duty;
mod stand_bys;
mod statuses;
mod unit;
mod unit_pairs;
mod units;

pub use unit::{Unit, UnitPair};
pub use units::Units;
