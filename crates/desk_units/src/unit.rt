//! Units, and the incidents that they are committed to.

use desk_types::{Status, UnitName};

/// A unit that is signed on.
#[derive(Drop)]
pub struct Unit {
    pub name: UnitName,
    pub status: Status,
}

/// A unit, and the incident that it is committed to or stands by for, which is named by its number.
#[derive(Drop)]
pub struct UnitPair {
    pub unit: UnitName,
    pub incident: u64,
}
