//! What a list has of a board.

use crate::incident_id::IncidentId;
use crate::items::Items;
use crate::show::{ShownIncident, Status};
use crate::unit_name::UnitName;

/// Which incidents are listed, by their state.
#[derive(Clone, Copy, Debug, PartialEq, Eq)]
pub enum ListedState {
    /// All of them.
    Any,
    Open,
    Cleared,
    Merged,
}

/// An incident of a list, and the units that stand by for it.
pub struct ListedIncident {
    pub incident: ShownIncident,
    pub stand_by: Items<UnitName>,
}

// Written out, so that callers need not prove each part's drop.
impl Drop for ListedIncident {
    fn drop(self) {
        let ListedIncident {
            incident: _,
            stand_by: _,
        } = self;
    }
}

/// A unit of a list, the incident that it is committed to, and the one that it stands by for.
pub struct ListedUnit {
    pub unit: UnitName,
    pub status: Status,
    pub incident: Option<IncidentId>,
    pub stand_by: Option<IncidentId>,
}

// Written out, so that callers need not prove each part's drop.
impl Drop for ListedUnit {
    fn drop(self) {
        let ListedUnit {
            unit: _,
            status: _,
            incident: _,
            stand_by: _,
        } = self;
    }
}
