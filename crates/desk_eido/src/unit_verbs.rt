//! The commands about units. `at` is in whole seconds since 1970.

ghost use Rattle.desk_eido.specs.Members.{GivesResult};
ghost use Rattle.desk_eido.specs.Reading.{sign_on_of, sign_off_of, assign_of, set_status_of, release_of};
ghost use Rattle.desk_eido.specs.Reading.{stand_by_of, stand_down_of};
ghost use Rattle.desk_eido.specs.Document.{placed_members};

use crate::copied::Document;
use crate::identifiers::incident_at;
use crate::members::{status_at, unit_at};
use desk_types::{Command, Member, Refusal};
use std::alloc::Global;

#[tactic(auto, unfolding(crate::specs::Reading::sign_on_of))]
pub(crate) fn sign_on_of(
    alloc: Global,
    at: i64,
    document: &Document<'_>,
) -> Result<Command, Refusal>
    ensures { GivesResult (λ c. c) result (sign_on_of at (placed_members document.now)) }
{
    let unit = unit_at(alloc, document, Member::Unit)?;
    Ok(Command::SignOn { at, unit })
}

#[tactic(auto, unfolding(crate::specs::Reading::sign_off_of))]
pub(crate) fn sign_off_of(
    alloc: Global,
    at: i64,
    document: &Document<'_>,
) -> Result<Command, Refusal>
    ensures { GivesResult (λ c. c) result (sign_off_of at (placed_members document.now)) }
{
    let unit = unit_at(alloc, document, Member::Unit)?;
    Ok(Command::SignOff { at, unit })
}

#[tactic(auto, unfolding(crate::specs::Reading::assign_of))]
pub(crate) fn assign_of(alloc: Global, at: i64, document: &Document<'_>) -> Result<Command, Refusal>
    ensures { GivesResult (λ c. c) result (assign_of at (placed_members document.now)) }
{
    let unit = unit_at(alloc, document, Member::Unit)?;
    let incident = incident_at(alloc, document, Member::Incident)?;
    Ok(Command::Assign { at, unit, incident })
}

#[tactic(auto, unfolding(crate::specs::Reading::set_status_of))]
pub(crate) fn set_status_of(
    alloc: Global,
    at: i64,
    document: &Document<'_>,
) -> Result<Command, Refusal>
    ensures { GivesResult (λ c. c) result (set_status_of at (placed_members document.now)) }
{
    let unit = unit_at(alloc, document, Member::Unit)?;
    let status = status_at(document, Member::Status)?;
    Ok(Command::SetStatus { at, unit, status })
}

#[tactic(auto, unfolding(crate::specs::Reading::release_of))]
pub(crate) fn release_of(
    alloc: Global,
    at: i64,
    document: &Document<'_>,
) -> Result<Command, Refusal>
    ensures { GivesResult (λ c. c) result (release_of at (placed_members document.now)) }
{
    let unit = unit_at(alloc, document, Member::Unit)?;
    Ok(Command::Release { at, unit })
}

#[tactic(auto, unfolding(crate::specs::Reading::stand_by_of))]
pub(crate) fn stand_by_of(
    alloc: Global,
    at: i64,
    document: &Document<'_>,
) -> Result<Command, Refusal>
    ensures { GivesResult (λ c. c) result (stand_by_of at (placed_members document.now)) }
{
    let unit = unit_at(alloc, document, Member::Unit)?;
    let incident = incident_at(alloc, document, Member::Incident)?;
    Ok(Command::StandBy { at, unit, incident })
}

#[tactic(auto, unfolding(crate::specs::Reading::stand_down_of))]
pub(crate) fn stand_down_of(
    alloc: Global,
    at: i64,
    document: &Document<'_>,
) -> Result<Command, Refusal>
    ensures { GivesResult (λ c. c) result (stand_down_of at (placed_members document.now)) }
{
    let unit = unit_at(alloc, document, Member::Unit)?;
    Ok(Command::StandDown { at, unit })
}
