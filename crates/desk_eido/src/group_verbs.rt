//! The command about the nodes of the group. `at` is in whole seconds since 1970.

ghost use Rattle.desk_eido.specs.Members.{GivesResult};
ghost use Rattle.desk_eido.specs.Reading.{replace_of};
ghost use Rattle.desk_eido.specs.Document.{placed_members};

use crate::copied::Document;
use crate::members::{node_number_at, token_at};
use desk_types::{Command, Refusal};

#[tactic(auto, unfolding(crate::specs::Reading::replace_of))]
pub(crate) fn replace_of(at: i64, document: &Document<'_>) -> Result<Command, Refusal>
    ensures { GivesResult (λ c. c) result (replace_of at (placed_members document.now)) }
{
    let node = node_number_at(document)?;
    let token = token_at(document)?;
    Ok(Command::Replace { at, node, token })
}
