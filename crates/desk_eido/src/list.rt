//! What a list asks for.

ghost use Rattle.std.specs.Prelude.{◌≡◌};
ghost use Rattle.desk_eido.specs.Members.{GivesResult, listed_state_of, listed_state_seen, listed_state_at};
ghost use Rattle.desk_eido.specs.Members.{place_seen, optional_place_at};
ghost use Rattle.desk_eido.specs.Reading.{list_of};
ghost use Rattle.desk_eido.specs.Document.{placed_members};
ghost use Rattle.desk_eido.specs.SeenViews.{seen_view};

use crate::copied::Document;
use crate::members::{client_at, natural_seen, text_seen};
use crate::seen::Seen;
use desk_types::{ListedState, Member, Refusal, Show, Subject};

/// The state of a word.
#[tactic(auto, unfolding(crate::specs::Members::listed_state_of))]
fn listed_state_of(word: &str) -> Option<ListedState>
    ensures { result ≡ listed_state_of word.now }
{
    match word {
        "open" => Some(ListedState::Open),
        "cleared" => Some(ListedState::Cleared),
        "merged" => Some(ListedState::Merged),
        _ => None,
    }
}

/// The state that is seen under a member.
#[tactic(auto, unfolding(crate::specs::Members::listed_state_seen))]
fn listed_state_seen(seen: Seen<'_>, member: Member) -> Result<ListedState, Refusal>
    ensures { GivesResult (λ s. s) result (listed_state_seen member (seen_view seen.entry)) }
{
    match listed_state_of(text_seen(seen, member)?) {
        Some(state) => Ok(state),
        None => Err(Refusal::OutOfRange { member }),
    }
}

/// The state that a member names. Where there is no such member, incidents of any state are listed.
#[tactic(auto, unfolding(crate::specs::Members::listed_state_at))]
fn listed_state_at(document: &Document<'_>, member: Member) -> Result<ListedState, Refusal>
    ensures { GivesResult (λ s. s) result (listed_state_at member (placed_members document.now)) }
{
    match document.member(member) {
        None => Ok(ListedState::Any),
        Some(seen) => listed_state_seen(seen, member),
    }
}

/// The place of the log that is seen under a member.
#[tactic(auto, unfolding(crate::specs::Members::place_seen))]
fn place_seen(seen: Seen<'_>, member: Member) -> Result<u64, Refusal>
    ensures { GivesResult (λ p. p) result (place_seen member (seen_view seen.entry)) }
{
    let place = natural_seen(seen, member)?;
    if place == 0 {
        return Err(Refusal::OutOfRange { member });
    }
    Ok(place)
}

/// The place that a member tells, if there is the member.
#[tactic(auto, unfolding(crate::specs::Members::optional_place_at))]
fn optional_place_at(document: &Document<'_>, member: Member) -> Result<Option<u64>, Refusal>
    ensures { GivesResult (λ p. p) result (optional_place_at member (placed_members document.now)) }
{
    match document.member(member) {
        None => Ok(None),
        Some(seen) => Ok(Some(place_seen(seen, member)?)),
    }
}

/// Which incidents are to be listed, and to which client.
#[tactic(auto, unfolding(crate::specs::Reading::list_of))]
pub(crate) fn list_of(document: &Document<'_>) -> Result<Show, Refusal>
    ensures { GivesResult (λ s. s) result (list_of (placed_members document.now)) }
{
    let client = client_at(document)?;
    let state = listed_state_at(document, Member::State)?;
    let from = optional_place_at(document, Member::From)?;
    Ok(Show {
        client,
        subject: Subject::List { state, from },
    })
}
