//! The members of a document.

ghost use Rattle.desk_types.specs.declared.refusal.Member.TheVariants as members;
ghost use Rattle.desk_eido.specs.Members.{GivesResult, seen_at, as_text, member_text, as_natural, natural_at};
ghost use Rattle.desk_eido.specs.Members.{client_at, request_number_at, node_number_at, node_number_of, token_at};
ghost use Rattle.desk_eido.specs.Members.{bounded_at, unit_at, unit_seen, status_at, instant_at};
ghost use Rattle.desk_eido.specs.Document.{placed_members};
ghost use Rattle.desk_eido.specs.SeenViews.{seen_view};

use crate::copied::Document;
use crate::seen::Seen;
use crate::status::status_of;
use crate::time::seconds_of;
use desk_types::limits::MOST_NODES;
use desk_types::{
    BoundedText, ClientId, Member, NodeNumber, Refusal, RequestNumber, Status, Token, UnitName,
};
use std::alloc::Global;

/// What is seen of a member.
#[tactic(auto, unfolding(crate::specs::Members::seen_at))]
pub(crate) fn seen_at<'a>(document: &Document<'a>, member: Member) -> Result<Seen<'a>, Refusal>
    ensures { GivesResult seen_view result (seen_at member (placed_members document.now)) }
{
    match document.member(member) {
        Some(seen) => Ok(seen),
        None => Err(Refusal::Missing { member }),
    }
}

/// The text, where one is seen under a member.
pub(crate) fn text_seen<'a>(seen: Seen<'a>, member: Member) -> Result<&'a str, Refusal>
    ensures { GivesResult (λ s. s.now) result (as_text member (seen_view seen.entry)) }
{
    match seen {
        Seen::Text(text) => Ok(text),
        Seen::Natural(_) | Seen::Negative | Seen::Other => Err(Refusal::WrongKind { member }),
    }
}

/// The text that a member is.
#[tactic(auto, unfolding(crate::specs::Members::member_text))]
pub(crate) fn member_text<'a>(document: &Document<'a>, member: Member) -> Result<&'a str, Refusal>
    ensures { GivesResult (λ s. s.now) result (member_text member (placed_members document.now)) }
{
    text_seen(seen_at(document, member)?, member)
}

/// The number, where one is seen under a member and is held as a whole number. A negative one is out of every range.
pub(crate) fn natural_seen(seen: Seen<'_>, member: Member) -> Result<u64, Refusal>
    ensures { GivesResult (λ n. n) result (as_natural member (seen_view seen.entry)) }
{
    match seen {
        Seen::Natural(number) => Ok(number),
        Seen::Negative => Err(Refusal::OutOfRange { member }),
        Seen::Text(_) | Seen::Other => Err(Refusal::WrongKind { member }),
    }
}

/// The number that a member is.
#[tactic(auto, unfolding(crate::specs::Members::natural_at))]
fn natural_at(document: &Document<'_>, member: Member) -> Result<u64, Refusal>
    ensures { GivesResult (λ n. n) result (natural_at member (placed_members document.now)) }
{
    natural_seen(seen_at(document, member)?, member)
}

/// The client that the member `session` names.
#[tactic(auto, unfolding(crate::specs::Members::client_at))]
pub(crate) fn client_at(document: &Document<'_>) -> Result<ClientId, Refusal>
    ensures { GivesResult (λ c. c) result (client_at (placed_members document.now)) }
{
    let member = Member::Session;
    match ClientId::new(natural_at(document, member)?) {
        Some(client) => Ok(client),
        None => Err(Refusal::OutOfRange { member }),
    }
}

/// The request that the member `number` names.
#[tactic(auto, unfolding(crate::specs::Members::request_number_at))]
pub(crate) fn request_number_at(document: &Document<'_>) -> Result<RequestNumber, Refusal>
    ensures { GivesResult (λ n. n) result (request_number_at (placed_members document.now)) }
{
    let member = Member::Number;
    match RequestNumber::new(natural_at(document, member)?) {
        Some(number) => Ok(number),
        None => Err(Refusal::OutOfRange { member }),
    }
}

/// The number of a node in its group, where a whole number is one.
fn node_number_of(number: u64, member: Member) -> Result<NodeNumber, Refusal>
    ensures { GivesResult (λ n. n) result (node_number_of member number) }
{
    let node = if number < MOST_NODES as u64 {
        NodeNumber::new(number as u8)
    } else {
        None
    };
    match node {
        Some(node) => Ok(node),
        None => Err(Refusal::OutOfRange { member }),
    }
}

/// The node that the member `node` names by its number.
#[tactic(auto, unfolding(crate::specs::Members::node_number_at))]
pub(crate) fn node_number_at(document: &Document<'_>) -> Result<NodeNumber, Refusal>
    ensures { GivesResult (λ n. n) result (node_number_at (placed_members document.now)) }
{
    let member = Member::Node;
    node_number_of(natural_at(document, member)?, member)
}

/// The token that the member `token` tells.
#[tactic(auto, unfolding(crate::specs::Members::token_at))]
pub(crate) fn token_at(document: &Document<'_>) -> Result<Token, Refusal>
    ensures { GivesResult (λ t. t) result (token_at (placed_members document.now)) }
{
    let member = Member::Token;
    match Token::new(natural_at(document, member)?) {
        Some(token) => Ok(token),
        None => Err(Refusal::OutOfRange { member }),
    }
}

/// The text that a member is, of 1 to MOST bytes.
#[tactic(auto, unfolding(crate::specs::Members::bounded_at))]
pub(crate) fn bounded_at<const MOST: usize>(
    alloc: Global,
    document: &Document<'_>,
    member: Member,
) -> Result<BoundedText<MOST>, Refusal>
    ensures { GivesResult (λ t. t) result (bounded_at MOST member (placed_members document.now)) }
{
    match BoundedText::new(alloc, member_text(document, member)?)? {
        Some(text) => Ok(text),
        None => Err(Refusal::OutOfRange { member }),
    }
}

/// The instant that a member names, in whole seconds since 1970.
#[tactic(auto, unfolding(crate::specs::Members::instant_at))]
pub(crate) fn instant_at(document: &Document<'_>, member: Member) -> Result<i64, Refusal>
    ensures { GivesResult (λ z. z) result (instant_at member (placed_members document.now)) }
{
    match seconds_of(member_text(document, member)?) {
        Some(seconds) => Ok(seconds),
        None => Err(Refusal::BadTime { member }),
    }
}

/// The name of a unit, where it is seen under a member.
#[tactic(auto, unfolding(crate::specs::Members::unit_seen))]
pub(crate) fn unit_seen(alloc: Global, seen: Seen<'_>, member: Member) -> Result<UnitName, Refusal>
    ensures { GivesResult (λ u. u) result (unit_seen member (seen_view seen.entry)) }
{
    match UnitName::new(alloc, text_seen(seen, member)?) {
        Ok(unit) => Ok(unit),
        Err(Refusal::OutOfRange { .. }) => Err(Refusal::OutOfRange { member }),
        Err(_) => Err(Refusal::WantOfMemory),
    }
}

/// The unit that a member names.
#[tactic(auto, unfolding(crate::specs::Members::unit_at))]
pub(crate) fn unit_at(
    alloc: Global,
    document: &Document<'_>,
    member: Member,
) -> Result<UnitName, Refusal>
    ensures { GivesResult (λ u. u) result (unit_at member (placed_members document.now)) }
{
    unit_seen(alloc, seen_at(document, member)?, member)
}

/// The status that a member names.
#[tactic(auto, unfolding(crate::specs::Members::status_at))]
pub(crate) fn status_at(document: &Document<'_>, member: Member) -> Result<Status, Refusal>
    ensures { GivesResult (λ s. s) result (status_at member (placed_members document.now)) }
{
    match status_of(member_text(document, member)?) {
        Some(status) => Ok(status),
        None => Err(Refusal::OutOfRange { member }),
    }
}
