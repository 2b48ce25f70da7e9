//! The links between incidents.

ghost use Rattle.std.specs.Prelude.{◌≡◌, IfOk};
ghost use Rattle.desk_types.specs.Checks.{VerbOutcome};
ghost use Rattle.desk_types.specs.MergedNumber.{number_after_merge};
ghost use Rattle.desk_types.specs.declared.reply.Word.TheVariants as words;
ghost use Rattle.desk_incidents.specs.Links.{same_link, new_link, other_end, links_of};
ghost use Rattle.desk_types.specs.Checks.{plain_done};
ghost use Rattle.desk_incidents.specs.Verbs.{link_refusal, incidents_after_link, unlink_refusal};
ghost use Rattle.desk_incidents.specs.Verbs.{incidents_after_unlink};

use crate::incident::Linked;
use crate::incidents::Incidents;
use desk_types::{Done, IncidentId, Items, Refusal, WantOfMemory, Word};

/// The link of two numbers, the smaller first.
pub(crate) fn new_link(one: u64, other: u64) -> Linked
    ensures { result ≡ new_link one other }
{
    if one <= other {
        Linked {
            incident: one,
            other,
        }
    } else {
        Linked {
            incident: other,
            other: one,
        }
    }
}

pub(crate) fn same_link(one: &Linked, other: &Linked) -> bool
    ensures { result ≡ same_link one.now other.now }
{
    one.incident == other.incident && one.other == other.other
}

/// A number, in whose place another stands where it was that of a merged incident.
pub(crate) fn number_after_merge(incident: u64, into: u64, number: u64) -> u64
    ensures { result ≡ number_after_merge incident into number }
{
    if number == incident { into } else { number }
}

/// The number that a link has beside a number.
pub(crate) fn other_end(link: &Linked, number: u64) -> Option<u64>
    ensures { result ≡ other_end number link.now }
{
    if link.incident == number {
        Some(link.other)
    } else if link.other == number {
        Some(link.incident)
    } else {
        None
    }
}

impl Incidents {
    /// Links two open incidents that are not linked.
    pub fn link(&mut self, incident: &IncidentId, other: &IncidentId) -> Result<Done, Refusal>
        ensures settles { VerbOutcome (link_refusal incident.now other.now self.old) (plain_done words.Linked)
            (incidents_after_link incident.now other.now self.old) self.old self.new result }
    {
        let incident = self.open_number(incident)?;
        let other = self.open_number(other)?;
        if incident == other {
            return Err(Refusal::SameIncident);
        }
        let link = new_link(incident, other);
        if self.linked.has(link) {
            return Err(Refusal::LinkThere);
        }
        self.linked.push(link)?;
        Ok(Done::plain(Word::Linked))
    }

    /// Removes the link between two incidents that are not merged.
    pub fn unlink(&mut self, incident: &IncidentId, other: &IncidentId) -> Result<Done, Refusal>
        ensures settles { VerbOutcome (unlink_refusal incident.now other.now self.old) (plain_done words.Unlinked)
            (incidents_after_unlink incident.now other.now self.old) self.old self.new result }
    {
        let incident = self.known_number(incident)?;
        let other = self.known_number(other)?;
        if incident == other {
            return Err(Refusal::SameIncident);
        }
        let link = new_link(incident, other);
        if !self.linked.has(link) {
            return Err(Refusal::NoLink);
        }
        self.linked.remove(link);
        Ok(Done::plain(Word::Unlinked))
    }

    /// The incidents that the incident of a number is linked with, in the order of the links.
    pub fn links_of(&self, number: u64) -> Result<Items<IncidentId>, WantOfMemory>
        ensures { IfOk result (λ links. links ≡ links_of number self.now.incidents self.now.linked) }
    {
        self.linked.of(self.alloc, &self.incidents, number)
    }
}
