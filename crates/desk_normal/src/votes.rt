//! Which place enough nodes acknowledged, found among the places that nodes acknowledged.

ghost use Rattle.std.specs.Prelude.{◌≡◌, ◌<◌, not, ◌&&◌, ◌==◌, nat_le, length, slice_index_or};
ghost use Rattle.desk_normal.specs.Acknowledgements.{places_with, votes, acknowledged_place};
ghost use Rattle.desk_normal.specs.Candidates.{candidate, greatest_candidate};

use crate::acknowledgements::Acknowledgements;
use desk_log::GroupNode;

/// What the nodes acknowledged, and a PrepareOk that is not in those rows yet.
#[derive(Clone, Copy)]
pub(crate) struct NewAcknowledgement {
    pub from: u8,
    pub place: u64,
}

/// The greatest place that node `j` acknowledged, the new acknowledgement included.
fn place_of(places: &Acknowledgements, new: NewAcknowledgement, j: u8) -> u64
    requires from { new.from < length places.now }
    requires node { j < length places.now }
    ensures { result ≡ slice_index_or (places_with new.from new.place places.now) j 0 }
{
    let place = places.get(j);
    if j == new.from {
        return place.max(new.place);
    }
    place
}

/// Whether node `j` is another than node `i`, and acknowledged a place.
fn counts(i: u8, places: &Acknowledgements, new: NewAcknowledgement, place: u64, j: u8) -> bool
    requires from { new.from < length places.now }
    requires node { j < length places.now }
    ensures { result
        ≡ (not (j == i) && nat_le place (slice_index_or (places_with new.from new.place places.now) j 0)) }
{
    j != i && place <= place_of(places, new, j)
}

/// How many other nodes acknowledged a place.
fn votes(member: GroupNode, places: &Acknowledgements, new: NewAcknowledgement, place: u64) -> u8
    requires rows { length places.now ≡ member.n }
    requires from { new.from < member.n }
    ensures { result ≡ votes member.id member.n (places_with new.from new.place places.now) place }
{
    let mut count: u8 = 0;
    for j in 0..member.n {
        if counts(member.id, places, new, place, j) {
            count += 1;
        }
    }
    count
}

/// The place of node `j`, within the last one of the log, which may be the acknowledged one; 0 for node `i` itself.
fn candidate(i: u8, places: &Acknowledgements, new: NewAcknowledgement, last: u64, j: u8) -> u64
    requires from { new.from < length places.now }
    requires node { j < length places.now }
    ensures { result ≡ candidate i (places_with new.from new.place places.now) last j }
{
    if j == i {
        return 0;
    }
    place_of(places, new, j).min(last)
}

/// The greatest candidate that as many other nodes acknowledged as may fail, else 0.
fn greatest_candidate(
    member: GroupNode,
    places: &Acknowledgements,
    new: NewAcknowledgement,
    last: u64,
) -> u64
    requires rows { length places.now ≡ member.n }
    requires from { new.from < member.n }
    ensures { result
        ≡ greatest_candidate member.id member.n (places_with new.from new.place places.now) last member.n }
{
    let mut greatest = 0;
    for j in 0..member.n {
        let place = candidate(member.id, places, new, last, j);
        if greatest < place && member.faults() <= votes(member, places, new, place) {
            greatest = place;
        }
    }
    greatest
}

/// The greatest place up to the last one that as many other nodes acknowledged as may fail, else 0. Where no node may
/// fail nobody else is asked. The time is quadratic in the number of nodes.
#[tactic(auto, using(crate::proofs::Candidates::greatest_is_acknowledged, crate::proofs::Candidates::all_acknowledged))]
pub(crate) fn acknowledged_place(
    member: GroupNode,
    places: &Acknowledgements,
    new: NewAcknowledgement,
    last: u64,
) -> u64
    requires rows { length places.now ≡ member.n }
    requires from { new.from < member.n }
    ensures { result ≡ acknowledged_place member.id member.n (places_with new.from new.place places.now) last }
{
    if member.faults() == 0 {
        return last;
    }
    greatest_candidate(member, places, new, last)
}
