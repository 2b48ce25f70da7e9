//! What the nodes offered for a view, with one offer more.

ghost use Rattle.std.specs.Prelude.{◌≡◌, ◌<◌, None, length, slice_index_or};
ghost use Rattle.std.specs.Option.{option_map};
ghost use Rattle.desk_log.specs.Quorum.{tally};
ghost use Rattle.desk_view_change.specs.Choice.{has_offer, commit_of, is_better, better_offer, best_offer};
ghost use Rattle.desk_view_change.specs.Choice.{greatest_commit, may_choose};
ghost use Rattle.desk_view_change.specs.Heard.{with_offer};

use crate::heard::ViewChangeRows;
use crate::offer::Offer;
use desk_log::GroupNode;

/// What node `k` offered: what was heard of it, else the one more where that is its own.
#[tactic(auto, using(crate::proofs::WithOneMore::offered_earlier, crate::proofs::WithOneMore::offered_here))]
fn offer_with<'a>(heard: &'a ViewChangeRows, from: u8, more: &'a Offer, k: u8) -> Option<&'a Offer>
    requires { from < length heard.now.offers }
    ensures { option_map (λ o. o.now) result ≡ slice_index_or (with_offer from more.now heard.now).offers k None }
{
    match heard.offer_of(k) {
        Some(earlier) => Some(earlier),
        None if k == from => Some(more),
        None => None,
    }
}

/// Whether node `k` offered a log, in the one more or before.
fn has_offer(heard: &ViewChangeRows, from: u8, more: &Offer, k: u8) -> bool
    requires { from < length heard.now.offers }
    ensures { result ≡ has_offer (slice_index_or (with_offer from more.now heard.now).offers k None) }
{
    match offer_with(heard, from, more, k) {
        None => false,
        Some(_) => true,
    }
}

/// The commit that node `k` offered, 0 where it offered none.
fn commit_of(heard: &ViewChangeRows, from: u8, more: &Offer, k: u8) -> u64
    requires { from < length heard.now.offers }
    ensures { result ≡ commit_of (slice_index_or (with_offer from more.now heard.now).offers k None) }
{
    match offer_with(heard, from, more, k) {
        None => 0,
        Some(offer) => offer.commit,
    }
}

/// Whether the second is of a later normal view, or of the same with a longer log.
fn is_better(first: &Offer, second: &Offer) -> bool
    ensures { result ≡ is_better first.now second.now }
{
    first.normal < second.normal
        || first.normal == second.normal && first.log.len() < second.log.len()
}

/// The second where it is better, else the first.
fn better_offer<'a>(first: Option<&'a Offer>, second: Option<&'a Offer>) -> Option<&'a Offer>
    ensures { option_map (λ o. o.now) result
        ≡ better_offer (option_map (λ o. o.now) first.entry) (option_map (λ o. o.now) second.entry) }
{
    match first {
        None => second,
        Some(a) => match second {
            None => Some(a),
            Some(b) => Some(if is_better(a, b) { b } else { a }),
        },
    }
}

/// The best offer of `n` nodes, and of several that are as good that of the lowest of them.
pub(crate) fn best_offer<'a>(
    heard: &'a ViewChangeRows,
    from: u8,
    more: &'a Offer,
    n: u8,
) -> Option<&'a Offer>
    requires { from < length heard.now.offers }
    ensures { option_map (λ o. o.now) result ≡ best_offer (with_offer from more.now heard.now).offers n }
{
    let mut best: Option<&'a Offer> = None;
    for k in 0..n {
        best = better_offer(best, offer_with(heard, from, more, k));
    }
    best
}

/// The greatest commit that any of `n` nodes offered.
pub(crate) fn greatest_commit(heard: &ViewChangeRows, from: u8, more: &Offer, n: u8) -> u64
    requires { from < length heard.now.offers }
    ensures { result ≡ greatest_commit (with_offer from more.now heard.now).offers n }
{
    let mut greatest = 0;
    for k in 0..n {
        greatest = commit_of(heard, from, more, k).max(greatest);
    }
    greatest
}

/// How many of `n` nodes offered.
fn offer_count(heard: &ViewChangeRows, from: u8, more: &Offer, n: u8) -> u8
    requires { from < length heard.now.offers }
    ensures { result
        ≡ tally n (λ j. has_offer (slice_index_or (with_offer from more.now heard.now).offers j None)) }
{
    let mut count: u8 = 0;
    for k in 0..n {
        if has_offer(heard, from, more, k) {
            count += 1;
        }
    }
    count
}

/// Whether more nodes than may fail offered, this one among them.
pub(crate) fn may_choose(member: GroupNode, heard: &ViewChangeRows, from: u8, more: &Offer) -> bool
    requires id { member.id < member.n }
    requires from { from < length heard.now.offers }
    ensures { result ≡ may_choose member.id member.n (with_offer from more.now heard.now).offers }
{
    member.faults() < offer_count(heard, from, more, member.n)
        && has_offer(heard, from, more, member.id)
}
