//! A row for each node, made when the first is written.

ghost use Rattle.std.specs.Prelude.{◌≡◌, Some, None, false, replicate, IfOk, OnOk, OnErr};
ghost use Rattle.desk_log.specs.Rows.{rows_of};
ghost use Rattle.desk_view_change.specs.OneMore.{askers_with, offers_with};
ghost use Rattle.desk_view_change.specs.Heard.{earlier_offer};

use crate::offer::Offer;
use desk_types::WantOfMemory;
use std::alloc::Global;

/// A row for each of `n` nodes: none asked.
fn no_askers(alloc: Global, n: u8) -> Result<Vec<bool>, WantOfMemory>
    ensures { IfOk result (λ askers. askers.items ≡ replicate n false) }
{
    let mut askers = Vec::new(alloc);
    for _node in 0..n {
        askers.push(false)?;
    }
    Ok(askers)
}

/// A slot for each of `n` nodes: none offered a log.
fn no_offers(alloc: Global, n: u8) -> Result<Vec<Option<Offer>>, WantOfMemory>
    ensures { IfOk result (λ offers. offers.items ≡ replicate n None) }
{
    let mut offers = Vec::new(alloc);
    for _node in 0..n {
        offers.push(None)?;
    }
    Ok(offers)
}

/// Makes a row for each of `n` nodes, where there are none. Where memory is refused nothing changes.
pub(crate) fn make_askers(alloc: Global, n: u8, askers: &mut Vec<bool>) -> Result<(), WantOfMemory>
    ensures ok { OnOk result (askers.new.items ≡ rows_of n false askers.old.items) }
    ensures err { OnErr result (askers.new.items ≡ askers.old.items) }
{
    if askers.is_empty() {
        *askers = no_askers(alloc, n)?;
    }
    Ok(())
}

/// Makes a slot for the offer of each of `n` nodes, where there are none. Where memory is refused nothing changes.
pub(crate) fn make_offers(
    alloc: Global,
    n: u8,
    offers: &mut Vec<Option<Offer>>,
) -> Result<(), WantOfMemory>
    ensures ok { OnOk result (offers.new.items ≡ rows_of n None offers.old.items) }
    ensures err { OnErr result (offers.new.items ≡ offers.old.items) }
{
    if offers.is_empty() {
        *offers = no_offers(alloc, n)?;
    }
    Ok(())
}

/// Marks that a node asked, where there is one that did.
pub(crate) fn mark_asker(askers: &mut Vec<bool>, asker: Option<u8>)
    ensures { askers.new.items ≡ askers_with asker askers.old.items }
{
    if let Some(j) = asker {
        if (j as usize) < askers.len() {
            askers[j as usize] = true;
        }
    }
}

/// Puts an offer into a slot, where the slot is empty.
fn fill(slot: &mut Option<Offer>, offer: Offer)
    ensures { slot.new ≡ Some (earlier_offer slot.old offer) }
{
    if slot.is_none() {
        *slot = Some(offer);
    }
}

/// Puts an offer into its node's slot, where there is one and the slot is empty.
pub(crate) fn put_offer(offers: &mut Vec<Option<Offer>>, offer: Option<(u8, Offer)>)
    ensures { offers.new.items ≡ offers_with offer offers.old.items }
{
    if let Some((j, offer)) = offer {
        if (j as usize) < offers.len() {
            fill(&mut offers[j as usize], offer);
        }
    }
}
