//! What a node heard of the change to its view.

ghost use Rattle.std.specs.Prelude.{◌≡◌, false, None, slice_index_or, OnOk, OnErr};
ghost use Rattle.std.specs.Option.{option_map};
ghost use Rattle.desk_view_change.specs.Heard.{no_view_change};
ghost use Rattle.desk_view_change.specs.Plan.{view_change_with};

use crate::offer::Offer;
use crate::rows::{make_askers, make_offers, mark_asker, put_offer};
use desk_types::WantOfMemory;
use std::alloc::Global;
use std::marker::Model;

/// For each node of a group whether it asked for a view, and the first log that it offered. The rows are made when the
/// first is written.
pub struct ViewChangeRows {
    n: u8,
    askers: Vec<bool>,
    offers: Vec<Option<Offer>>,
    alloc: Global,
}

// Written out, so that callers need not prove each part's drop.
impl Drop for ViewChangeRows {
    fn drop(self) {
        let ViewChangeRows {
            n: _,
            askers: _,
            offers: _,
            alloc: _,
        } = self;
    }
}

impl Model for ViewChangeRows {
    ghost use Rattle.std.specs.Prelude.{false, None};
    ghost use Rattle.desk_log.specs.Rows.{rows_of};
    ghost use Rattle.desk_view_change.specs.Heard.{ViewChangeHeard, HasRowForEach};

    ghost Value = { ViewChangeHeard };

    ghost view = { λ a. record {
      askers = rows_of a.n false a.askers.items;
      offers = rows_of a.n None a.offers.items;
    } };

    ghost invariant = { λ a. HasRowForEach a.n (record {
      askers = rows_of a.n false a.askers.items;
      offers = rows_of a.n None a.offers.items;
    }) };
}

impl ViewChangeRows {
    /// Nothing was heard from any of `n` nodes. It takes no memory.
    #[tactic(auto, using(crate::proofs::HeardRows::no_rows))]
    pub fn new(alloc: Global, n: u8) -> ViewChangeRows
        ensures { result ≡ no_view_change n }
    {
        ViewChangeRows {
            n,
            askers: Vec::new(alloc),
            offers: Vec::new(alloc),
            alloc,
        }
    }

    /// Whether node `k` asked for the view; false also where there is no row for it.
    pub(crate) fn has_asked(&self, k: u8) -> bool
        ensures { result ≡ slice_index_or self.now.askers k false }
    {
        match self.askers.get(k as usize) {
            Some(has_asked) => *has_asked,
            None => false,
        }
    }

    /// The first log that node `k` offered, `None` also where there is no row for it.
    pub(crate) fn offer_of(&self, k: u8) -> Option<&Offer>
        ensures { option_map (λ o. o.now) result ≡ slice_index_or self.now.offers k None }
    {
        match self.offers.get(k as usize) {
            Some(slot) => slot.as_ref(),
            None => None,
        }
    }

    /// Hears that a node asks, and that a node offers a log, where there are such. Where memory is refused nothing
    /// changes.
    pub fn hear(
        &mut self,
        asker: Option<u8>,
        offer: Option<(u8, Offer)>,
    ) -> Result<(), WantOfMemory>
        ensures ok { OnOk result (self.new ≡ view_change_with asker offer self.old) }
        ensures err { OnErr result (self.new ≡ self.old) }
    {
        if asker.is_some() {
            make_askers(self.alloc, self.n, &mut self.askers)?;
        }
        if offer.is_some() {
            make_offers(self.alloc, self.n, &mut self.offers)?;
        }
        mark_asker(&mut self.askers, asker);
        put_offer(&mut self.offers, offer);
        Ok(())
    }
}
