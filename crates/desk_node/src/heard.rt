//! What a node heard of its view.

ghost use Rattle.std.specs.Prelude.{◌≡◌, ◌<◌, length, if◌then◌else◌, OnOk, OnErr};
ghost use Rattle.desk_node.specs.Heard.{silence, heard_at, with_prepare_ok, with_asker_and_offer};

use desk_normal::Acknowledgements;
use desk_types::WantOfMemory;
use desk_view_change::{Offer, ViewChangeRows};
use std::alloc::Global;
use std::marker::Model;

/// What a node heard of its view since its last start: which places the nodes acknowledged, and of a change to the view
/// who asked for it, and who offered which log.
pub(crate) struct HeardRows {
    places: Acknowledgements,
    view_change: ViewChangeRows,
}

// Written out, so that callers need not prove each part's drop.
impl Drop for HeardRows {
    fn drop(self) {
        let HeardRows {
            places: _,
            view_change: _,
        } = self;
    }
}

impl Model for HeardRows {
    ghost use Rattle.desk_node.specs.Heard.{Heard};

    ghost Value = { Heard };

    ghost view = { λ h. record { places = h.places; view_change = h.view_change } };
}

impl HeardRows {
    /// Nothing was heard of any of `n` nodes. It takes no memory.
    pub(crate) fn new(alloc: Global, n: u8) -> HeardRows
        ensures { result ≡ silence n }
    {
        HeardRows {
            places: Acknowledgements::new(alloc, n),
            view_change: ViewChangeRows::new(alloc, n),
        }
    }

    /// Which places the nodes acknowledged.
    pub(crate) fn places(&self) -> &Acknowledgements
        ensures { result.now ≡ self.now.places }
    {
        &self.places
    }

    /// What was heard of a change to the view.
    pub(crate) fn view_change(&self) -> &ViewChangeRows
        ensures { result.now ≡ self.now.view_change }
    {
        &self.view_change
    }

    /// Drops what was heard, where the node left the view. It takes no memory.
    pub(crate) fn leave(&mut self, alloc: Global, n: u8, old: u64, new: u64)
        ensures { self.new ≡ heard_at n old new self.old }
    {
        if old < new {
            *self = HeardRows::new(alloc, n);
        }
    }

    /// Hears, where it is so, that node `j` acknowledged a place. Where memory is refused nothing changes.
    pub(crate) fn acknowledge(
        &mut self,
        acknowledged: bool,
        j: u8,
        place: u64,
    ) -> Result<(), WantOfMemory>
        requires { j < length self.old.places }
        ensures ok { OnOk result (self.new ≡ if acknowledged then with_prepare_ok j place self.old else self.old) }
        ensures err { OnErr result (self.new ≡ self.old) }
    {
        if acknowledged {
            return self.places.raise(j, place);
        }
        Ok(())
    }

    /// Hears that a node asks for a view, and that a node offers a log for it, where there are such. What was heard of
    /// an earlier view is dropped. Where memory is refused nothing changes.
    pub(crate) fn hear(
        &mut self,
        alloc: Global,
        n: u8,
        old: u64,
        new: u64,
        asker: Option<u8>,
        offer: Option<(u8, Offer)>,
    ) -> Result<(), WantOfMemory>
        ensures ok { OnOk result (self.new ≡ with_asker_and_offer asker offer (heard_at n old new self.old)) }
        ensures err { OnErr result (self.new ≡ self.old) }
    {
        if old < new {
            let mut heard = HeardRows::new(alloc, n);
            heard.view_change.hear(asker, offer)?;
            *self = heard;
            return Ok(());
        }
        self.view_change.hear(asker, offer)
    }
}
