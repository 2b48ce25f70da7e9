//! Which places of a view the nodes acknowledged.

ghost use Rattle.std.specs.Prelude.{◌≡◌, ◌<◌, length, replicate, slice_index_or, IfOk, OnOk, OnErr};
ghost use Rattle.desk_log.specs.Rows.{rows_of};
ghost use Rattle.desk_normal.specs.Acknowledgements.{places_with};

use desk_types::WantOfMemory;
use std::alloc::Global;
use std::marker::Model;

/// For each node of a group the greatest place of a view that it acknowledged, 0 where there is none. A contract sees
/// the list of the places. The rows are made when the first is written.
pub struct Acknowledgements {
    n: u8,
    places: Vec<u64>,
    alloc: Global,
}

// Written out, so that callers need not prove each part's drop.
impl Drop for Acknowledgements {
    fn drop(self) {
        let Acknowledgements {
            n: _,
            places: _,
            alloc: _,
        } = self;
    }
}

impl Model for Acknowledgements {
    ghost use Rattle.std.specs.Prelude.{◌≡◌, ℕ, List, length};
    ghost use Rattle.desk_log.specs.Rows.{rows_of};

    ghost Value = { List ℕ };

    ghost view = { λ a. rows_of a.n 0 a.places.items };

    ghost invariant = { λ a. length (rows_of a.n 0 a.places.items) ≡ a.n };
}

/// A row of 0 for each of `n` nodes.
fn rows_of_none(alloc: Global, n: u8) -> Result<Vec<u64>, WantOfMemory>
    ensures { IfOk result (λ rows. rows.items ≡ replicate n 0) }
{
    let mut rows = Vec::new(alloc);
    for _node in 0..n {
        rows.push(0)?;
    }
    Ok(rows)
}

/// Makes the rows, where they are not made. Where memory is refused nothing changes.
fn make_rows(alloc: Global, n: u8, places: &mut Vec<u64>) -> Result<(), WantOfMemory>
    ensures ok { OnOk result (places.new.items ≡ rows_of n 0 places.old.items) }
    ensures err { OnErr result (places.new.items ≡ places.old.items) }
{
    if places.is_empty() {
        *places = rows_of_none(alloc, n)?;
    }
    Ok(())
}

/// Takes a place into the row of node `j`.
fn raise_row(places: &mut Vec<u64>, j: u8, place: u64)
    requires { j < length places.old.items }
    ensures { places.new.items ≡ places_with j place places.old.items }
{
    let row = j as usize;
    places[row] = places[row].max(place);
}

impl Acknowledgements {
    /// Nothing was acknowledged by any of `n` nodes. It takes no memory.
    #[tactic(auto, using(desk_log::proofs::NodeRows::length_replicate))]
    pub fn new(alloc: Global, n: u8) -> Acknowledgements
        ensures value { result ≡ replicate n 0 }
    {
        Acknowledgements {
            n,
            places: Vec::new(alloc),
            alloc,
        }
    }

    /// The greatest place that node `j` acknowledged.
    #[tactic(auto, using(crate::proofs::Rows::row_not_made))]
    pub(crate) fn get(&self, j: u8) -> u64
        requires { j < length self.now }
        ensures { result ≡ slice_index_or self.now j 0 }
    {
        match self.places.get(j as usize) {
            Some(place) => *place,
            None => 0,
        }
    }

    /// Takes in that node `j` acknowledged a place. Where memory is refused nothing changes.
    #[tactic(auto, using(desk_log::proofs::NodeRows::rows_whole, desk_log::proofs::NodeRows::rows_same))]
    pub fn raise(&mut self, j: u8, place: u64) -> Result<(), WantOfMemory>
        requires { j < length self.old }
        ensures ok { OnOk result (self.new ≡ places_with j place self.old) }
        ensures err { OnErr result (self.new ≡ self.old) }
    {
        make_rows(self.alloc, self.n, &mut self.places)?;
        raise_row(&mut self.places, j, place);
        Ok(())
    }
}
