//! What is known of the nodes.

ghost use Rattle.std.specs.Prelude.{◌≡◌, ◌++◌, take, decimal, IfOk, OnOk};
ghost use Rattle.desk_page.specs.declared.group.TheConstants.{MOST_PLACES};
ghost use Rattle.desk_page.specs.Groups.{seen_places, place_text, node_text, next_node_text, texts_from};
ghost use Rattle.desk_page.specs.Groups.{group_text};

use itoa::Buffer;
use std::alloc::{AllocError, Global};

/// The most nodes of a group.
const MOST_PLACES: usize = 5;

/// What the nodes answered last.
#[derive(Clone, Copy)]
pub(crate) struct SeenGroup {
    /// The reader's last line got a reply.
    pub(crate) is_live: bool,
    /// How many nodes there are.
    pub(crate) count: u8,
    /// The place that each shows. A node that is down shows none.
    pub(crate) places: [Option<u64>; MOST_PLACES],
}

impl SeenGroup {
    /// No node was asked.
    pub(crate) fn new() -> SeenGroup {
        SeenGroup {
            is_live: false,
            count: 0,
            places: [None; MOST_PLACES],
        }
    }

    /// The places of the nodes, from node 0 on.
    pub(crate) fn seen(&self) -> &[Option<u64>]
        ensures { result.now ≡ seen_places self.now }
    {
        &self.places[..(self.count as usize).min(MOST_PLACES)]
    }

    /// These are the places of the nodes, at most `MOST_PLACES` of them.
    pub(crate) fn see(&mut self, places: &[Option<u64>])
        ensures seen { seen_places self.new ≡ take MOST_PLACES places.now }
        ensures live { self.new.is_live ≡ self.old.is_live }
    {
        let count = places.len().min(MOST_PLACES);
        self.places[..count].copy_from_slice(&places[..count]);
        self.count = count as u8;
    }

    /// The reader's last line got a reply, or it did not.
    pub(crate) fn say_live(&mut self, is_live: bool)
        ensures live { self.new.is_live ≡ is_live }
        ensures seen { seen_places self.new ≡ seen_places self.old }
    {
        self.is_live = is_live;
    }
}

fn push_number(text: &mut Vec<u8>, number: u64) -> Result<(), AllocError>
    ensures { OnOk result (text.new.items ≡ text.old.items ++ decimal number) }
{
    let mut digits = Buffer::new();
    text.extend_from_slice(digits.format(number).as_bytes())?;
    Ok(())
}

/// Appends the place of a node, or that it is down.
fn push_place(text: &mut Vec<u8>, place: &Option<u64>) -> Result<(), AllocError>
    ensures { OnOk result (text.new.items ≡ text.old.items ++ place_text place.now) }
{
    match place {
        Some(place) => push_number(text, *place),
        None => Ok(text.extend_from_slice(b"down")?),
    }
}

/// Appends a node with its place.
fn push_node(text: &mut Vec<u8>, node: u64, place: &Option<u64>) -> Result<(), AllocError>
    ensures { OnOk result (text.new.items ≡ text.old.items ++ node_text node place.now) }
{
    push_number(text, node)?;
    text.extend_from_slice(b"=")?;
    push_place(text, place)
}

/// Appends a node that stands after another.
fn push_next(text: &mut Vec<u8>, node: u64, place: &Option<u64>) -> Result<(), AllocError>
    ensures { OnOk result (text.new.items ≡ text.old.items ++ next_node_text node place.now) }
{
    text.extend_from_slice(b",")?;
    push_node(text, node, place)
}

/// Appends the nodes after node 0.
fn push_others(text: &mut Vec<u8>, places: &[Option<u64>]) -> Result<(), AllocError>
    ensures { OnOk result (text.new.items ≡ text.old.items ++ texts_from 1 places.now) }
{
    for i in 0..places.len() {
        push_next(text, i as u64 + 1, &places[i])?;
    }
    Ok(())
}

/// The nodes with their places, as in `0=57,1=57,2=down`.
fn places_text(alloc: Global, places: &[Option<u64>]) -> Result<Vec<u8>, AllocError>
    ensures { IfOk result (λ text. text.items ≡ group_text places.now) }
{
    let mut text = Vec::new(alloc);
    match places {
        [] => Ok(text),
        [first, others @ ..] => {
            push_node(&mut text, 0, first)?;
            push_others(&mut text, others)?;
            Ok(text)
        }
    }
}

/// The nodes that were asked, with their places.
pub(crate) fn group_text(alloc: Global, group: &SeenGroup) -> Result<Vec<u8>, AllocError>
    ensures { IfOk result (λ text. text.items ≡ group_text (seen_places group.now)) }
{
    places_text(alloc, group.seen())
}

/// A number in decimal.
pub(crate) fn number_text(alloc: Global, number: u64) -> Result<Vec<u8>, AllocError>
    ensures { IfOk result (λ text. text.items ≡ decimal number) }
{
    let mut text = Vec::new(alloc);
    push_number(&mut text, number)?;
    Ok(text)
}
