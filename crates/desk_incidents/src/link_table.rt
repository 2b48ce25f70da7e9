//! Links in slots, with an index of the slots of each incident.

ghost use Rattle.std.specs.Prelude.{◌≡◌, ◌≢◌, ◌<◌, ◌≤◌, ◌+◌, ◌&&◌, ◌==◌, ℕ, [], ◌++◌, ◌∷◌, true};
ghost use Rattle.std.specs.Prelude.{false, None, Some, length, set, not, filter, is_some, min, if◌then◌else◌, nat_eq};
ghost use Rattle.std.specs.Prelude.{IfOk, IfSome, OnOk, OnErr, find, count_by, vec_capacity};
ghost use Rattle.std.specs.List.{list_any};
ghost use Rattle.std.specs.Option.{option_map};
ghost use Rattle.indexmap.specs.IndexSet.{spare};
ghost use Rattle.desk_index.specs.Places.{at_in, has_list, is_listed};
ghost use Rattle.desk_index.specs.Slots.{live, passes, places, standing};
ghost use Rattle.desk_incidents.specs.Links.{same_link, new_link, has_link, without_link, link_after_merge};
ghost use Rattle.desk_incidents.specs.Links.{links_after_merge, links_of, id_at};
ghost use Rattle.desk_incidents.specs.LinkTable.{touches, touches_either, far_end, IsLinkTable, live_places};
ghost use Rattle.desk_incidents.specs.LinkTable.{slot_after_merge, ends_with, slots_after_merge, ids_at, slot_id};
ghost use Rattle.desk_incidents.specs.EndSets.{has_end, has_either, joins};

use crate::end_sets::{EndSets, put_end};
use crate::incident::{Incident, Linked};
use crate::links::{new_link, number_after_merge, other_end, same_link};
use crate::rows::Rows;
use desk_index::{Places, clear_slot, merged_list, slot_count, with_room};
use desk_types::{IncidentId, Items, WantOfMemory, push_within};
use indexmap::{IndexMap, IndexSet};
use std::alloc::{AllocError, Global};
use std::marker::Model;

/// The links between incidents. A contract sees them as the list of pairs, in the order in which they came, and as the
/// numbers that have a list in the index.
pub(crate) struct Links {
    /// Those of links that were removed, or that merges dropped, are empty, and are never used again.
    slots: Vec<Option<Linked>>,
    /// A list may have places of slots that merges of others emptied, half of them and one at most.
    index: Places,
    /// How many slots of the list of a number merges of others emptied since one of them compacted it.
    emptied: IndexMap<u64, usize>,
    /// Of two numbers that are linked, the set of one has the other.
    ends: EndSets,
}

// Written out, so that callers need not prove each part's drop.
impl Drop for Links {
    fn drop(self) {
        let Links {
            slots: _,
            index: _,
            emptied: _,
            ends: _,
        } = self;
    }
}

impl Model for Links {
    ghost use Rattle.desk_index.specs.Slots.{live};
    ghost use Rattle.desk_incidents.specs.EndSets.{AreNoted, keys_of_both};
    ghost use Rattle.desk_incidents.specs.LinkTable.{LinksValue, IsLinkTable};

    ghost Value = { LinksValue };

    ghost view = { λ l. record {
      pairs = live l.slots.items;
      listed = keys_of_both l.index.lists.entries l.ends.sets.entries;
    } };

    ghost invariant = { λ l. IsLinkTable l.slots.items l.index.lists.entries
        × AreNoted l.slots.items l.ends.sets.entries };
}

/// The memory for the slots of the links of two incidents in one list, and to see which far ends came before. A
/// contract sees it as the number of links that it is enough for.
#[derive(Drop)]
struct ListRoom {
    slots: Vec<usize>,
    ends: IndexSet<u64>,
}

impl Model for ListRoom {
    ghost use Rattle.std.specs.Prelude.{ℕ, min, vec_capacity};
    ghost use Rattle.indexmap.specs.IndexSet.{spare};

    ghost Value = { ℕ };

    ghost view = { λ r. min (vec_capacity r.slots) (spare r.ends) };
}

/// The memory for the links of two incidents in one list, and for the set of their far ends. A contract sees it as the
/// number of links that it is enough for.
#[derive(Drop)]
pub(crate) struct LinksRoom {
    list: ListRoom,
    ends: IndexSet<u64>,
}

impl Model for LinksRoom {
    ghost use Rattle.std.specs.Prelude.{ℕ, min};
    ghost use Rattle.indexmap.specs.IndexSet.{spare};

    ghost Value = { ℕ };

    ghost view = { λ r. min r.list (spare r.ends) };
}

/// Whether a link stands in a slot.
fn stands_at(slots: &[Option<Linked>], slot: usize, link: Linked) -> bool
    ensures { result ≡ passes (λ m. same_link m link) (standing slots.now slot) }
{
    match slots.get(slot) {
        Some(Some(other)) => same_link(other, &link),
        _ => false,
    }
}

/// The first of some slots in which a link stands.
fn slot_among(slots: &[Option<Linked>], among: &[usize], link: Linked) -> Option<usize>
    ensures { result ≡ find (λ k. passes (λ m. same_link m link) (standing slots.now k)) among.now }
{
    among
        .iter()
        .copied()
        .find(|slot| stands_at(slots, *slot, link))
}

/// The slot of a link, which is looked up among those of the one of its ends that has fewer.
fn slot_of(slots: &[Option<Linked>], index: &Places, link: Linked) -> Option<usize>
    requires { IsLinkTable slots.now index.now.lists.entries }
    ensures found { IfSome result (λ k. standing slots.now k ≡ Some link) }
    ensures there { is_some result ≡ has_link link (live slots.now) }
{
    let one = index.at(link.incident);
    let other = index.at(link.other);
    if one.len() <= other.len() {
        slot_among(slots, one, link)
    } else {
        slot_among(slots, other, link)
    }
}

/// What stands in a slot.
fn link_in(slots: &[Option<Linked>], slot: usize) -> Option<Linked>
    ensures { result ≡ standing slots.now slot }
{
    match slots.get(slot) {
        Some(Some(link)) => Some(*link),
        _ => None,
    }
}

/// Takes the places of empty slots out.
fn drop_empty(list: &mut Vec<usize>, slots: &[Option<Linked>])
    ensures { list.new.items ≡ live_places slots.now list.old.items }
{
    list.retain(|place| link_in(slots, *place).is_some());
}

/// How many of the slots at places are not empty.
fn live_count(slots: &[Option<Linked>], among: &[usize]) -> usize
    ensures count { result ≡ length (live_places slots.now among.now) }
    ensures most { result ≤ length among.now }
{
    let mut count = 0;
    for place in among {
        if link_in(slots, *place).is_some() {
            count += 1;
        }
    }
    count
}

/// Takes the places of empty slots out of the list of a number.
fn compact_list(index: &mut Places, slots: &[Option<Linked>], number: u64)
    ensures lists { (n : ℕ) → at_in n index.new.lists.entries
        ≡ (if number == n then live_places slots.now (at_in n index.old.lists.entries)
        else at_in n index.old.lists.entries) }
    ensures preserved { (n : ℕ) → has_list n index.new.lists.entries ≡ has_list n index.old.lists.entries }
{
    if let Some(at) = index.lists.get_index_of(&number) {
        drop_empty(&mut index.lists[at], slots);
    }
}

/// Empties the slot of a link, and takes the places of empty slots out of the lists of both ends.
fn vacate_slot(slots: &mut Vec<Option<Linked>>, index: &mut Places, slot: usize, link: Linked)
    requires table { IsLinkTable slots.old.items index.old.lists.entries }
    requires there { standing slots.old.items slot ≡ Some link }
    ensures slots { slots.new.items ≡ set slots.old.items slot None }
    ensures table { IsLinkTable slots.new.items index.new.lists.entries }
    ensures preserved { (n : ℕ) → has_list n index.new.lists.entries ≡ has_list n index.old.lists.entries }
{
    slots[slot] = None;
    compact_list(index, slots, link.incident);
    compact_list(index, slots, link.other);
}

/// A link after a merge.
fn moved(link: Linked, from: u64, to: u64) -> Linked
    ensures { result ≡ link_after_merge from to link }
{
    new_link(
        number_after_merge(from, to, link.incident),
        number_after_merge(from, to, link.other),
    )
}

/// The number that a link has beside those of two incidents, of which one is an end of it.
fn far_end(link: &Linked, one: u64, other: u64) -> u64
    ensures { result ≡ far_end one other link.now }
{
    if link.incident == one || link.incident == other {
        link.other
    } else {
        link.incident
    }
}

/// Notes a far end, for which there is room, and tells whether it is new.
fn note_end(ends: &mut IndexSet<u64>, end: u64) -> bool
    requires { 0 < spare ends.old }
    ensures new { result ≡ not (list_any (nat_eq end) ends.old.keys) }
    ensures ends { ends.new.keys
        ≡ (if list_any (nat_eq end) ends.old.keys then ends.old.keys else ends.old.keys ++ end ∷ []) }
    ensures room { spare ends.old ≤ spare ends.new + 1 }
{
    let put = ends.insert(end);
    put.unwrap()
}

/// Whether a far end was met before. One that was not is noted, for which there is room.
fn was_met(ends: &mut IndexSet<u64>, end: u64) -> bool
    requires { 0 < spare ends.old }
    ensures room { spare ends.old ≤ spare ends.new + 1 }
    ensures all { spare ends.old + length ends.old.keys ≤ spare ends.new + length ends.new.keys }
{
    if ends.contains(&end) {
        true
    } else {
        note_end(ends, end);
        false
    }
}

/// Counts one more up to a bound, where it tells so and begins again.
fn count_up(count: &mut usize, most: usize) -> bool {
    if *count < most {
        *count += 1;
        false
    } else {
        *count = 0;
        true
    }
}

/// Begins the count of a number, where it has none and there is memory for one.
fn begin_count(emptied: &mut IndexMap<u64, usize>, number: u64) {
    if emptied.get_index_of(&number).is_none() {
        let _begun = emptied.insert(number, 0);
    }
}

/// Counts one more slot of the list of a number, and tells whether half of its places may be of empty ones. A list that
/// has no count may be such a one.
fn is_half_empty(emptied: &mut IndexMap<u64, usize>, number: u64, places: usize) -> bool {
    match emptied.get_index_of(&number) {
        Some(at) => count_up(&mut emptied[at], places / 2),
        None => true,
    }
}

/// Takes the places of empty slots out of the list of a far end of which a merge empties a slot, where they may be half
/// of it. So each of them is paid once, and a list has as many links.
fn thin_list(
    slots: &[Option<Linked>],
    index: &mut Places,
    emptied: &mut IndexMap<u64, usize>,
    end: u64,
)
    requires { IsLinkTable slots.now index.old.lists.entries }
    ensures table { IsLinkTable slots.now index.new.lists.entries }
    ensures preserved { (n : ℕ) → has_list n index.new.lists.entries ≡ has_list n index.old.lists.entries }
{
    if is_half_empty(emptied, end, index.at(end).len()) {
        compact_list(index, slots, end);
    }
}

/// Thins the list of the far end of a link of one of two incidents, where a link of the other has it too.
fn thin_far_end(
    slots: &[Option<Linked>],
    index: &mut Places,
    emptied: &mut IndexMap<u64, usize>,
    ends: &mut IndexSet<u64>,
    end: u64,
)
    requires table { IsLinkTable slots.now index.old.lists.entries }
    requires room { 0 < spare ends.old }
    ensures table { IsLinkTable slots.now index.new.lists.entries }
    ensures preserved { (n : ℕ) → has_list n index.new.lists.entries ≡ has_list n index.old.lists.entries }
    ensures room { spare ends.old ≤ spare ends.new + 1 }
    ensures all { spare ends.old + length ends.old.keys ≤ spare ends.new + length ends.new.keys }
{
    if was_met(ends, end) {
        thin_list(slots, index, emptied, end);
    }
}

/// The far end of the link of a slot of one of two incidents, or the one where none stands there.
fn far_end_at(slots: &[Option<Linked>], slot: usize, one: u64, other: u64) -> u64 {
    match link_in(slots, slot) {
        Some(link) => far_end(&link, one, other),
        None => one,
    }
}

/// Thins the lists of the far ends that two incidents have in common, before a merge empties a slot of each.
fn thin_lists(
    slots: &[Option<Linked>],
    index: &mut Places,
    emptied: &mut IndexMap<u64, usize>,
    ends: &mut IndexSet<u64>,
    from: u64,
    to: u64,
    among: &[usize],
)
    requires table { IsLinkTable slots.now index.old.lists.entries }
    requires room { length among.now ≤ spare ends.old }
    ensures table { IsLinkTable slots.now index.new.lists.entries }
    ensures preserved { (n : ℕ) → has_list n index.new.lists.entries ≡ has_list n index.old.lists.entries }
    ensures all { spare ends.old + length ends.old.keys ≤ spare ends.new + length ends.new.keys }
{
    for place in among {
        thin_far_end(
            slots,
            index,
            emptied,
            ends,
            far_end_at(slots, *place, from, to),
        );
    }
}

/// Moves the link of a slot from one incident to another. Where a link with its far end stands earlier, its slot is
/// emptied, and stays in the list of the far end.
fn merge_slot(
    slots: &mut Vec<Option<Linked>>,
    ends: &mut IndexSet<u64>,
    from: u64,
    to: u64,
    slot: usize,
    link: Linked,
)
    requires there { standing slots.old.items slot ≡ Some link }
    requires room { 0 < spare ends.old }
    ensures slots { slots.new.items
        ≡ set slots.old.items slot (slot_after_merge from to ends.old.keys (standing slots.old.items slot)) }
    ensures ends { ends.new.keys ≡ ends_with from to ends.old.keys (standing slots.old.items slot) }
    ensures room { spare ends.old ≤ spare ends.new + 1 }
{
    if note_end(ends, far_end(&link, from, to)) {
        slots[slot] = Some(moved(link, from, to));
    } else {
        clear_slot(slots, slot);
    }
}

/// Takes a link out, where it is there.
fn remove_link(slots: &mut Vec<Option<Linked>>, index: &mut Places, link: Linked)
    requires { IsLinkTable slots.old.items index.old.lists.entries }
    ensures table { IsLinkTable slots.new.items index.new.lists.entries }
    ensures links { live slots.new.items ≡ without_link link (live slots.old.items) }
    ensures preserved { (n : ℕ) → has_list n index.new.lists.entries ≡ has_list n index.old.lists.entries }
{
    if let Some(slot) = slot_of(slots, index, link) {
        vacate_slot(slots, index, slot, link);
    }
}

/// Moves the link of a slot, where one stands there, as `merge_slot` does.
fn merge_place(
    slots: &mut Vec<Option<Linked>>,
    ends: &mut IndexSet<u64>,
    from: u64,
    to: u64,
    slot: usize,
)
    requires { 0 < spare ends.old }
    ensures slots { slots.new.items
        ≡ set slots.old.items slot (slot_after_merge from to ends.old.keys (standing slots.old.items slot)) }
    ensures ends { ends.new.keys ≡ ends_with from to ends.old.keys (standing slots.old.items slot) }
    ensures room { spare ends.old ≤ spare ends.new + 1 }
{
    if let Some(link) = link_in(slots, slot) {
        merge_slot(slots, ends, from, to, slot, link);
    }
}

/// Moves the links of the slots of two incidents from the one to the other. The lists stay as they are.
fn merge_slots(
    slots: &mut Vec<Option<Linked>>,
    ends: &mut IndexSet<u64>,
    from: u64,
    to: u64,
    among: &[usize],
)
    requires none { ends.old.keys ≡ [] }
    requires room { length among.now ≤ spare ends.old }
    ensures { slots.new.items ≡ slots_after_merge from to among.now [] slots.old.items }
{
    for place in among {
        merge_place(slots, ends, from, to, *place);
    }
}

/// The slots of the links of two incidents that are not linked in one list, in the room that was made for it. The lists
/// of both lose the places of empty slots. It takes no memory.
fn list_of_both(
    slots: &[Option<Linked>],
    index: &mut Places,
    from: u64,
    to: u64,
    room: Vec<usize>,
) -> Vec<usize>
    requires table { IsLinkTable slots.now index.old.lists.entries }
    requires apart { from ≢ to }
    requires unlinked { has_link (new_link from to) (live slots.now) ≡ false }
    requires room { count_by (touches to) (live slots.now) + count_by (touches from) (live slots.now)
        ≤ vec_capacity room }
    ensures list { result.items ≡ places (passes (touches_either to from)) 0 slots.now }
    ensures table { IsLinkTable slots.now index.new.lists.entries }
    ensures preserved { (n : ℕ) → has_list n index.new.lists.entries ≡ has_list n index.old.lists.entries }
{
    compact_list(index, slots, to);
    compact_list(index, slots, from);
    merged_list(room, index.at(to), index.at(from))
}

/// Moves all links of one incident to another, with which it is not linked, in the room that was prepared for them.
/// Of equal links the first stays. It takes no memory.
fn merge_lists(
    slots: &mut Vec<Option<Linked>>,
    index: &mut Places,
    emptied: &mut IndexMap<u64, usize>,
    from: u64,
    to: u64,
    room: ListRoom,
)
    requires table { IsLinkTable slots.old.items index.old.lists.entries }
    requires apart { from ≢ to }
    requires unlinked { has_link (new_link from to) (live slots.old.items) ≡ false }
    requires there { has_list to index.old.lists.entries ≡ true }
    requires room { count_by (touches to) (live slots.old.items) + count_by (touches from) (live slots.old.items)
        ≤ room }
    ensures table { IsLinkTable slots.new.items index.new.lists.entries }
    ensures compact { at_in to index.new.lists.entries ≡ places (passes (touches to)) 0 slots.new.items }
    ensures links { live slots.new.items ≡ links_after_merge from to (live slots.old.items) }
    ensures preserved { (n : ℕ) → has_list n index.new.lists.entries ≡ has_list n index.old.lists.entries }
{
    let ListRoom {
        slots: places,
        mut ends,
    } = room;
    ends.clear();
    let mut list = list_of_both(slots, index, from, to, places);
    thin_lists(slots, index, emptied, &mut ends, from, to, list.as_slice());
    ends.clear();
    merge_slots(slots, &mut ends, from, to, list.as_slice());
    drop_empty(&mut list, slots);
    index.put_list(to, list);
    index.empty_list(from);
}

/// Moves all links of one incident to another, in the room that was prepared for them. It takes no memory.
fn merge_links(
    slots: &mut Vec<Option<Linked>>,
    index: &mut Places,
    emptied: &mut IndexMap<u64, usize>,
    from: u64,
    to: u64,
    room: ListRoom,
)
    requires table { IsLinkTable slots.old.items index.old.lists.entries }
    requires apart { from ≢ to }
    requires there { has_list to index.old.lists.entries ≡ true }
    requires room { count_by (touches to) (live slots.old.items) + count_by (touches from) (live slots.old.items)
        ≤ room }
    ensures table { IsLinkTable slots.new.items index.new.lists.entries }
    ensures compact { at_in to index.new.lists.entries ≡ places (passes (touches to)) 0 slots.new.items }
    ensures links { live slots.new.items ≡ links_after_merge from to (live slots.old.items) }
    ensures preserved { (n : ℕ) → has_list n index.new.lists.entries ≡ has_list n index.old.lists.entries }
{
    remove_link(slots, index, new_link(from, to));
    merge_lists(slots, index, emptied, from, to, room);
}

/// Puts what a link has beside a number into a set, which has room for it.
fn note_far(ends: &mut IndexSet<u64>, link: Option<Linked>, number: u64)
    requires { 0 < spare ends.old }
    ensures ends { (m : ℕ) → list_any (nat_eq m) ends.new.keys
        ≡ (if passes (joins number m) link then true else list_any (nat_eq m) ends.old.keys) }
    ensures room { spare ends.old ≤ spare ends.new + 1 }
{
    if let Some(link) = link {
        if let Some(end) = other_end(&link, number) {
            put_end(ends, end);
        }
    }
}

/// Puts what the links of slots have beside a number into a set, which has room for them.
fn note_all(ends: &mut IndexSet<u64>, slots: &[Option<Linked>], among: &[usize], number: u64)
    requires { length among.now ≤ spare ends.old }
    ensures { (m : ℕ) → list_any (nat_eq m) ends.new.keys
        ≡ (if list_any (λ k. passes (joins number m) (standing slots.now k)) among.now then true
        else list_any (nat_eq m) ends.old.keys) }
{
    for place in among {
        note_far(ends, link_in(slots, *place), number);
    }
}

/// Takes a number out of the sets of both ends of a link.
fn forget_at(sets: &mut EndSets, link: Option<Linked>, number: u64)
    ensures ends { (n m : ℕ) → has_end n m sets.new.sets.entries
        ≡ (if (number == m) && passes (touches n) link then false else has_end n m sets.old.sets.entries) }
    ensures preserved { (n : ℕ) → has_list n sets.new.sets.entries ≡ has_list n sets.old.sets.entries }
{
    if let Some(link) = link {
        sets.forget(link.incident, number);
        sets.forget(link.other, number);
    }
}

/// Takes a number out of the sets of the ends of the links of slots.
fn forget_all(sets: &mut EndSets, slots: &[Option<Linked>], among: &[usize], number: u64)
    ensures ends { (n m : ℕ) → has_end n m sets.new.sets.entries
        ≡ (if (number == m) && list_any (λ k. passes (touches n) (standing slots.now k)) among.now then false
        else has_end n m sets.old.sets.entries) }
    ensures preserved { (n : ℕ) → has_list n sets.new.sets.entries ≡ has_list n sets.old.sets.entries }
{
    for place in among {
        forget_at(sets, link_in(slots, *place), number);
    }
}

/// Takes each end of a link out of the set of the other.
fn forget_link(sets: &mut EndSets, link: Linked)
    ensures ends { (n m : ℕ) → has_either n m sets.new.sets.entries
        ≡ (if joins n m link then false else has_either n m sets.old.sets.entries) }
    ensures preserved { (n : ℕ) → has_list n sets.new.sets.entries ≡ has_list n sets.old.sets.entries }
{
    sets.forget(link.incident, link.other);
    sets.forget(link.other, link.incident);
}

/// The incident that the link of a slot has beside a number.
fn beside(incidents: &Rows, link: Option<Linked>, number: u64) -> Option<&Incident>
    ensures { id_at (option_map (λ i. i.now) result) ≡ slot_id number incidents.now link }
{
    match link {
        None => None,
        Some(link) => match other_end(&link, number) {
            None => None,
            Some(other) => incidents.of_number(other),
        },
    }
}

/// The identifiers of the incidents that the links at places have beside a number.
fn ids_beside(
    alloc: Global,
    incidents: &Rows,
    slots: &[Option<Linked>],
    places: &[usize],
    number: u64,
) -> Result<Items<IncidentId>, WantOfMemory>
    ensures { IfOk result (λ ids. ids ≡ ids_at number incidents.now slots.now places.now) }
{
    let mut ids = Items::new(alloc);
    for place in places {
        if let Some(incident) = beside(incidents, link_in(slots, *place), number) {
            ids.push(incident.id.copy()?)?;
        }
    }
    Ok(ids)
}

impl Links {
    /// No links. It takes no memory.
    pub(crate) fn new(alloc: Global) -> Links
        ensures { result.pairs ≡ [] }
    {
        Links {
            slots: Vec::new(alloc),
            index: Places::new(alloc),
            emptied: IndexMap::new(alloc),
            ends: EndSets::new(alloc),
        }
    }

    /// Whether a link is there. It takes constant time, whatever numbers of links its ends have.
    pub(crate) fn has(&self, link: Linked) -> bool
        ensures { result ≡ has_link link self.now.pairs }
    {
        if link.incident < link.other {
            self.ends.has_either(link.incident, link.other)
        } else {
            false
        }
    }

    /// The identifiers of the incidents that the incident of a number is linked with, in the order of the links.
    pub(crate) fn of(
        &self,
        alloc: Global,
        incidents: &Rows,
        number: u64,
    ) -> Result<Items<IncidentId>, WantOfMemory>
        ensures { IfOk result (λ ids. ids ≡ links_of number incidents.now self.now.pairs) }
    {
        ids_beside(alloc, incidents, &self.slots, self.index.at(number), number)
    }

    /// Takes the memory for one more link of a number, which has a list then. The links stay as they are.
    pub(crate) fn reserve(&mut self, number: u64) -> Result<(), AllocError>
        ensures pairs { self.new.pairs ≡ self.old.pairs }
        ensures listed { OnOk result (is_listed number self.new.listed ≡ true) }
        ensures preserved { (n : ℕ) → is_listed n self.old.listed ≡ true → is_listed n self.new.listed ≡ true }
    {
        self.ends.open(number)?;
        self.index.reserve(number)
    }

    /// Room for the links of two incidents in one list.
    pub(crate) fn room_for(&self, one: u64, other: u64) -> Result<LinksRoom, AllocError>
        ensures { IfOk result (λ room. count_by (touches one) self.now.pairs + count_by (touches other) self.now.pairs
            ≤ room) }
    {
        let count = live_count(&self.slots, self.index.at(one))
            + live_count(&self.slots, self.index.at(other));
        let list = ListRoom {
            slots: with_room(self.index.alloc, count)?,
            ends: IndexSet::with_capacity(self.index.alloc, count)?,
        };
        Ok(LinksRoom {
            list,
            ends: IndexSet::with_capacity(self.ends.alloc, count)?,
        })
    }

    /// Puts a link that is not there last, or changes nothing.
    pub(crate) fn push(&mut self, link: Linked) -> Result<(), WantOfMemory>
        requires new { has_link link self.old.pairs ≡ false }
        requires ordered { link.incident < link.other }
        ensures ok { OnOk result (self.new.pairs ≡ self.old.pairs ++ link ∷ []) }
        ensures err { OnErr result (self.new.pairs ≡ self.old.pairs) }
        ensures preserved { (n : ℕ) → is_listed n self.old.listed ≡ true → is_listed n self.new.listed ≡ true }
    {
        self.ends.open(link.incident)?;
        self.ends.grow(link.incident)?;
        self.slots.reserve(1)?;
        self.index.reserve(link.incident)?;
        self.index.reserve(link.other)?;
        begin_count(&mut self.emptied, link.incident);
        begin_count(&mut self.emptied, link.other);
        let slot = slot_count(&self.slots);
        push_within(&mut self.slots, Some(link));
        self.index.push(link.incident, slot);
        self.index.push(link.other, slot);
        self.ends.note(link.incident, link.other);
        Ok(())
    }

    /// Takes a link out, where it is there. It takes no memory.
    pub(crate) fn remove(&mut self, link: Linked)
        ensures pairs { self.new.pairs ≡ without_link link self.old.pairs }
        ensures preserved { (n : ℕ) → is_listed n self.new.listed ≡ is_listed n self.old.listed }
    {
        if self.has(link) {
            forget_link(&mut self.ends, link);
            remove_link(&mut self.slots, &mut self.index, link);
        }
    }

    /// Moves all links of one incident to another, whose list takes the room that was made for it. It takes memory for
    /// a count alone, and does without where that is refused.
    pub(crate) fn merge(&mut self, from: u64, to: u64, room: LinksRoom)
        requires apart { from ≢ to }
        requires listed { is_listed to self.old.listed ≡ true }
        requires room { count_by (touches to) self.old.pairs + count_by (touches from) self.old.pairs
            ≤ room }
        ensures pairs { self.new.pairs ≡ links_after_merge from to self.old.pairs }
        ensures preserved { (n : ℕ) → is_listed n self.new.listed ≡ is_listed n self.old.listed }
    {
        let LinksRoom { list, mut ends } = room;
        ends.clear();
        begin_count(&mut self.emptied, to);
        forget_all(&mut self.ends, &self.slots, self.index.at(from), from);
        merge_links(
            &mut self.slots,
            &mut self.index,
            &mut self.emptied,
            from,
            to,
            list,
        );
        note_all(&mut ends, &self.slots, self.index.at(to), to);
        self.ends.put(to, ends);
        self.ends.empty(from);
    }
}
