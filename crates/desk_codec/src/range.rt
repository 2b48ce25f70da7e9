//! The numbers that stand before a packet's entries, by its kind.

ghost use Rattle.std.specs.Prelude.{◌≡◌, ◌||◌};
ghost use Rattle.desk_codec.specs.Starts.{has_first_number, has_second_number, has_entry_count, lone_entries};
ghost use Rattle.desk_codec.specs.Starts.{is_first_number, is_entry_count, tells_new_place};

use crate::kind::{DO_VIEW_CHANGE, NEW_STATE, PREPARE, START_VIEW, START_VIEW_CHANGE};
use crate::start::{PacketHead, PacketStart};
use crate::version::{is_any_new, is_new_place, is_one_new, is_place_in};
use desk_types::limits::LOG_ENTRIES;

pub(crate) fn has_first_number(kind: u8) -> bool
    ensures { result ≡ has_first_number kind }
{
    kind != START_VIEW_CHANGE
}

pub(crate) fn has_second_number(kind: u8) -> bool
    ensures { result ≡ has_second_number kind }
{
    kind == PREPARE || kind == DO_VIEW_CHANGE || kind == NEW_STATE
}

pub(crate) fn has_entry_count(kind: u8) -> bool
    ensures { result ≡ has_entry_count kind }
{
    kind == DO_VIEW_CHANGE || kind == START_VIEW || kind == NEW_STATE
}

/// How many entries a packet of this kind has where it has no log.
pub(crate) fn lone_entries(kind: u8) -> u32
    ensures { result ≡ lone_entries kind }
{
    if kind == PREPARE { 1 } else { 0 }
}

/// Whether the number after the view is within its range.
#[tactic(auto, unfolding(crate::specs::Starts::is_first_number))]
pub(crate) fn is_first_number(head: PacketHead, number: u64) -> bool
    ensures { result ≡ is_first_number head number }
{
    match head.kind {
        PREPARE => 1 <= number && is_place_in(head.version, number),
        DO_VIEW_CHANGE => number < head.view,
        _ => is_place_in(head.version, number),
    }
}

/// Whether the count of a log is within its range, and the numbers before it are within the ranges that it decides.
#[tactic(auto, unfolding(crate::specs::Starts::is_entry_count))]
pub(crate) fn is_entry_count(head: PacketHead, first: u64, second: u64, count: u32) -> bool
    ensures { result ≡ is_entry_count head first second count }
{
    let count = count as u64;
    match head.kind {
        DO_VIEW_CHANGE => second <= count && is_place_in(head.version, count),
        START_VIEW => first <= count && is_place_in(head.version, count),
        _ => {
            first <= LOG_ENTRIES
                && is_place_in(head.version, first + count)
                && second <= first + count
        }
    }
}

/// Whether the fields of a packet tell a place that is past the logs of version 1.
#[tactic(auto, unfolding(crate::specs::Starts::tells_new_place))]
pub(crate) fn needs_two_at(start: PacketStart) -> bool
    ensures { result ≡ tells_new_place start }
{
    let count = start.count as u64;
    match start.head.kind {
        PREPARE => is_one_new(start.first, start.second),
        START_VIEW_CHANGE => false,
        DO_VIEW_CHANGE => is_one_new(start.second, count),
        START_VIEW => is_one_new(start.first, count),
        NEW_STATE => is_any_new(start.first, start.second, count),
        _ => is_new_place(start.first),
    }
}
