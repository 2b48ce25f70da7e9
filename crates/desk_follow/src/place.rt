//! The place that a reply tells.

ghost use Rattle.std.specs.Prelude.{◌≡◌};
ghost use Rattle.desk_follow.specs.Places.{number_of_digits, number_before, place_by_members, shown_place};
ghost use Rattle.desk_types.specs.Lists.{split_at};

use crate::course::after_prefix;
use desk_lines::split_at_first;

/// The number that decimal digits write, where it is below 2^64. `None` also where there is no digit, or another byte.
pub fn number_of_digits(digits: &[u8]) -> Option<u64>
    ensures { result ≡ number_of_digits digits.now }
{
    if digits.is_empty() {
        return None;
    }
    let mut number: u64 = 0;
    for digit in digits {
        if !digit.is_ascii_digit() {
            return None;
        }
        number = number
            .checked_mul(10)?
            .checked_add(u64::from(*digit - b'0'))?;
    }
    Some(number)
}

/// The number before the first comma of a text.
pub fn number_before(text: &[u8]) -> Option<u64>
    ensures { result ≡ number_before (split_at 44 text.now) }
{
    match split_at_first(text, b',') {
        Some((digits, _rest)) => number_of_digits(digits),
        None => None,
    }
}

/// The place by the members after the first comma of a text.
fn place_by_members(text: &[u8]) -> Option<u64>
    ensures { result ≡ place_by_members (split_at 44 text.now) }
{
    let Some((_incidents, members)) = split_at_first(text, b',') else {
        return None;
    };
    match after_prefix(members, b"\"ok\":\"board\",\"place\":") {
        Some(value) => number_before(value),
        None => None,
    }
}

/// The place of the board that a reply tells. None where it is not the reply to a `show` of the board.
#[tactic(auto, unfolding(crate::specs::Places::shown_place))]
pub fn shown_place(reply: &[u8]) -> Option<u64>
    ensures { result ≡ shown_place reply.now }
{
    match after_prefix(reply, b"{\"incidents\":") {
        Some(members) => place_by_members(members),
        None => None,
    }
}
