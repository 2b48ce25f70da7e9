//! Two lists of rising places made one.

ghost use Rattle.std.specs.Prelude.{◌≡◌, ◌≤◌, ◌+◌, None, [], ◌∷◌, length, vec_capacity, IfSome};
ghost use Rattle.desk_index.specs.MergedList.{merged};

use crate::places::push_place;

/// The lesser of the first places of two lists, and what is left of each.
fn least_of<'a>(one: &'a [usize], other: &'a [usize]) -> Option<(usize, &'a [usize], &'a [usize])>
    ensures least { IfSome result (λ r. merged one.now other.now ≡ r.0 ∷ merged r.1.now r.2.now) }
    ensures fewer { IfSome result (λ r. length r.1.now + length r.2.now + 1 ≡ length one.now + length other.now) }
    ensures none { result ≡ None → length one.now + length other.now ≡ 0 }
{
    match (one.split_first(), other.split_first()) {
        (None, None) => None,
        (Some((place, rest)), None) => Some((*place, rest, other)),
        (None, Some((place, rest))) => Some((*place, one, rest)),
        (Some((place, rest)), Some((next, left))) => {
            if *place < *next {
                Some((*place, rest, other))
            } else {
                Some((*next, one, left))
            }
        }
    }
}

/// Takes all places out, and leaves the room.
fn emptied(room: Vec<usize>) -> Vec<usize>
    ensures items { result.items ≡ [] }
    ensures room { vec_capacity room ≤ vec_capacity result }
{
    let mut list = room;
    list.clear();
    list
}

/// The places of two rising lists in one, in the room that was made for them. It takes no memory.
pub fn merged_list(room: Vec<usize>, one: &[usize], other: &[usize]) -> Vec<usize>
    requires { length one.now + length other.now ≤ vec_capacity room }
    ensures { result.items ≡ merged one.now other.now }
{
    let count = one.len() + other.len();
    let mut list = emptied(room);
    let mut rest = one;
    let mut left = other;
    for _done in 0..count {
        if let Some((place, of_one, of_other)) = least_of(rest, left) {
            push_place(&mut list, place);
            rest = of_one;
            left = of_other;
        }
    }
    list
}
