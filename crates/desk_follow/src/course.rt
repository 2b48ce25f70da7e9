//! What is done about a line after a node's reply.

ghost use Rattle.std.specs.Prelude.{◌≡◌, ℕ, codes, option_map};
ghost use Rattle.desk_types.specs.Lists.{split_at};
ghost use Rattle.desk_follow.specs.Readings.{after_prefix, key_of, past_member, past_value, is_later, course_by_number};
ghost use Rattle.desk_follow.specs.Readings.{course_at, course_by_parts, course_of};
ghost use Rattle.desk_follow.specs.Tries.{IsWithin};

use desk_lines::split_at_first;

/// What is done about a line after a node's reply.
#[derive(Clone, Copy, Debug, PartialEq, Eq)]
pub enum Course {
    /// The reply is the line's own. No retry changes it.
    Final,
    /// The line is for the primary, which is this node of the group.
    At(u8),
    /// The line is to be asked again after a pause.
    Later,
}

/// What stands after a prefix, where the text begins with it.
pub(crate) fn after_prefix<'a>(text: &'a [u8], prefix: &[u8]) -> Option<&'a [u8]>
    ensures { option_map (λ rest. rest.now) result ≡ after_prefix prefix.now text.now }
{
    text.strip_prefix(prefix)
}

/// What stands after the member with this key, if the text begins with it. Its value is a number.
fn past_member<'a>(text: &'a [u8], key: &[u8]) -> &'a [u8]
    ensures { result.now ≡ past_value text.now (after_prefix key.now text.now) }
{
    let Some(value) = after_prefix(text, key) else {
        return text;
    };
    match split_at_first(value, b',') {
        Some((_digits, rest)) => rest,
        None => text,
    }
}

/// Whether the text begins with the number of a refusal after which a line is asked again: it waits (`Waiting`), the
/// node has stopped (`NodeStopped`), or memory was refused (`WantOfMemory`).
fn is_later(text: &[u8]) -> bool
    ensures { result ≡ is_later text.now }
{
    after_prefix(text, b"32").is_some()
        || after_prefix(text, b"34").is_some()
        || after_prefix(text, b"40").is_some()
}

/// What is done by the members of a reply that tells no primary.
fn course_by_refusal(members: &[u8]) -> Course
    ensures reported { result ≡ course_by_number (after_prefix (key_of (codes "refusal"))
        (past_member (codes "place") (past_member (codes "number") members.now))) }
    ensures within { (count : ℕ) → IsWithin count result }
{
    let rest = past_member(past_member(members, b"\"number\":"), b"\"place\":");
    match after_prefix(rest, b"\"refusal\":") {
        Some(number) if is_later(number) => Course::Later,
        _ => Course::Final,
    }
}

/// What is done where these digits tell the primary of a group of so many nodes.
fn course_at(digits: &[u8], count: u8) -> Course
    ensures reported { result ≡ course_at count digits.now }
    ensures within { IsWithin count result }
{
    match digits {
        [digit] if *digit >= b'0' && *digit - b'0' < count => Course::At(*digit - b'0'),
        _ => Course::Later,
    }
}

/// What is done where the number of the primary stands first in a text.
fn course_by_primary(text: &[u8], count: u8) -> Course
    ensures reported { result ≡ course_by_parts count (split_at 44 text.now) }
    ensures within { IsWithin count result }
{
    match split_at_first(text, b',') {
        Some((digits, _rest)) => course_at(digits, count),
        None => Course::Later,
    }
}

/// What is done about a line after this reply, in a group of so many nodes.
#[tactic(auto, unfolding(crate::specs::Readings::course_of))]
pub fn course_of(reply: &[u8], count: u8) -> Course
    ensures reported { result ≡ course_of count reply.now }
    ensures within { IsWithin count result }
{
    let Some(members) = after_prefix(reply, b"{") else {
        return Course::Final;
    };
    match after_prefix(members, b"\"node\":") {
        Some(primary) => course_by_primary(primary, count),
        None => course_by_refusal(members),
    }
}
