//! What a reply line tells of its place.

ghost use Rattle.std.specs.Prelude.{◌≡◌, option_map};
ghost use Rattle.desk_page.specs.Reported.{after_mark, place_in_reply};

use desk_follow::number_before;

/// What stands after the first place at which a mark stands, if it stands in the text.
pub(crate) fn after_mark<'a>(text: &'a [u8], mark: &[u8]) -> Option<&'a [u8]>
    ensures { option_map (λ rest. rest.now) result ≡ after_mark mark.now text.now }
{
    for i in 0..text.len() {
        if let Some(rest) = text[i..].strip_prefix(mark) {
            return Some(rest);
        }
    }
    None
}

/// The place that a reply line tells after a mark.
#[tactic(auto, unfolding(crate::specs::Reported::place_in_reply))]
pub(crate) fn place_in_reply(reply: &[u8], mark: &[u8]) -> Option<u64>
    ensures { result ≡ place_in_reply mark.now reply.now }
{
    match after_mark(reply, mark) {
        Some(text) => number_before(text),
        None => None,
    }
}
