//! A document that was copied into an arena.

ghost use Rattle.std.specs.Prelude.{◌≡◌, option_map};
ghost use Rattle.desk_eido.specs.Copied.{IsCopied};
ghost use Rattle.desk_eido.specs.Document.{HoldsItsText, node_name, content_start, text_of, seen_node, seen_under};
ghost use Rattle.desk_eido.specs.Document.{placed_members};
ghost use Rattle.desk_eido.specs.SeenViews.{seen_view};

use crate::copy::WORD_VALUES;
use crate::kind;
use crate::seen::Seen;
use desk_arena::{DocArena, NodeId, Text};
use desk_types::Member;
use std::marker::Model;

/// A copied object in its arena.
#[derive(Drop)]
pub(crate) struct Document<'a> {
    arena: &'a DocArena,
    object: NodeId,
}

impl<'a> Model for Document<'a> {
    ghost use Rattle.desk_eido.specs.Document.{Placed, IsHeldDocument, HasDistinctMembers};

    ghost Value = { Placed };

    ghost view = { λ d. record { contents = d.arena.now; index = d.object.index } };

    ghost invariant = { λ d. IsHeldDocument d.arena.now d.object.index
        × HasDistinctMembers (record { contents = d.arena.now; index = d.object.index }) };
}

// The functions over a node take its words, since of an array in a struct the length is not known.

/// The name of the member that a node is.
fn node_name(words: &[u32; 8]) -> Text
    ensures { result ≡ node_name (record { words = words.now }) }
{
    Text {
        len: words[3],
        from_end: words[4],
    }
}

/// The text that a node is.
fn text_of(words: &[u32; 8]) -> Text
    ensures { result ≡ text_of (record { words = words.now }) }
{
    Text {
        len: words[1],
        from_end: words[2],
    }
}

/// How many nodes lie before what is inside a node's value.
fn content_start(words: &[u32; 8]) -> u32
    ensures { result ≡ content_start (record { words = words.now }) }
{
    words[5]
}

/// What is seen of the value that a node is.
#[tactic(auto, unfolding(crate::specs::Document::seen_node))]
fn seen_of<'a>(words: &[u32; 8], arena: &'a DocArena) -> Option<Seen<'a>>
    requires { HoldsItsText arena.now (record { words = words.now }) }
    ensures { option_map seen_view result ≡ seen_node arena.now (record { words = words.now }) }
{
    match words[0] {
        kind::NULL => None,
        kind::NATURAL => Some(Seen::Natural(
            u64::from(words[1]) + WORD_VALUES * u64::from(words[2]),
        )),
        kind::NEGATIVE => Some(Seen::Negative),
        kind::TEXT => {
            let text = arena.text(text_of(words));
            Some(Seen::Text(unsafe { str::from_utf8_unchecked(text) }))
        }
        _ => Some(Seen::Other),
    }
}

impl<'a> Document<'a> {
    /// The document whose copy the node is.
    pub(crate) fn new(arena: &'a DocArena, object: NodeId) -> Document<'a>
        requires { IsCopied object arena.now }
        ensures { result ≡ record { contents = arena.now; index = object.index } }
    {
        Document { arena, object }
    }

    /// What is seen under a name. No two members have one name, so the look ends where the name is met.
    #[tactic(auto, unfolding(crate::specs::Document::seen_under))]
    fn under(&self, name: &[u8]) -> Option<Seen<'a>>
        ensures { option_map seen_view result ≡ seen_under self.now name.now }
    {
        let start = content_start(&self.arena.node(self.object).words);
        let mut end = self.object.index;
        while start < end {
            let node = self.arena.node(NodeId { index: end - 1 });
            if name == self.arena.text(node_name(&node.words)) {
                return seen_of(&node.words, self.arena);
            }
            end = content_start(&node.words);
        }
        None
    }

    /// What is seen of a member, if it is there. One that is null counts as absent.
    pub(crate) fn member(&self, member: Member) -> Option<Seen<'a>>
        ensures { option_map seen_view result ≡ placed_members self.now member }
    {
        self.under(member.name().as_bytes())
    }
}
