//! The copy of a value into an arena.

ghost use Rattle.std.specs.Prelude.{◌≡◌, ◌+◌, ◌<◌, ◌↔◌, length, IfOk, OnOk, OnErr, IsErr};
ghost use Rattle.serde_json.specs.View.{view, items_view, members_view, number_view};
ghost use Rattle.desk_arena.specs.declared.node.TheConstants.{NODE_BYTES};
ghost use Rattle.desk_arena.specs.Contents.{room, with_node, with_text, IsWithinCapacity};
ghost use Rattle.desk_eido.specs.Room.{room_of, items_room, members_room};
ghost use Rattle.desk_eido.specs.Copied.{copied_node, number_node, next_text, IsPartOf, with_copy, with_items};
ghost use Rattle.desk_eido.specs.Copied.{with_members};
ghost use Rattle.desk_eido.specs.Names.{HasDistinctNames, HaveDistinctNames};
ghost use Rattle.desk_eido.specs.Utf8.{HasUtf8Texts, ItemsHaveUtf8Texts, MembersHaveUtf8Texts};

use crate::kind;
use desk_arena::{DocArena, Full, Node, NodeId, Text};
use serde_json::{Map, Number, Value};

/// How many values a word of a node has. A whole number takes two words.
pub(crate) const WORD_VALUES: u64 = 4_294_967_296;
/// The name of a value that is no member.
pub(crate) const NO_NAME: Text = Text {
    len: 0,
    from_end: 0,
};

/// A node of a kind. Its words are the kind, two words that tell the value, the name's length and its distance from
/// the end of the texts, the count of nodes before what is inside the value, and two that are 0.
#[tactic(auto, unfolding(crate::specs::Copied::copied_node))]
fn node(kind: u32, first: u32, second: u32, name: Text, start: u32) -> Node
    ensures { result ≡ copied_node kind first second name start }
{
    Node {
        words: [kind, first, second, name.len, name.from_end, start, 0, 0],
    }
}

fn number_node(number: Number, name: Text, start: u32) -> Node
    ensures { result ≡ number_node (number_view number) name start }
{
    match number.as_u64() {
        Some(whole) => node(
            kind::NATURAL,
            (whole % WORD_VALUES) as u32,
            (whole / WORD_VALUES) as u32,
            name,
            start,
        ),
        None if number.is_i64() => node(kind::NEGATIVE, 0, 0, name, start),
        None => node(kind::OTHER_NUMBER, 0, 0, name, start),
    }
}

fn push(arena: &mut DocArena, node: Node) -> Result<NodeId, Full>
    ensures last { IfOk result (λ id. id.index + 1 ≡ length arena.new.nodes) }
    ensures pushed { OnOk result (arena.new ≡ with_node arena.old node) }
    ensures taken { OnOk result (room arena.new + NODE_BYTES ≡ room arena.old) }
    ensures full { IsErr result ↔ (room arena.old < NODE_BYTES) }
    ensures err { OnErr result (arena.new ≡ arena.old) }
    ensures capacity { arena.new.capacity ≡ arena.old.capacity }
    ensures within { IsWithinCapacity arena.new }
{
    arena.push_node(node)
}

fn push_text(arena: &mut DocArena, bytes: &[u8]) -> Result<Text, Full>
    ensures text { IfOk result (λ text. text ≡ next_text arena.old bytes.now) }
    ensures pushed { OnOk result (arena.new ≡ with_text arena.old bytes.now) }
    ensures taken { OnOk result (room arena.new + length bytes.now ≡ room arena.old) }
    ensures full { IsErr result ↔ (room arena.old < length bytes.now) }
    ensures err { OnErr result (arena.new ≡ arena.old) }
    ensures capacity { arena.new.capacity ≡ arena.old.capacity }
    ensures within { IsWithinCapacity arena.new }
{
    arena.push_text(bytes)
}

/// Copies the value, under this name, after what the arena holds. Where it does not fit, the arena holds
/// some of its nodes and texts, the first of them.
#[cycle(copy)]
pub(crate) fn copy(value: &Value, name: Text, arena: &mut DocArena) -> Result<NodeId, Full>
    ensures last { IfOk result (λ id. id.index + 1 ≡ length arena.new.nodes) }
    ensures copied { OnOk result (arena.new ≡ with_copy (view value.now) name arena.old) }
    ensures taken { OnOk result (room arena.new + room_of (view value.now) ≡ room arena.old) }
    ensures utf8 { OnOk result (HasUtf8Texts (view value.now)) }
    ensures names { OnOk result (HasDistinctNames (view value.now)) }
    ensures full { IsErr result ↔ (room arena.old < room_of (view value.now)) }
    ensures begun { OnErr result (IsPartOf arena.old arena.new
        × IsPartOf arena.new (with_copy (view value.now) name arena.old)) }
    ensures capacity { arena.new.capacity ≡ arena.old.capacity }
    ensures within { IsWithinCapacity arena.new }
{
    let start = arena.mark().nodes;
    match value {
        Value::Null => push(arena, node(kind::NULL, 0, 0, name, start)),
        Value::Bool(is_true) => push(
            arena,
            node(kind::TRUTH_VALUE, u32::from(*is_true), 0, name, start),
        ),
        Value::Number(number) => push(arena, number_node(*number, name, start)),
        Value::String(text) => {
            let text = push_text(arena, text.as_str().as_bytes())?;
            push(
                arena,
                node(kind::TEXT, text.len, text.from_end, name, start),
            )
        }
        Value::Array(items) => {
            copy_items(items, arena)?;
            push(arena, node(kind::LIST, 0, 0, name, start))
        }
        Value::Object(members) => {
            copy_members(members, arena)?;
            push(arena, node(kind::OBJECT, 0, 0, name, start))
        }
    }
}

#[cycle(copy)]
fn copy_items(items: &Vec<Value>, arena: &mut DocArena) -> Result<(), Full>
    ensures copied { OnOk result (arena.new ≡ with_items (items_view items.now.items) arena.old) }
    ensures taken { OnOk result (room arena.new + items_room (items_view items.now.items) ≡ room arena.old) }
    ensures utf8 { OnOk result (ItemsHaveUtf8Texts (items_view items.now.items)) }
    ensures full { IsErr result ↔ (room arena.old < items_room (items_view items.now.items)) }
    ensures begun { OnErr result (IsPartOf arena.old arena.new
        × IsPartOf arena.new (with_items (items_view items.now.items) arena.old)) }
    ensures capacity { arena.new.capacity ≡ arena.old.capacity }
    ensures within { OnErr result (IsWithinCapacity arena.new) }
{
    for item in items {
        copy(item, NO_NAME, arena)?;
    }
    Ok(())
}

/// Copies the members, the text of each name before its value.
#[cycle(copy)]
fn copy_members(members: &Map<String, Value>, arena: &mut DocArena) -> Result<(), Full>
    ensures copied { OnOk result (arena.new ≡ with_members (members_view members.now.entries) arena.old) }
    ensures taken { OnOk result (room arena.new + members_room (members_view members.now.entries) ≡ room arena.old) }
    ensures utf8 { OnOk result (MembersHaveUtf8Texts (members_view members.now.entries)) }
    ensures names { OnOk result (HaveDistinctNames (members_view members.now.entries)) }
    ensures full { IsErr result ↔ (room arena.old < members_room (members_view members.now.entries)) }
    ensures begun { OnErr result (IsPartOf arena.old arena.new
        × IsPartOf arena.new (with_members (members_view members.now.entries) arena.old)) }
    ensures capacity { arena.new.capacity ≡ arena.old.capacity }
    ensures within { OnErr result (IsWithinCapacity arena.new) }
{
    for (name, member) in members.iter() {
        let name = push_text(arena, name.as_bytes())?;
        copy(member, name, arena)?;
    }
    Ok(())
}
