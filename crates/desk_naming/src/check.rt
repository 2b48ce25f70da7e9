//! The CHECK of the table of the node.

ghost use Rattle.std.specs.Prelude.{◌≡◌, ◌↔◌, IsTrue, Some, pos, slice_get, [], ◌∷◌};
ghost use Rattle.sqlite_value.specs.declared.value.Value.TheVariants as cells;
ghost use Rattle.sqlite_schema.specs.declared.code.Op.TheVariants as ops;
ghost use Rattle.desk_naming.specs.Tables.{slot_is_one};
ghost use Rattle.desk_naming.specs.Rules.{ComparesSlot};

use sqlite_schema::code::{Op, Terms};
use sqlite_sql::ops::{BinaryOp, CompareOp};
use sqlite_value::keys::Collation;
use sqlite_value::value::Value;

/// Whether a node is the column `slot`, the first of a row.
fn is_slot(nodes: &[Op], at: usize) -> bool
    ensures { IsTrue result ↔ (slice_get nodes.now at ≡ Some (ops.Column 1 0)) }
{
    match nodes.get(at) {
        Some(Op::Column(slot, place)) => *slot == 1 && *place == 0,
        _ => false,
    }
}

/// Whether a node is the number 1.
fn is_one(nodes: &[Op], at: usize) -> bool
    ensures { IsTrue result ↔ (slice_get nodes.now at ≡ Some (ops.Literal (cells.Int (pos 1)))) }
{
    match nodes.get(at) {
        Some(Op::Literal(Value::Int(number))) => *number == 1,
        _ => false,
    }
}

/// Whether a node compares the column `slot` with 1.
fn compares_slot(nodes: &[Op], at: usize) -> bool
    ensures { IsTrue result ↔ ComparesSlot nodes.now at }
{
    match nodes.get(at) {
        Some(Op::Binary(BinaryOp::Compare(CompareOp::Eq, Collation::Binary), a, b)) => {
            is_slot(nodes, *a) && is_one(nodes, *b)
        }
        _ => false,
    }
}

/// Whether `slot = 1` is the only one of the terms.
pub(crate) fn is_slot_check(terms: &Terms) -> bool
    ensures { IsTrue result ↔ (terms.now ≡ slot_is_one ∷ []) }
{
    match terms.roots.as_slice() {
        [root] => compares_slot(terms.nodes.as_slice(), *root),
        _ => false,
    }
}
