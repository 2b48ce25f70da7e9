//! Which node's file a database is, as the row of the node says it: the table of the node, and what is read of it.
#![tactic(auto)]

mod check;
mod columns;
mod limits;
mod named;
mod rows;
mod rules;
mod table;

pub use columns::is_column;
pub use limits::TREES;
pub use named::{NamedOwner, named_owner};
pub use rows::{node_rows, read};
pub use rules::has_key_alone;
pub use table::{find_table, has_own_tree, is_node};
