//! A node's file: the state of the node is opened in its database; the answers of one node go over it; it is closed
//! once the work over it has ended, and what ended it, or why it was not opened, is printed to standard error. What a
//! node's files have committed is printed as document lines.
#![tactic(auto)]

mod answering;
mod archiving;
mod ended;
mod epoch_end;
mod epoch_table;
mod faults;
mod keys;
mod names;
mod opening;

pub use answering::answer_file;
pub use archiving::log_file;
pub use ended::{ClosedFile, EndedFile, close_file};
pub use epoch_table::{is_of_epoch, marked_epoch};
pub use faults::{FileEnd, NodeFile, closed_status, unopened_status};
pub use keys::{read_given_key, read_key};
pub use names::name_in_epoch;
pub use opening::open_node;
