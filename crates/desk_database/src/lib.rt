//! The opening of the database in a node's file. A new file gets pages of 1,024 bytes, and a file that holds a database
//! goes on with the pages that it has. A copy of a file is opened in memory, and the file is only read.
#![tactic(auto)]

mod copied;
mod errors;
mod host;
mod making;
mod opening;

pub use copied::open_copy;
pub use host::open_database;
pub use making::NEW_PAGE_BYTES;
pub use opening::open_files;
