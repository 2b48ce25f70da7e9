//! The files of a node over epochs, one for each epoch. Each but the first has a table `epoch` that marks it as that
//! epoch's. They are opened one after the other, and the file of an epoch is made when the one before is opened. It
//! gets its mark last, and no epoch but the first begins in a file without one. So a making that failed may leave a
//! file that is empty or has no mark, and the next call finishes it. The first has a table `member` where its node has
//! a token, or epochs of fewer places than a full log has: so a later start has the same.
#![tactic(auto)]

mod cause;
mod ended_files;
mod epoch_files;
mod epoch_table;
mod host_databases;
mod member_row;
mod member_table;
mod named_databases;
mod new_table;
mod next_file;
mod open_error;
mod past_files;

pub use ended_files::EndedFiles;
pub use epoch_files::EpochFiles;
pub use host_databases::HostDatabases;
pub use named_databases::NamedDatabases;
pub use past_files::PastFiles;
