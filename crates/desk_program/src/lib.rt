//! The program of a dispatch desk, over any standard input, output and error, and over those of its host. Of what needs
//! files or sockets it reads the words alone.
#![tactic(auto)]

mod ending;
mod faults;
mod host;
mod run;
mod seed;
mod version_line;

pub use ending::RunEnd;
pub use host::run_given;
pub use run::run_words;
