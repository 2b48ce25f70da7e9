//! What the words after the program's name ask for, as `clap` reads them, and what is printed where that is nothing.
#![tactic(auto)]

mod command_line;
mod faults;
mod given;
mod host;
mod hosts;
mod version;

pub use command_line::{
    AnswerOptions, ClusterOptions, FollowOptions, LEAST_PORT, LogOptions, MOST_GROUP_PORT,
    MOST_PORT, MOST_SESSION_PORT, Options, OptionsFault, PageOptions, ReplayOptions, SendOptions,
    ServeOptions, StatusOptions, WorldOptions, options,
};
pub use faults::{fault_status, unserved_status};
pub use given::{given_options, given_words};
pub use host::HostRun;
pub use hosts::check_hosts_of;
pub use version::VERSION;
