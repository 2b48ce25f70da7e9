//! The commands of the desk that need neither files nor sockets: `desk replay` and `desk world`, as `desk` runs them.
//! Until all of the desk is built, `./desk` runs this program for them, since it stands on fewer crates.
#![tactic(auto)]

use desk_options::unserved_status;
use desk_program::run_given;
use std::process::ExitCode;

fn main(rt: HostRuntime) -> ExitCode {
    let status = match run_given(&rt) {
        Ok(status) => status,
        Err(_) => unserved_status(&mut rt.stderr(), "replay and world"),
    };
    ExitCode::from(status)
}
