//! How the nodes of a group are.

ghost use Rattle.std.specs.Prelude.{◌≡◌, ◌≤◌, List, length, true, is_some};
ghost use Rattle.desk_status.specs.Levels.{is_majority_level};
ghost use Rattle.desk_status.specs.declared.answers.NodeAnswer.{NodeAnswer};
ghost use Rattle.desk_output.specs.declared.printing.TheConstants.{DONE, FAILED};

use desk_admission::{GroupAddress, Hosts};
use desk_follow::ask_twice;
use desk_key::Key;
use desk_options::StatusOptions;
use desk_output::refusal_status;
use desk_status::status_of;
use desk_types::{Refusal, WantOfMemory};

/// A run of `desk status`: what the words ask for, and the key by which.
#[derive(Drop)]
pub struct StatusRun {
    pub options: StatusOptions,
    /// The key of the file that the words name, where they name one.
    pub key: Option<Key>,
    ghost given: { is_some key ≡ is_some options.key },
}

impl StatusRun {
    /// How the nodes of the group are reached.
    fn address(self) -> GroupAddress
        ensures first { result.first ≡ self.options.port }
        ensures hosts { result.hosts.text ≡ self.options.hosts }
        // They are asked by a key exactly where one is named.
        ensures key { is_some result.key ≡ is_some self.options.key }
    {
        let StatusRun { options, key } = self;
        let StatusOptions { port, hosts, .. } = options;
        GroupAddress {
            first: port,
            hosts: Hosts::new(hosts),
            key,
        }
    }
}

/// Asks every node of a group for its board, prints a line for each, and answers the exit status, as
/// `desk_status::status_of` does.
pub fn show_status(rt: &HostRuntime, run: StatusRun) -> u8
    ensures status { result ≤ FAILED }
    // It ends with 0 only where a majority of so many answers is level.
    ensures done { result ≡ DONE → (answers : List NodeAnswer) × (length answers ≡ run.options.nodes)
        × (is_majority_level answers ≡ true) }
{
    let nodes = run.options.nodes;
    let address = run.address();
    match ask_twice(rt, rt.alloc(), &address, nodes) {
        Ok(answers) => status_of(answers.as_slice(), &mut rt.stdout(), &mut rt.stderr()),
        Err(_) => refusal_status(&mut rt.stderr(), &Refusal::WantOfMemory),
    }
}
