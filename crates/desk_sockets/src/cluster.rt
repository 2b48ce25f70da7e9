//! All nodes of a group on the network of its host, with their states in memory: `desk cluster`.

ghost use Rattle.std.specs.Prelude.{◌≤◌};
ghost use Rattle.desk_types.specs.Group.{IsGroup};
ghost use Rattle.desk_options.specs.Host.{FitsEpoch};
ghost use Rattle.desk_output.specs.declared.printing.TheConstants.{FAILED};

use crate::faults::served_status;
use crate::ports::open_group;
use desk_network::serve_group;
use desk_options::ClusterOptions;
use std::io::Input;
use std::net::{Net, TcpListener, TcpStream};
use std::random::RandomSource;
use std::rt::Clock;
use std::sync::Wait;
use std::thread::Threads;

/// Serves as all nodes of a group until the standard input ends, tells the standard error what ended that, where it was
/// a fault, and gives the exit status. The runtime has the threads, the network and the clock of the host.
pub fn run_group<
    R: Net<Listener = TcpListener, Stream = TcpStream>
        + Threads
        + Wait
        + Clock
        + RandomSource
        + Input
        + Drop
        + Copy
        + Send
        + Sync
        + 'static,
>(host: &HostRuntime, rt: &R, options: ClusterOptions) -> u8
where
    R::Reader: Send,
    requires group { IsGroup options.nodes }
    requires places { FitsEpoch options.epoch_places }
    ensures status { result ≤ FAILED }
{
    let places = options.epoch_places;
    let setup = match open_group(host, options) {
        Ok(setup) => setup,
        Err(status) => return status,
    };
    let outcome = serve_group(rt, host.alloc(), &mut host.stdout(), setup, places);
    served_status(&mut host.stderr(), &outcome)
}
