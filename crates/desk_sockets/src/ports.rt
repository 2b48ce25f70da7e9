//! The ports of nodes.

ghost use Rattle.std.specs.Prelude.{◌≡◌, IfOk, IfErr};
ghost use Rattle.desk_output.specs.declared.printing.TheConstants.{FAILED};

use crate::faults::no_ports_status;
use desk_connections::{GroupSetup, NodePorts, bind_group};
use desk_options::ClusterOptions;

/// Binds the ports of a node, or tells the standard error which is refused, and gives the exit status.
pub fn bind_node(rt: &HostRuntime, host: &str, first: u16, id: u8) -> Result<NodePorts, u8>
    ensures err { IfErr result (λ status. status ≡ FAILED) }
{
    match NodePorts::bind(rt, host, first, id) {
        Ok(ports) => Ok(ports),
        Err(refused) => Err(no_ports_status(&mut rt.stderr(), &refused)),
    }
}

/// Binds the ports of all nodes of a group, or tells the standard error which is refused, and gives the exit status.
pub fn open_group(rt: &HostRuntime, options: ClusterOptions) -> Result<GroupSetup, u8>
    ensures nodes { IfOk result (λ group. group.nodes ≡ options.nodes) }
    ensures domain { IfOk result (λ group. group.domain ≡ options.domain) }
    ensures port { IfOk result (λ group. group.first ≡ options.port) }
    ensures err { IfErr result (λ status. status ≡ FAILED) }
{
    let ClusterOptions {
        nodes,
        domain,
        port,
        ..
    } = options;
    match bind_group(rt, rt.alloc(), port, nodes) {
        Ok(ports) => Ok(GroupSetup {
            nodes,
            domain,
            first: port,
            ports,
        }),
        Err(refused) => Err(no_ports_status(&mut rt.stderr(), &refused)),
    }
}
