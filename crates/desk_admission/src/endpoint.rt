//! What is dialled.

ghost use Rattle.std.specs.Prelude.{◌≡◌, ◌++◌};
ghost use Rattle.sha2.specs.Sha256.{sha256};
ghost use Rattle.desk_admission.specs.declared.endpoint.Role.TheVariants as roles;
ghost use Rattle.desk_admission.specs.Handshake.{role_byte, may_dial, hello_bytes};

use sha2::{Digest, Sha256};

/// The bytes of a hello.
pub const HELLO_BYTES: usize = 80;

/// The bytes of a nonce.
pub const NONCE_BYTES: usize = 32;

/// The number of a client, which is no node.
pub const CLIENT: u8 = 255;

/// What an end that dials comes for.
#[derive(Clone, Copy, Debug, PartialEq, Eq)]
pub enum Role {
    /// It is another node, and brings packets.
    Peer,
    /// It is a client, and brings lines.
    Session,
}

impl Role {
    /// Its byte in a hello.
    fn byte(self) -> u8
        ensures { result ≡ role_byte self }
    {
        match self {
            Role::Peer => 1,
            Role::Session => 2,
        }
    }
}

/// A port that is dialled: what for, which node's it is, of how many, and of which domain's group.
#[derive(Clone, Copy)]
pub struct Endpoint {
    pub role: Role,
    /// The number of the node, or of a client where clients dial.
    pub node: u8,
    /// How many nodes the group has, or 0 where clients dial.
    pub nodes: u8,
    pub port: u16,
    /// The SHA-256 of the domain, or zeros where clients dial.
    pub domain: [u8; 32],
}

/// The front of a hello: what it says but for the domain, and then that.
fn with_domain(front: &[u8; 16], domain: &[u8; 32]) -> [u8; 48]
    ensures { result ≡ front.now ++ domain.now }
{
    let mut bytes = [0; 48];
    bytes[..16].copy_from_slice(front);
    bytes[16..].copy_from_slice(domain);
    bytes
}

/// A hello: its front, and then the nonce.
fn with_nonce(front: &[u8; 48], nonce: &[u8; 32]) -> [u8; 80]
    ensures { result ≡ front.now ++ nonce.now }
{
    let mut hello = [0; HELLO_BYTES];
    hello[..48].copy_from_slice(front);
    hello[48..].copy_from_slice(nonce);
    hello
}

impl Endpoint {
    /// The port at which a node of a group takes packets of the others.
    pub fn of_peers(node: u8, nodes: u8, port: u16, domain: &[u8]) -> Endpoint
        ensures role { result.role ≡ roles.Peer }
        ensures nodes { (result.node ≡ node) × (result.nodes ≡ nodes) × (result.port ≡ port) }
        ensures domain { result.domain ≡ sha256 domain.now }
    {
        Endpoint {
            role: Role::Peer,
            node,
            nodes,
            port,
            domain: Sha256::digest(domain),
        }
    }

    /// A port at which a node serves clients. A client needs to know neither the node nor its group.
    pub fn of_sessions(port: u16) -> Endpoint
        ensures role { result.role ≡ roles.Session }
        ensures nodes { (result.node ≡ 255) × (result.nodes ≡ 0) × (result.port ≡ port) }
    {
        Endpoint {
            role: Role::Session,
            node: CLIENT,
            nodes: 0,
            port,
            domain: [0; 32],
        }
    }

    /// Whether an end of this number may dial: another node of the group, or a client.
    pub(crate) fn may_dial(&self, from: u8) -> bool
        ensures { result ≡ may_dial self.now from }
    {
        match self.role {
            Role::Peer => from < self.nodes && from != self.node,
            Role::Session => from == CLIENT,
        }
    }

    /// The hello of an end that dials.
    pub(crate) fn hello(&self, from: u8, nonce: &[u8; 32]) -> [u8; 80]
        ensures { result ≡ hello_bytes self.now from nonce.now }
    {
        let port = self.port.to_be_bytes();
        let front = [
            b'd',
            b'e',
            b's',
            b'k',
            b'-',
            b'k',
            b'e',
            b'y',
            1,
            self.role.byte(),
            from,
            self.node,
            self.nodes,
            0,
            port[0],
            port[1],
        ];
        with_nonce(&with_domain(&front, &self.domain), nonce)
    }
}
