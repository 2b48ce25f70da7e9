//! A link to another node.

ghost use Rattle.std.specs.Prelude.{◌≡◌, true, [], None, OnOk, OnErr, if◌then◌else◌};
ghost use Rattle.std.specs.Io.KnownBytes.{Appends};
ghost use Rattle.desk_output.specs.Prefixes.{AppendsPrefix};
ghost use Rattle.desk_peers.specs.Headers.{header_of, header_spelling};
ghost use Rattle.desk_peers.specs.Links.{text_for, IsSentOver, IsSentOnce, IsSent};
ghost use Rattle.desk_peers.specs.Links.{IsReadyFor, IsUnder, EndsLink};

use crate::header::{EpochHeader, EpochPlaces, write_header};
use desk_frames::write_packet;
use desk_output::flush;
use desk_types::{EpochPacket, Refusal};
use std::alloc::Global;
use std::io::Write;
use std::marker::Model;

/// Makes connections to one other node.
pub trait Connect {
    ghost use Rattle.std.specs.Prelude.{◌≡◌, ℕ, List, Option, None, IfSome};
    ghost use Rattle.desk_peers.specs.Links.{StartsEmpty, Closes};

    type Connection: Write + Drop;

    /// What the connections carried that were closed, in order, where it is known.
    ghost closed: { Self → Option (List (List ℕ)) } = { λ _. None };

    /// A new connection, if the node can be reached. Nothing was written to it yet.
    fn connect(&mut self) -> Option<Self::Connection>
        ensures closed { closed self.new ≡ closed self.old }
        ensures empty { IfSome result (λ c. StartsEmpty (closed self.old) (Self.Connection.contents c)) };

    /// Whether the connection that is open is to carry one packet more. Else it is closed, and a new one is made.
    fn keeps(&mut self) -> bool
        ensures { closed self.new ≡ closed self.old };

    /// Closes a connection, which is the last of the closed ones then.
    fn close(&mut self, connection: Self::Connection)
        ensures { Closes (closed self.old) (Self.Connection.contents connection) (closed self.new) };
}

/// A link to another node, with a connection of one header or without one. A contract sees the header, and what its
/// connections carried.
pub struct PeerLink<C: Connect> {
    connector: C,
    connection: Option<(EpochHeader, C::Connection)>,
}

impl<C: Connect> Model for PeerLink<C> {
    ghost use Rattle.std.specs.Option.{option_map};
    ghost use Rattle.desk_peers.specs.Links.{LinkState};

    ghost Value = { LinkState };

    ghost view = { λ l. record {
      closed = C.closed l.connector;
      current = option_map (λ c. (c.0, C.Connection.contents c.1)) l.connection;
    } };
}

/// Writes what a new connection begins with.
fn write_beginning<W: Write>(
    connection: &mut W,
    is_new: bool,
    places: EpochPlaces,
    header: EpochHeader,
) -> Result<(), Refusal>
    ensures ok { OnOk result (Appends (W.contents connection.old) (W.contents connection.new)
        (if is_new then header_spelling places.places header else [])) }
    ensures err { OnErr result (AppendsPrefix (W.contents connection.old) (W.contents connection.new)
        (if is_new then header_spelling places.places header else [])) }
{
    if !is_new {
        return Ok(());
    }
    write_header(connection, places, header)
}

/// Writes a packet's frame, after its header where the connection is new, and sends on what the connection holds back.
fn write_frame<W: Write>(
    alloc: Global,
    connection: &mut W,
    is_new: bool,
    places: EpochPlaces,
    packet: &EpochPacket,
) -> Result<(), Refusal>
    ensures ok { OnOk result
        (Appends (W.contents connection.old) (W.contents connection.new)
        (text_for places.places is_new packet.now)) }
    ensures err { OnErr result
        (AppendsPrefix (W.contents connection.old) (W.contents connection.new)
        (text_for places.places is_new packet.now)) }
{
    write_beginning(connection, is_new, places, EpochHeader::of_packet(packet))?;
    if let Err(fault) = write_packet(alloc, connection, &packet.packet) {
        return Err(fault.refusal);
    }
    flush(connection)
}

impl<C: Connect> PeerLink<C> {
    /// A link without a connection.
    pub fn new(connector: C) -> PeerLink<C>
        ensures { result ≡ record { closed = C.closed connector; current = None } }
    {
        PeerLink {
            connector,
            connection: None,
        }
    }

    // Sends a packet over this connection.
    fn send_over(
        alloc: Global,
        connector: C,
        connection: C::Connection,
        is_new: bool,
        places: EpochPlaces,
        packet: &EpochPacket,
    ) -> (PeerLink<C>, bool)
        ensures { IsSentOver (header_of packet.now) (text_for places.places is_new packet.now) (C.closed connector)
            (C.Connection.contents connection) result.1 result.0 }
    {
        let mut connector = connector;
        let mut connection = connection;
        match write_frame(alloc, &mut connection, is_new, places, packet) {
            Ok(()) => {
                let link = PeerLink {
                    connector,
                    connection: Some((EpochHeader::of_packet(packet), connection)),
                };
                (link, true)
            }
            Err(_) => {
                connector.close(connection);
                (PeerLink::new(connector), false)
            }
        }
    }

    // Whether the open connection, if there is one, is of this header.
    fn is_under(&self, header: EpochHeader) -> bool
        ensures { result ≡ true → IsUnder header self.now }
    {
        match &self.connection {
            Some((own, _)) => *own == header,
            None => true,
        }
    }

    // The link for a packet of this header: its connection is closed where it is not to carry that.
    fn for_packet(self, header: EpochHeader) -> PeerLink<C>
        ensures { IsReadyFor header self result }
    {
        let is_under = self.is_under(header);
        let PeerLink {
            connector,
            connection,
        } = self;
        let mut connector = connector;
        let keeps = connector.keeps();
        let link = PeerLink {
            connector,
            connection,
        };
        if keeps && is_under {
            return link;
        }
        PeerLink::new(link.close())
    }

    // Sends a packet over the connection that is there, else over a new one.
    fn send_once(
        self,
        alloc: Global,
        places: EpochPlaces,
        packet: &EpochPacket,
    ) -> (PeerLink<C>, bool)
        requires { IsUnder (header_of packet.now) self }
        ensures { IsSentOnce places.places packet.now self result.1 result.0 }
    {
        let PeerLink {
            connector,
            connection,
        } = self;
        if let Some((_, connection)) = connection {
            return PeerLink::send_over(alloc, connector, connection, false, places, packet);
        }
        let mut connector = connector;
        match connector.connect() {
            Some(connection) => PeerLink::send_over(
                alloc, connector, connection, true, places, packet,
            ),
            None => (PeerLink::new(connector), false),
        }
    }

    /// Sends a packet: over the connection that is there, where that is of its epoch and purpose and is to carry one
    /// more, else over a new one, which begins with the packet's header. Where none can be made, and where writing
    /// fails or memory is refused, the packet is lost, and the answer false; a connection that failed is closed, with a
    /// part of the packet's frame, or of the header and the frame, at its end at most, or all of it.
    pub fn send(
        self,
        alloc: Global,
        places: EpochPlaces,
        packet: &EpochPacket,
    ) -> (PeerLink<C>, bool)
        ensures { IsSent places.places packet.now self result.1 result.0 }
    {
        self.for_packet(EpochHeader::of_packet(packet))
            .send_once(alloc, places, packet)
    }

    /// Closes the connection, if there is one.
    pub fn close(self) -> C
        ensures { EndsLink self (C.closed result) }
    {
        let PeerLink {
            connector,
            connection,
        } = self;
        let mut connector = connector;
        if let Some((_, connection)) = connection {
            connector.close(connection);
        }
        connector
    }
}
