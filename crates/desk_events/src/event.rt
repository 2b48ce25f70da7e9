//! What an operator asks about.

ghost use Rattle.std.specs.Prelude.{◌≡◌, ◌<◌};
ghost use Rattle.desk_events.specs.Events.{why_word, door_word, event_name, refused_kind, event_kind};
ghost use Rattle.desk_events.specs.declared.event.TheConstants.{KINDS};

/// Why a link is down, or who connected was refused.
#[derive(Clone, Copy, Debug, PartialEq, Eq)]
pub enum Why {
    /// No connection was taken there.
    Connect,
    /// A connection that was there takes no more.
    Broken,
    /// The other end is silent in the handshake, or breaks it off.
    Handshake,
    /// The other end is of another port, node, group or domain, or of no version of the handshake that is known.
    Endpoint,
    /// The other end does not show that it holds the key.
    Key,
    /// It began as HTTP or TLS does.
    Browser,
    /// It sent bytes that are no packet.
    Packet,
}

impl Why {
    /// The word of a line for it.
    pub(crate) fn word(self) -> &'static str
        ensures { result.now ≡ why_word self }
    {
        match self {
            Why::Connect => "connect",
            Why::Broken => "broken",
            Why::Handshake => "handshake",
            Why::Endpoint => "endpoint",
            Why::Key => "key",
            Why::Browser => "browser",
            Why::Packet => "packet",
        }
    }
}

/// A port of a node.
#[derive(Clone, Copy, Debug, PartialEq, Eq)]
pub enum Door {
    /// That of the other nodes.
    Peers,
    /// That of clients.
    Sessions,
}

impl Door {
    /// The word of a line for it.
    pub(crate) fn word(self) -> &'static str
        ensures { result.now ≡ door_word self }
    {
        match self {
            Door::Peers => "peers",
            Door::Sessions => "sessions",
        }
    }

    /// The kind of a refusal there: so a node that is refused hides no client.
    fn refused_kind(self) -> usize
        ensures value { result ≡ refused_kind self }
        ensures within { result < KINDS }
    {
        match self {
            Door::Peers => 7,
            Door::Sessions => 9,
        }
    }
}

/// How many kinds of events there are.
pub const KINDS: usize = 11;

/// A change of a node that an operator asks about.
#[derive(Clone, Copy)]
pub enum Event {
    /// It listens at these ports.
    Ports { peers: u16, sessions: u16 },
    /// It has a connection to another node, and had none.
    LinkUp { to: u8 },
    /// It has none to another node: it had one, or never had, or has none for another reason than before.
    LinkDown { to: u8, why: Why },
    /// It saved its first state in this epoch since it began it, or since its start.
    Epoch { epoch: u64 },
    /// It is normal in a view, which this node leads, and was not before.
    View { view: u64, leader: u8 },
    /// It has committed up to this place, and asks another node for what follows.
    Behind { place: u64 },
    /// It has got entries since, up to this place.
    Level { place: u64 },
    /// A save took so long.
    SlowSave { milliseconds: u64 },
    /// It refused who connected to a port.
    Refused { at: Door, why: Why },
    /// It ends, with its standard input or by a fault of this name.
    End { why: &'static str },
}

impl Event {
    /// The name of a line for it.
    pub(crate) fn name(&self) -> &'static str
        ensures { result.now ≡ event_name self.now }
    {
        match self {
            Event::Ports { .. } => "ports",
            Event::LinkUp { .. } => "link_up",
            Event::LinkDown { .. } => "link_down",
            Event::Epoch { .. } => "epoch",
            Event::View { .. } => "view",
            Event::Behind { .. } => "behind",
            Event::Level { .. } => "level",
            Event::SlowSave { .. } => "slow_save",
            Event::Refused { .. } => "refused",
            Event::End { .. } => "end",
        }
    }

    /// Its kind, by a number below `KINDS`.
    pub(crate) fn kind(&self) -> usize
        ensures value { result ≡ event_kind self.now }
        ensures within { result < KINDS }
    {
        match self {
            Event::Ports { .. } => 0,
            Event::LinkUp { .. } => 1,
            Event::LinkDown { .. } => 2,
            Event::View { .. } => 3,
            Event::Behind { .. } => 4,
            Event::Level { .. } => 5,
            Event::SlowSave { .. } => 6,
            Event::Refused { at, .. } => at.refused_kind(),
            Event::End { .. } => 8,
            Event::Epoch { .. } => 10,
        }
    }
}
