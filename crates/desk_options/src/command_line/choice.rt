//! What a command line asks for.

ghost use Rattle.std.specs.Prelude.{◌≡◌};
ghost use Rattle.desk_types.specs.Group.{IsGroupSize};

use desk_types::{Domain, HashSeed, Owner};

/// What the program is to do: a subcommand, with the values of its options.
#[derive(Drop)]
pub enum Options {
    /// Replay the documents of the standard input on one log in memory.
    Replay(ReplayOptions),
    /// Run a group of nodes through the events of the standard input.
    World(WorldOptions),
    /// Answer the packets of the standard input as one node, whose state a file keeps.
    Answer(AnswerOptions),
    /// Run one node on the network of this host, whose state a file keeps.
    Serve(ServeOptions),
    /// Run all nodes of a group on the network of this host, with their states in memory.
    Cluster(ClusterOptions),
    /// Send the documents of the standard input to a node, or to the primary of a group, one a line.
    Send(SendOptions),
    /// Ask every node of a group how it is.
    Status(StatusOptions),
    /// Serve the live page of a group to browsers on this host.
    Page(PageOptions),
    /// Print the committed commands that the files of a node keep.
    Log(LogOptions),
    /// Print the version of the program, and the kit that proved it.
    Version,
}

impl Options {
    /// Has all boards that these options make hash with this seed.
    pub fn set_seed(&mut self, seed: HashSeed)
        ensures { self.new ≡ self.old }
    {
        match self {
            Options::Replay(options) => options.domain.set_seed(seed),
            Options::World(options) => options.domain.set_seed(seed),
            Options::Answer(options) => options.owner.domain.set_seed(seed),
            Options::Serve(options) => options.owner.domain.set_seed(seed),
            Options::Cluster(options) => options.domain.set_seed(seed),
            Options::Send(_) => {}
            Options::Status(_) => {}
            Options::Page(_) => {}
            Options::Log(_) => {}
            Options::Version => {}
        }
    }
}

/// The options of a replay.
#[derive(Drop)]
pub struct ReplayOptions {
    /// The desk's domain.
    pub domain: Domain,
}

/// The options of a run of a group of nodes.
#[derive(Drop)]
pub struct WorldOptions {
    /// How many nodes, 3 or 5.
    pub nodes: u8,
    /// The desk's domain.
    pub domain: Domain,
}

/// The options of the answers of a node.
#[derive(Drop)]
pub struct AnswerOptions {
    /// The node, one of 3 or 5.
    pub owner: Owner,
    /// The path of the file that keeps its state.
    pub file: String,
}

/// The options of a node on the network.
#[derive(Drop)]
pub struct ServeOptions {
    /// The node, one of 3 or 5.
    pub owner: Owner,
    /// The first port of the group.
    pub port: u16,
    /// The path of the file that keeps the node's state.
    pub file: String,
    /// The host of each node, by address or name, with commas between. None where each is on loopback.
    pub hosts: Option<String>,
    /// The path of the key of the nodes' ports, where they have one.
    pub key: Option<String>,
    /// The path of the key of the port for sessions, where it has one.
    pub client_key: Option<String>,
    /// Whether the node tells its changes.
    pub log: bool,
    /// Whether a first file that is full gets a second one, where it has none.
    pub next: bool,
    /// How many places an epoch has, in entries, from 1 to 65,536.
    pub epoch_places: u64,
    /// The token of a node that takes the place of a lost one, from 1 to 1,000,000,000,000. None where the node
    /// began with the group.
    pub member: Option<u64>,
}

/// The options of a group of nodes on the network of one host.
#[derive(Drop)]
pub struct ClusterOptions {
    /// How many nodes, 3 or 5.
    pub nodes: u8,
    /// The desk's domain.
    pub domain: Domain,
    /// The first port of the group.
    pub port: u16,
    /// How many places an epoch has, in entries, from 1 to 65,536.
    pub epoch_places: u64,
}

/// The options of documents that are sent to nodes.
#[derive(Drop)]
pub struct SendOptions {
    /// The port of the node's sessions; where a group is followed, the first port of the group.
    pub port: u16,
    /// The group whose primary is followed, where one is.
    pub group: Option<FollowOptions>,
    /// The host of the node, by address or name. None where it is on loopback, and where a group is followed.
    pub host: Option<String>,
    /// The host of each node of the group, with commas between. None where each is on loopback.
    pub hosts: Option<String>,
    /// The path of the key of sessions, where they have one.
    pub key: Option<String>,
}

/// The options of documents that go to the primary of a group.
#[derive(Drop)]
pub struct FollowOptions {
    /// How many nodes, 3 or 5.
    pub nodes: u8,
    /// For how long a line is asked again, in seconds, from 1 to 3,600.
    pub seconds: u16,
    ghost few: { IsGroupSize nodes },
}

/// The options of a look at the nodes of a group.
#[derive(Drop)]
pub struct StatusOptions {
    /// How many nodes, 3 or 5.
    pub nodes: u8,
    /// The first port of the group.
    pub port: u16,
    /// The host of each node, by address or name, with commas between. None where each is on loopback.
    pub hosts: Option<String>,
    /// The path of the key of sessions, where they have one.
    pub key: Option<String>,
}

/// The options of the live page of a group.
#[derive(Drop)]
pub struct PageOptions {
    /// How many nodes, 3 or 5.
    pub nodes: u8,
    /// The first port of the group.
    pub port: u16,
    /// The port at which browsers come, from 1,024 on.
    pub listen: u16,
    /// For how long a command of a browser is asked again, in seconds, from 1 to 3,600.
    pub seconds: u16,
    /// The host of each node, by address or name, with commas between. None where each is on loopback.
    pub hosts: Option<String>,
    /// The path of the key of sessions, where they have one.
    pub key: Option<String>,
    ghost few: { IsGroupSize nodes },
}

/// The options of the archive of a node's files.
#[derive(Drop)]
pub struct LogOptions {
    /// The path of the first file.
    pub file: String,
    /// The first place whose command is printed, from 1 to 999,999,999,999.
    pub from: u64,
}
