//! The nodes of a group, over connections to their ports for sessions.

ghost use Rattle.std.specs.Prelude.{◌≡◌, [], ℕ, List, None, IfOk, IfErr, IfSome, is_some};
ghost use Rattle.desk_lines.specs.Holding.{HoldsLine};
ghost use Rattle.desk_follow.specs.Tries.{GrowsByTry, came_of};
ghost use Rattle.desk_follow.specs.Streams.{stream_at};

use crate::node_stream::{NodeStream, open_stream};
use crate::nodes::{NoReply, Nodes};
use crate::try_log::TryLog;
use desk_admission::GroupAddress;
use desk_lines::LineBuffer;
use desk_types::WantOfMemory;
use std::alloc::Global;
use std::net::{Net, TcpStream};
use std::random::RandomSource;
use std::rt::Clock;
use std::thread;
use std::time::{Duration, Instant};

/// The nodes of a group, with a connection to each that has answered. One that gave no reply in time is closed for
/// good: a late reply on it would pass for that to the next line.
pub struct GroupNodes<R: Net<Stream = TcpStream> + Clock + RandomSource> {
    rt: R,
    alloc: Global,
    address: GroupAddress,
    streams: Vec<Option<NodeStream<TcpStream, TcpStream>>>,
    /// For how long a line is asked again.
    limit: Duration,
    /// When the line began, where the clock tells it.
    began: Option<Instant>,
    tries: TryLog,
}

// Written out, so that callers need not prove each part's drop.
impl<R: Net<Stream = TcpStream> + Clock + RandomSource + Drop> Drop for GroupNodes<R> {
    fn drop(self) {
        let GroupNodes {
            rt: _,
            alloc: _,
            address: _,
            streams: _,
            limit: _,
            began: _,
            tries: _,
        } = self;
    }
}

impl<R: Net<Stream = TcpStream> + Clock + RandomSource + Drop> GroupNodes<R> {
    /// The nodes of a group with this address, and no connection yet. A line is asked again for so many seconds.
    pub fn new(
        rt: R,
        alloc: Global,
        address: GroupAddress,
        nodes: u8,
        seconds: u16,
    ) -> Result<GroupNodes<R>, WantOfMemory>
        ensures tries { IfOk result (λ asked. asked.tries ≡ []) }
        ensures address { IfOk result (λ asked. asked.address ≡ address) }
    {
        let mut streams = Vec::new(alloc);
        for _ in 0..nodes {
            streams.push(None)?;
        }
        Ok(GroupNodes {
            rt,
            alloc,
            address,
            streams,
            limit: Duration::from_secs(seconds as u64),
            began: None,
            tries: TryLog::new(),
        })
    }

    /// Takes the connection that is open to a node, if one is.
    #[tactic(auto, using(crate::proofs::OpenStreams::none_set, crate::proofs::OpenStreams::none_past))]
    fn take_open(&mut self, node: u8) -> Option<NodeStream<TcpStream, TcpStream>>
        ensures tries { self.new.tries ≡ self.old.tries }
        ensures address { self.new.address ≡ self.old.address }
        ensures taken { stream_at self.new.streams.items node ≡ None }
    {
        match self.streams.get_mut(node as usize) {
            Some(open) => open.take(),
            None => None,
        }
    }

    /// The connection to a node: the open one where a line may be sent on it, else a new one.
    fn take_stream(&mut self, node: u8) -> Option<NodeStream<TcpStream, TcpStream>>
        ensures tries { self.new.tries ≡ self.old.tries }
        ensures address { self.new.address ≡ self.old.address }
        ensures dialled { IfSome result (λ stream. stream.node ≡ node) }
        // To a port with a key no line goes without the handshake.
        ensures keyed { IfSome result (λ stream. is_some stream.keyed ≡ is_some self.old.address.key) }
        ensures taken { stream_at self.new.streams.items node ≡ None }
    {
        match self.take_open(node) {
            Some(stream) if stream.leads_to(node, &self.address.key) => Some(stream),
            _ => open_stream(&self.rt, self.alloc, &self.address, node),
        }
    }

    /// Keeps the connection to a node for the next line.
    fn keep_stream(&mut self, node: u8, stream: NodeStream<TcpStream, TcpStream>)
        ensures tries { self.new.tries ≡ self.old.tries }
        ensures address { self.new.address ≡ self.old.address }
    {
        if let Some(open) = self.streams.get_mut(node as usize) {
            *open = Some(stream);
        }
    }

    /// Asks a node a line, once.
    fn ask_once(&mut self, node: u8, line: &LineBuffer) -> Result<String, NoReply>
        // A line goes after a handshake exactly where the group has a key.
        ensures tried { (text : List ℕ) → HoldsLine line.now text → GrowsByTry self.old.tries self.new.tries node
            (is_some self.old.address.key) text (came_of result) }
        ensures address { self.new.address ≡ self.old.address }
        // No connection stays open to a node that gave no reply.
        ensures closed { IfErr result (λ _. stream_at self.new.streams.items node ≡ None) }
    {
        let is_keyed = self.address.key.is_some();
        let Some(stream) = self.take_stream(node) else {
            return self.tries.note(node, is_keyed, line, Err(NoReply::Broken));
        };
        let (stream, reply) = stream.reply(self.alloc, line, &mut self.tries);
        if let Some(stream) = stream {
            self.keep_stream(node, stream);
        }
        reply
    }

    /// Whether there is time for another try. There is none where the clock fails.
    fn has_time(&self) -> bool {
        match &self.began {
            Some(began) => match began.elapsed(&self.rt) {
                Ok(passed) => passed < self.limit,
                Err(_) => false,
            },
            None => false,
        }
    }
}

/// Its tries are those that it notes. No contract sees the bytes of a socket: that a try sends its line alone, once, is
/// said of any reader and writer.
impl<R: Net<Stream = TcpStream> + Clock + RandomSource + Drop> Nodes for GroupNodes<R> {
    ghost use Rattle.std.specs.Prelude.{is_some};

    ghost tries = { λ asked. asked.tries };

    ghost has_key = { λ asked. is_some asked.address.key };

    fn begin(self) -> GroupNodes<R> {
        let mut nodes = self;
        nodes.began = Instant::now(&nodes.rt).ok();
        nodes
    }

    fn ask(self, node: u8, line: &LineBuffer) -> (GroupNodes<R>, Result<String, NoReply>) {
        let mut nodes = self;
        let reply = nodes.ask_once(node, line);
        (nodes, reply)
    }

    fn pause(self, milliseconds: u64) -> (GroupNodes<R>, bool) {
        if milliseconds > 0 {
            thread::sleep(&self.rt, Duration::from_millis(milliseconds));
        }
        let has_time = self.has_time();
        (self, has_time)
    }
}
