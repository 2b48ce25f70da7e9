//! What the words of the command line ask for where the host's files or sockets are needed for it.

use crate::command_line::{
    AnswerOptions, ClusterOptions, LogOptions, PageOptions, SendOptions, ServeOptions,
    StatusOptions,
};

/// A run that needs files or sockets of the host, which its caller opens.
#[derive(Drop)]
pub enum HostRun {
    /// Answer the packets of the standard input as one node, whose state a file keeps.
    Answer(AnswerOptions),
    /// Run one node on the network of this host, whose state a file keeps.
    Serve(ServeOptions),
    /// Run all nodes of a group on the network of this host, with their states in memory.
    Cluster(ClusterOptions),
    /// Send the documents of the standard input to a node, or to the primary of a group, one a line.
    Send(SendOptions),
    /// Ask every node of a group how it is.
    Status(StatusOptions),
    /// Serve the live page of a group to browsers on this host.
    Page(PageOptions),
    /// Print the committed commands that the files of a node keep.
    Log(LogOptions),
}
