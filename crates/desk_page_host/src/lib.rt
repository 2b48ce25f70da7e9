//! The page's server on its host: the threads that read the board, watch the nodes and serve browsers.
#![tactic(auto)]

mod browsers;
mod reader;
mod server;
mod watcher;

pub use server::{PageRun, serve_page};
