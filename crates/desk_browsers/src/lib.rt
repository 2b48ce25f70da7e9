//! One connection of a browser over any streams, with bounds on the bytes and the time of each request.
#![tactic(auto)]

mod refused;
mod serving;

pub use refused::refused_status;
pub use serving::{new_connection, serve_browser};
