//! What a browser's request asks the page's server for: its route, whether it is meant for this host, whether it comes
//! from this site's own page, and the fields of an answer that hold a browser to that.
#![tactic(auto)]

mod admission;
mod asked;
mod bytes_of;
mod field;
mod host;
mod policy;

pub use admission::{Admitted, admit};
pub use asked::{Asked, asked_for};
pub use bytes_of::stripped;
pub use policy::add_policy;
