//! What the page's server counts, and the text in which Prometheus reads it.
#![tactic(auto)]

mod counts;
mod latency;
mod status;
mod text;

pub use counts::{CommandOutcome, Counts};
pub use latency::{Bucket, Latency};
pub use status::StatusCount;
pub use text::write_metrics;
