//! What a node that runs tells an operator: a line of JSON for each change that is asked about, of each kind so many a
//! second at most. Its threads put events into a queue without waiting, and one thread writes the lines.
#![tactic(auto)]

mod event;
mod heard;
mod line;
mod log;
mod rates;
mod writer;

pub use event::{Door, Event, Why};
pub use line::write_event;
pub use log::{EventLog, QUEUE_EVENTS};
pub use rates::{EVENTS_A_SECOND, EventRates};
pub use writer::{EventThread, start_log};
