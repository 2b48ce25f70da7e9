//! A mailbox: several senders put items into a channel of bounded length, and one taker takes them out. Its rule knows
//! two kinds of step, a put and a take, and says that what was taken of each sender, followed by what the channel
//! still holds of it, is what that sender put.
#![tactic(auto)]

mod gathered;
mod item;
mod opening;
mod rule;
mod sender;
mod taker;

pub use gathered::GatheredMailbox;
pub use item::Item;
pub use opening::open_mailbox;
pub use rule::{PassView, SentItem};
pub use sender::Sender;
pub use taker::Taker;

/// The items that the mailbox of a node holds.
pub const MAILBOX_ITEMS: usize = 1_024;
