//! What a keeper does its items to: in memory, and with what saves it. What comes of an item, and what the sessions
//! that wait hear of it. It knows no threads.
#![tactic(auto)]

mod answer;
mod item_step;
mod replica;
mod saved_replica;

pub use answer::{Answer, copy_refusal, session_answer};
pub use item_step::{ItemStep, StepAnswers};
pub use replica::Replica;
pub use saved_replica::SavedReplica;
