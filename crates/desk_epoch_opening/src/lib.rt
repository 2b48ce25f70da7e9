//! How the keeper of a node over epochs comes to be: its epochs are opened one after the other, what each has committed
//! is published, and the keeper goes on in the last one. It knows no database: who opens the stores is a trait.
#![tactic(auto)]

mod opening;
mod publishing;
mod refused_opening;

pub use opening::open_epochs;
pub use refused_opening::RefusedOpening;
