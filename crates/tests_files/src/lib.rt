//! Tests of the files of a node over epochs, and of what they have committed, as document lines.
#![tactic(auto)]

#[cfg(test)]
mod tests;
