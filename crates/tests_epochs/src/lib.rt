//! Tests of nodes over epochs.
#![tactic(auto)]

#[cfg(test)]
mod tests;
