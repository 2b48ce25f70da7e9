//! Tests of the log, of the saved state, and of nodes and groups of nodes.
#![tactic(auto)]

#[cfg(test)]
mod tests;
