//! Tests of nodes whose keepers, senders and sessions each have a thread of their own, in one process.
#![tactic(auto)]

#[cfg(test)]
mod tests;
