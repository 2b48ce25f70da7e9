//! Tests of one node in one process: its saved state, its keeper, mailbox, published board and a session.
#![tactic(auto)]

#[cfg(test)]
mod tests;
