//! Tests of the values that every part of the desk speaks of, of the bytes that spell them, of frames on a stream, and
//! of the document arena.
#![tactic(auto)]

#[cfg(test)]
mod tests;
