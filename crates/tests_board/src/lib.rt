//! Tests of the board and of the incidents and the units that it holds, of documents and their replies, and of runs of
//! the program whose readers and writers give or take little, or fail.
#![tactic(auto)]

#[cfg(test)]
mod tests;
