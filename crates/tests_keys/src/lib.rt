//! Tests of `desk_key`, `desk_admission` and `desk_records`.
#![tactic(auto)]

#[cfg(test)]
mod tests;
