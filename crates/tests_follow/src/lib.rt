//! Tests of `desk_follow` and `desk_page`, over a group whose nodes answer by a script, of `desk_status` and of
//! `desk_browsers`.
#![tactic(auto)]

#[cfg(test)]
mod tests;
