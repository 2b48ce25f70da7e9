//! What is left where memory is refused. These tests are for runs in which one request for memory is refused; in any
//! other run they say no more than the rest.

mod gathering;
mod items;
mod lines;
mod over;
mod turns;
