//! Worked examples of the files of node 0 of three, in which an epoch ends after four entries, and of document lines.

mod archived;
mod databases;
mod ends;
mod faults;
mod files;
mod members;
mod memory;
mod starts;
mod stops;
mod tried;
