//! Texts to a writer, with a promise on what was written where a write fails; reads of a stream, which are counted;
//! what is printed to the standard error of faults, each in a line with its number and its name, and of the input; and
//! the exit statuses.
#![tactic(auto)]

mod counted_input;
mod input;
mod output;
mod printing;

pub use counted_input::{CountedInput, print_cut, print_no_packet, print_unread};
pub use input::{READ_BYTES, ReadCount};
pub use output::{flush, write_all, write_text};
pub use printing::{
    DONE, FAILED, LinePart, REFUSED, outcome_status, refusal_status, refusal_status_with,
    write_parts,
};
