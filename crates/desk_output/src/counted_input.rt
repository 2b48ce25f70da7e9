//! The standard input, with a count of what was read of it.

use std::io::{Read, Result, Write};

/// What the latest read of an input gave.
#[derive(Clone, Copy, PartialEq, Eq)]
enum LatestRead {
    Bytes,
    End,
    Fault,
}

/// A reader that counts the bytes that were read.
#[derive(Drop)]
pub struct CountedInput<R: Read> {
    input: R,
    /// How many were read before the latest read that gave bytes.
    before: u64,
    /// How many were read, with those.
    count: u64,
    latest: LatestRead,
}

impl<R: Read> CountedInput<R> {
    /// A reader of which nothing was read.
    pub fn new(input: R) -> CountedInput<R> {
        CountedInput {
            input,
            before: 0,
            count: 0,
            latest: LatestRead::Bytes,
        }
    }
}

impl<R: Read> Read for CountedInput<R> {
    ghost remaining = { λ counted. R.remaining counted.input };

    fn read(&mut self, buf: &mut [u8]) -> Result<usize> {
        let result = self.input.read(buf);
        match &result {
            Ok(0) => self.latest = LatestRead::End,
            Ok(bytes) => {
                self.latest = LatestRead::Bytes;
                self.before = self.count;
                self.count = self.count.saturating_add(*bytes as u64);
            }
            Err(_) => self.latest = LatestRead::Fault,
        }
        result
    }
}

/// Tells the standard error after which byte a read of the input failed, if one did.
pub fn print_unread<E: Write, R: Read>(errors: &mut E, input: &CountedInput<R>) {
    if input.latest == LatestRead::Fault {
        let _ = writeln!(
            errors,
            "desk: the input can not be read behind byte {}",
            input.count
        );
    }
}

/// Tells the standard error after which byte an input of packets can not be read, or ended inside a packet.
pub fn print_cut<E: Write, R: Read>(errors: &mut E, input: &CountedInput<R>) {
    if input.latest == LatestRead::End {
        let _ = writeln!(
            errors,
            "desk: the input ends inside a packet, behind byte {}",
            input.count
        );
    } else {
        print_unread(errors, input);
    }
}

/// Tells the standard error in which bytes of an input of packets the last byte of the field stands that is none. Bytes
/// are counted from 1.
pub fn print_no_packet<E: Write, R: Read>(errors: &mut E, input: &CountedInput<R>) {
    let _ = writeln!(
        errors,
        "desk: the fault stands in the bytes from {} to {} of the input",
        input.before.saturating_add(1),
        input.count
    );
}
