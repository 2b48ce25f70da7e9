//! The line that is coming.

ghost use Rattle.std.specs.Prelude.{◌≡◌, ◌≤◌, ◌++◌, [], ℕ, List, length, IfOk, vec_capacity};
ghost use Rattle.desk_types.specs.declared.limits.TheConstants.{LINE_BYTES};
ghost use Rattle.desk_eido.specs.Reading.{ReadsAs, ask_on_line};
ghost use Rattle.desk_lines.specs.Lines.{is_skipped, IsOneLine};

use crate::lines::is_blank;
use desk_arena::DocArena;
use desk_eido::{Ask, read_document};
use desk_types::limits::LINE_BYTES;
use desk_types::{Refusal, WantOfMemory};
use std::alloc::Global;

/// What has come of a line: its bytes, as many as a line may have. Their memory is taken once.
pub struct LineBuffer {
    pub bytes: Vec<u8>,
    /// The line has more bytes, which are thrown away.
    pub is_long: bool,
    ghost fits: { length bytes.items ≤ LINE_BYTES },
    ghost room: { LINE_BYTES ≤ vec_capacity bytes },
}

// Written out, so that callers need not prove each part's drop.
impl Drop for LineBuffer {
    fn drop(self) {
        let LineBuffer {
            bytes: _,
            is_long: _,
        } = self;
    }
}

impl LineBuffer {
    ghost use Rattle.desk_lines.specs.Holding.{HoldsLine};

    /// A buffer that holds an empty line so far.
    pub(crate) fn new(alloc: Global) -> Result<LineBuffer, WantOfMemory>
        ensures { IfOk result (λ buffer. HoldsLine buffer []) }
    {
        Ok(LineBuffer {
            bytes: Vec::with_capacity(alloc, LINE_BYTES)?,
            is_long: false,
        })
    }

    /// Takes more bytes of the line.
    pub(crate) fn push_run(&mut self, run: &[u8])
        requires { IsOneLine run.now }
        ensures { (line : List ℕ) → HoldsLine self.old line → HoldsLine self.new (line ++ run.now) }
    {
        let preserved = run.len().min(LINE_BYTES - self.bytes.len());
        self.bytes.extend_from_slice(&run[..preserved]).unwrap();
        if preserved < run.len() {
            self.is_long = true;
        }
    }

    /// Whether the line, which is at its end, gets no reply.
    pub(crate) fn is_skipped(&self) -> bool
        ensures { (line : List ℕ) → HoldsLine self.now line → result ≡ is_skipped line }
    {
        !self.is_long && is_blank(self.bytes.as_slice())
    }

    /// What the document on the line asks for.
    pub fn read(&self, alloc: Global, arena: &mut DocArena) -> Result<Ask, Refusal>
        ensures reads { (line : List ℕ) → HoldsLine self.now line →
            ReadsAs result (ask_on_line arena.old.capacity line) }
        ensures capacity { arena.new.capacity ≡ arena.old.capacity }
    {
        if self.is_long {
            return Err(Refusal::TooLong);
        }
        read_document(alloc, self.bytes.as_slice(), arena)
    }

    /// Nothing of the next line has come.
    pub(crate) fn clear(&mut self)
        ensures { HoldsLine self.new [] }
    {
        self.bytes.clear();
        self.is_long = false;
    }
}
