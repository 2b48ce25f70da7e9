//! What answers lines.

ghost use Rattle.std.specs.Prelude.{◌≡◌, IfOk, IfErr, ℕ, List};
ghost use Rattle.desk_types.specs.Refusal.{IsStreamFault};
ghost use Rattle.desk_lines.specs.Holding.{HoldsLine};
ghost use Rattle.desk_lines.specs.ReplyTexts.{bytes_of};

use crate::buffer::LineBuffer;
use desk_types::Refusal;

/// Learns how far an input has come, so that a test can hold a session back.
pub trait Gate {
    fn before_read(&self);

    fn after_answer(&self);
}

/// A gate that holds nothing back.
#[derive(Drop)]
pub struct NoGate;

impl Gate for NoGate {
    fn before_read(&self) {}

    fn after_answer(&self) {}
}

/// What is written for a line.
#[derive(Drop)]
pub enum ReplyText {
    /// A reply line.
    Line(String),
    /// The reply line of want of memory. It takes no memory.
    WantOfMemory,
}

/// What answers lines, one after the other.
pub trait Handler {
    ghost use Rattle.std.specs.Prelude.{ℕ, List};
    ghost use Rattle.desk_types.specs.declared.refusal.Refusal.{Refusal};

    /// A handler answers a line by a text, and is then this handler.
    ghost answers: { Self → List ℕ → List ℕ → Self → Type 0 };

    /// What a handler may have become that ended at a line by a refusal.
    ghost gives_up: { Self → List ℕ → Refusal → Self → Type 0 };

    /// What no answer changes.
    ghost Preserved: { Type 0 } = { Unit {0} };

    ghost preserved: { Self → Self.Preserved };

    /// Answers the line that has come. Where that fails, for want of memory (`WantOfMemory`) or by a fault of reading
    /// (`ReadFault`) or of writing (`WriteFault`), no further line is answered.
    fn answer(self, line: &LineBuffer) -> (Self, Result<ReplyText, Refusal>)
        ensures ok { IfOk result.1 (λ reply. (text : List ℕ) → HoldsLine line.now text →
            answers self text (bytes_of reply) result.0) }
        ensures err { IfErr result.1 (λ r. (text : List ℕ) → HoldsLine line.now text → gives_up self text r result.0) }
        ensures fault { IfErr result.1 IsStreamFault }
        ensures preserved { preserved result.0 ≡ preserved self };
}
