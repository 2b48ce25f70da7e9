//! The reply lines of a node.

ghost use Rattle.std.specs.Prelude.{◌≡◌, ◌<◌, ◌≤◌, ◌++◌, ℕ, List, length, take, string_bytes, IfOk, IfErr, OnErr};
ghost use Rattle.std.specs.Io.KnownBytes.{Consumes, Keeps};
ghost use Rattle.desk_send.specs.declared.reply.TheConstants.{REPLY_BYTES};
ghost use Rattle.desk_send.specs.Replies.{EndsAs, IsWholeLine, IsReplyLine, ReadsNone};

use crate::fault::NodeFault;
use desk_lines::split_at_first;
use std::alloc::Global;
use std::io::BufRead;

/// The most bytes of a reply line with its newline, in bytes: eight for each byte of the commands of a log of
/// 16,384 entries.
pub const REPLY_BYTES: usize = 134_217_728;

/// How many bytes stand up to the first newline and with it, and whether there is one.
fn through_newline(bytes: &[u8]) -> (usize, bool)
    ensures within { result.0 ≤ length bytes.now }
    ensures some { 0 < length bytes.now → 0 < result.0 }
    ensures ends { EndsAs result.1 (take result.0 bytes.now) }
{
    match split_at_first(bytes, b'\n') {
        Some((line, _after)) => (line.len() + 1, true),
        None => (bytes.len(), false),
    }
}

/// Takes more of a reply line, at most up to its newline, and tells whether that came. It waits for the node.
fn take_run<B: BufRead>(reader: &mut B, reply: &mut Vec<u8>) -> Result<bool, NodeFault>
    ensures ok { IfOk result (λ is_end. (run : List ℕ) × (reply.new.items ≡ reply.old.items ++ run)
        × (0 < length run) × EndsAs is_end run × Consumes (B.remaining reader.old) (B.remaining reader.new) run) }
    ensures err { OnErr result (Keeps (B.remaining reader.old) (B.remaining reader.new)) }
{
    let available = match reader.fill_buf() {
        Ok(available) => available,
        Err(_) => return Err(NodeFault::Broken),
    };
    if available.is_empty() {
        return Err(NodeFault::Broken);
    }
    let (count, is_end) = through_newline(available);
    reply.extend_from_slice(&available[..count])?;
    reader.consume(count);
    Ok(is_end)
}

/// A whole reply line, unless it is too long.
fn unless_too_long(reply: Vec<u8>) -> Result<Vec<u8>, NodeFault>
    ensures ok { IfOk result (λ r. (r ≡ reply) × (length reply.items ≤ REPLY_BYTES)) }
    ensures err { OnErr result (REPLY_BYTES < length reply.items) }
{
    if reply.len() > REPLY_BYTES {
        return Err(NodeFault::Broken);
    }
    Ok(reply)
}

/// Reads the bytes of a reply line.
fn read_line<B: BufRead>(alloc: Global, reader: &mut B) -> Result<Vec<u8>, NodeFault>
    ensures ok { IfOk result (λ reply.
        Consumes (B.remaining reader.old) (B.remaining reader.new) reply.items
        × IsWholeLine reply.items × (length reply.items ≤ REPLY_BYTES)) }
    ensures err { IfErr result (λ fault. ReadsNone fault (B.remaining reader.old) (B.remaining reader.new)) }
{
    let mut reply = Vec::new(alloc);
    'runs: while reply.len() <= REPLY_BYTES {
        let is_end = take_run(reader, &mut reply)?;
        if is_end {
            return unless_too_long(reply);
        }
    }
    Err(NodeFault::Broken)
}

/// Reads a reply line, with its newline.
pub(crate) fn read_reply<B: BufRead>(alloc: Global, reader: &mut B) -> Result<String, NodeFault>
    ensures ok { IfOk result (λ reply.
        Consumes (B.remaining reader.old) (B.remaining reader.new) (string_bytes reply)
        × IsReplyLine (string_bytes reply)) }
    ensures err { IfErr result (λ fault. ReadsNone fault (B.remaining reader.old) (B.remaining reader.new)) }
{
    let line = read_line(alloc, reader)?;
    match String::from_utf8(line) {
        Ok(reply) => Ok(reply),
        Err(_) => Err(NodeFault::Broken),
    }
}
