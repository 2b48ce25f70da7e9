//! Readers of single fields that take no memory. Each gives what the bytes begin with and the bytes after it, or
//! `NoSpelling`.

ghost use Rattle.std.specs.Prelude.{◌≡◌, IfErr, Some, None, if◌then◌else◌};
ghost use Rattle.std.specs.Int.{w64};
ghost use Rattle.desk_types.specs.NumberRange.{is_node_number, is_token};
ghost use Rattle.desk_codec.specs.declared.fault.SpellingFault.TheVariants as faults;
ghost use Rattle.desk_codec.specs.Reading.{Gives, first_byte, first_number, first_seconds, first_bytes, first_short};
ghost use Rattle.desk_codec.specs.Reading.{first_status};

use crate::fault::SpellingFault;
use desk_types::{NodeNumber, Status, Token};

pub(crate) fn read_byte(bytes: &[u8]) -> Result<(u8, &[u8]), SpellingFault>
    ensures value { Gives (λ x. (x.0, x.1.now)) result (first_byte bytes.now) }
    ensures fault { IfErr result (λ fault. fault ≡ faults.NoSpelling) }
{
    match bytes {
        [] => Err(SpellingFault::NoSpelling),
        [first, rest @ ..] => Ok((*first, rest)),
    }
}

/// A number of eight bytes.
pub(crate) fn read_u64(bytes: &[u8]) -> Result<(u64, &[u8]), SpellingFault>
    ensures value { Gives (λ x. (x.0, x.1.now)) result (first_number w64 bytes.now) }
    ensures fault { IfErr result (λ fault. fault ≡ faults.NoSpelling) }
{
    if bytes.len() < 8 {
        return Err(SpellingFault::NoSpelling);
    }
    let (front, rest) = bytes.split_at(8);
    let number = u64::from_be_bytes([
        front[0], front[1], front[2], front[3], front[4], front[5], front[6], front[7],
    ]);
    Ok((number, rest))
}

/// Whole seconds, in eight bytes of two's complement.
#[tactic(auto, unfolding(crate::specs::Reading::first_seconds))]
pub(crate) fn read_seconds(bytes: &[u8]) -> Result<(i64, &[u8]), SpellingFault>
    ensures value { Gives (λ x. (x.0, x.1.now)) result (first_seconds bytes.now) }
    ensures fault { IfErr result (λ fault. fault ≡ faults.NoSpelling) }
{
    let (number, rest) = read_u64(bytes)?;
    Ok((number.cast_signed(), rest))
}

pub(crate) fn read_bytes(count: usize, bytes: &[u8]) -> Result<(&[u8], &[u8]), SpellingFault>
    ensures value { Gives (λ x. (x.0.now, x.1.now)) result (first_bytes count bytes.now) }
    ensures fault { IfErr result (λ fault. fault ≡ faults.NoSpelling) }
{
    if bytes.len() < count {
        return Err(SpellingFault::NoSpelling);
    }
    Ok(bytes.split_at(count))
}

/// One byte of length, and that many bytes.
pub(crate) fn read_short(bytes: &[u8]) -> Result<(&[u8], &[u8]), SpellingFault>
    ensures value { Gives (λ x. (x.0.now, x.1.now)) result (first_short bytes.now) }
    ensures fault { IfErr result (λ fault. fault ≡ faults.NoSpelling) }
{
    let (count, rest) = read_byte(bytes)?;
    read_bytes(count as usize, rest)
}

#[tactic(auto, unfolding(crate::specs::Reading::first_status))]
pub(crate) fn read_status(bytes: &[u8]) -> Result<(Status, &[u8]), SpellingFault>
    ensures value { Gives (λ x. (x.0, x.1.now)) result (first_status bytes.now) }
    ensures fault { IfErr result (λ fault. fault ≡ faults.NoSpelling) }
{
    let (byte, rest) = read_byte(bytes)?;
    match Status::of_number(byte) {
        None => Err(SpellingFault::NoSpelling),
        Some(status) => Ok((status, rest)),
    }
}

/// The node that has this number in its group.
pub(crate) fn node_of(number: u8) -> Result<NodeNumber, SpellingFault>
    ensures { Gives (λ node. node) result (if is_node_number number then Some number else None) }
{
    match NodeNumber::new(number) {
        None => Err(SpellingFault::NoSpelling),
        Some(node) => Ok(node),
    }
}

/// The token that is this number.
pub(crate) fn token_of(number: u64) -> Result<Token, SpellingFault>
    ensures { Gives (λ token. token) result (if is_token number then Some number else None) }
{
    match Token::new(number) {
        None => Err(SpellingFault::NoSpelling),
        Some(token) => Ok(token),
    }
}
