//! Readers of numbers from bytes that are still coming.

ghost use Rattle.std.specs.Int.{w32, w64};
ghost use Rattle.desk_codec.specs.Fronts.{GivesFront, front_byte, front_number};

use crate::fault::Lack;

pub(crate) fn front_byte(bytes: &[u8]) -> Result<(u8, &[u8]), Lack>
    ensures { GivesFront (λ x. (x.0, x.1.now)) result (front_byte bytes.now) }
{
    match bytes {
        [] => Err(Lack::Needs),
        [first, rest @ ..] => Ok((*first, rest)),
    }
}

/// A number of four bytes.
pub(crate) fn front_u32(bytes: &[u8]) -> Result<(u32, &[u8]), Lack>
    ensures { GivesFront (λ x. (x.0, x.1.now)) result (front_number w32 bytes.now) }
{
    if bytes.len() < 4 {
        return Err(Lack::Needs);
    }
    let (front, rest) = bytes.split_at(4);
    let number = u32::from_be_bytes([front[0], front[1], front[2], front[3]]);
    Ok((number, rest))
}

/// A number of eight bytes.
pub(crate) fn front_u64(bytes: &[u8]) -> Result<(u64, &[u8]), Lack>
    ensures { GivesFront (λ x. (x.0, x.1.now)) result (front_number w64 bytes.now) }
{
    if bytes.len() < 8 {
        return Err(Lack::Needs);
    }
    let (front, rest) = bytes.split_at(8);
    let number = u64::from_be_bytes([
        front[0], front[1], front[2], front[3], front[4], front[5], front[6], front[7],
    ]);
    Ok((number, rest))
}
