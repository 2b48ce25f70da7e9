//! Readers of texts and of names of units.

ghost use Rattle.std.specs.Prelude.{◌≡◌, Option, None, Some, if◌then◌else◌};
ghost use Rattle.std.specs.Option.{option_map};
ghost use Rattle.std.specs.Str.{is_utf8};
ghost use Rattle.desk_types.specs.UnitName.{is_unit_name};
ghost use Rattle.desk_codec.specs.Reading.{Gives, first_short_text, first_text, first_unit};

use crate::fault::{SpellingFault, fault_of_refusal};
use crate::field::read_short;
use desk_types::{BoundedText, UnitName};
use std::alloc::Global;

/// The text of these bytes, where they are UTF-8.
fn text_of(bytes: &[u8]) -> Option<&str>
    ensures { option_map (λ s. s.now) result ≡ (if is_utf8 bytes.now then Some bytes.now else None) }
{
    match str::from_utf8(bytes) {
        Ok(text) => Some(text),
        Err(_) => None,
    }
}

/// One byte of length, and that many bytes of UTF-8.
#[tactic(auto, unfolding(crate::specs::Reading::first_short_text))]
pub(crate) fn read_short_text(bytes: &[u8]) -> Result<(&str, &[u8]), SpellingFault>
    ensures { Gives (λ x. (x.0.now, x.1.now)) result (first_short_text bytes.now) }
{
    let (text, rest) = read_short(bytes)?;
    match text_of(text) {
        None => Err(SpellingFault::NoSpelling),
        Some(text) => Ok((text, rest)),
    }
}

/// A text of at most MOST bytes.
#[tactic(auto, unfolding(crate::specs::Reading::first_text))]
pub(crate) fn read_text<const MOST: usize>(
    alloc: Global,
    bytes: &[u8],
) -> Result<(BoundedText<MOST>, &[u8]), SpellingFault>
    ensures { Gives (λ x. (x.0, x.1.now)) result (first_text MOST bytes.now) }
{
    let (text, rest) = read_short_text(bytes)?;
    match BoundedText::new(alloc, text)? {
        None => Err(SpellingFault::NoSpelling),
        Some(text) => Ok((text, rest)),
    }
}

/// The name of a unit that this text is.
fn unit_of(alloc: Global, text: &str) -> Result<UnitName, SpellingFault>
    ensures { Gives (λ unit. unit) result (if is_unit_name text.now then Some text.now else None) }
{
    match UnitName::new(alloc, text) {
        Ok(unit) => Ok(unit),
        Err(refusal) => Err(fault_of_refusal(refusal)),
    }
}

/// The name of a unit.
#[tactic(auto, unfolding(crate::specs::Reading::first_unit))]
pub(crate) fn read_unit(alloc: Global, bytes: &[u8]) -> Result<(UnitName, &[u8]), SpellingFault>
    ensures { Gives (λ x. (x.0, x.1.now)) result (first_unit bytes.now) }
{
    let (text, rest) = read_short_text(bytes)?;
    let unit = unit_of(alloc, text)?;
    Ok((unit, rest))
}
