//! Whether a node acts under its number.

ghost use Rattle.std.specs.Prelude.{◌≡◌};
ghost use Rattle.desk_epoch_node.specs.Replacements.{names_token, standing_after, token_of, token_with};

use crate::replacement::Replacement;

/// What a node does under its number in an epoch.
#[derive(Clone, Copy)]
pub enum Standing {
    /// It acts: the number has its token.
    Acts,
    /// Its token is not yet named: it only asks, and takes what it is told.
    Awaits,
    /// Another token was named after its own: it does nothing any more.
    Replaced,
}

/// The token of a number after one replacement more.
fn token_with(number: u8, token: u64, replacement: &Replacement) -> u64
    ensures { result ≡ token_with number token replacement.now }
{
    if replacement.node == number {
        replacement.token
    } else {
        token
    }
}

/// The token of a number.
fn token_of(replacements: &[Replacement], number: u8) -> u64
    ensures { result ≡ token_of replacements.now number }
{
    let mut token = 0;
    for replacement in replacements {
        token = token_with(number, token, replacement);
    }
    token
}

/// Whether the token was named for the number.
fn names_token(replacements: &[Replacement], number: u8, token: u64) -> bool
    ensures { result ≡ names_token number token replacements.now }
{
    replacements.iter().any(|replacement| replacement.node == number && replacement.token == token)
}

/// What a node with a token does under its number after these replacements.
pub fn standing_after(replacements: &[Replacement], number: u8, token: u64) -> Standing
    ensures { result ≡ standing_after replacements.now number token }
{
    if token_of(replacements, number) == token {
        return Standing::Acts;
    }
    if token == 0 || names_token(replacements, number, token) {
        return Standing::Replaced;
    }
    Standing::Awaits
}
