//! The words that the host gives the program.

ghost use Rattle.std.specs.Prelude.{IfOk, IfErr, codes};
ghost use Rattle.desk_options.specs.Faults.{IsRefusalBy};
ghost use Rattle.desk_options.specs.Host.{AreInRange};

use crate::command_line::{Options, OptionsFault, options};
use std::env;
use std::io::ErrorKind;

/// The words after the program's name. They are refused where one is no text; where memory is, that is
/// `WantOfMemory`.
pub fn given_words(host: &HostRuntime) -> Result<Vec<String>, OptionsFault>
    ensures refused { IfErr result (IsRefusalBy (codes "desk: a word of the command line is no text\n")) }
{
    match env::args(host) {
        Ok(words) => Ok(words.skip(1).collect(host.alloc())?),
        Err(error) if error.kind() == ErrorKind::InvalidData => Err(OptionsFault::refused(
            host.alloc(),
            "desk: a word of the command line is no text\n",
        )),
        Err(_) => Err(OptionsFault::WantOfMemory),
    }
}

/// What the words after the program's name ask for, as `options` reads them; its faults are those of `given_words` and
/// of `options`.
pub fn given_options(host: &HostRuntime) -> Result<Options, OptionsFault>
    ensures range { IfOk result AreInRange }
{
    let given = given_words(host)?;
    let mut words = Vec::new(host.alloc());
    for word in &given {
        words.push(word.as_str())?;
    }
    options(host.alloc(), words.as_slice())
}
