//! The file of a key.

ghost use Rattle.std.specs.Prelude.{◌≡◌, ◌≤◌, ◌⊎◌, length, take, is_some, IfErr, IfOk, IfSome, OnOk};
ghost use Rattle.std.specs.Io.KnownBytes.{Consumes, IsAtEnd};
ghost use Rattle.desk_key.specs.KeyText.{IsKeyText};
ghost use Rattle.desk_output.specs.Printing.{PrintsFirst};
ghost use Rattle.desk_output.specs.declared.printing.TheConstants.{FAILED};
ghost use Rattle.desk_file.specs.Keys.{no_key_fault};
ghost use Rattle.desk_file.specs.declared.keys.NoKey.TheVariants as no_keys;

use desk_key::Key;
use desk_output::LinePart::Text;
use desk_output::refusal_status_with;
use desk_types::Refusal;
use std::fs::File;
use std::io::{Read, Write};
use std::os::unix::fs::PermissionsExt;

/// A file of a key has at most so many bytes.
const KEY_FILE_BYTES: usize = 4_096;

/// The rights of others than a file's owner.
const RIGHTS_OF_OTHERS: u32 = 0o077;

/// Why a file gives no key.
#[derive(Clone, Copy)]
enum NoKey {
    /// It could not be opened, looked at, or read to its end.
    Unread,
    /// Others than its owner may read or write it.
    Shared,
    /// Its text spells no key, or is too long.
    Text,
}

/// Reads to the end, into a room, and gives how many bytes there were. It is `Text` where there were as many as the
/// room has, or more, and `Unread` where a read fails.
fn read_whole<R: Read>(reader: &mut R, room: &mut [u8]) -> Result<usize, NoKey>
    ensures within { IfOk result (λ count. count ≤ length room.new) }
    ensures bytes { IfOk result (λ count.
        Consumes (R.remaining reader.old) (R.remaining reader.new) (take count room.new)) }
    ensures end { OnOk result (IsAtEnd (R.remaining reader.new)) }
    ensures room { length room.new ≡ length room.old }
    ensures fault { IfErr result (λ why. (why ≡ no_keys.Text) ⊎ (why ≡ no_keys.Unread)) }
{
    let mut at = 0;
    while at < room.len() {
        match reader.read(&mut room[at..]) {
            Ok(0) => return Ok(at),
            Ok(count) => at += count,
            Err(_) => return Err(NoKey::Unread),
        }
    }
    Err(NoKey::Text)
}

/// The key that a text spells.
fn key_of(text: &[u8]) -> Result<Key, NoKey>
    ensures key { IfOk result (λ key. IsKeyText text.now key.bytes) }
    ensures fault { IfErr result (λ why. why ≡ no_keys.Text) }
{
    match Key::from_text(text) {
        Ok(key) => Ok(key),
        Err(_) => Err(NoKey::Text),
    }
}

/// The key that the whole of a reader spells, which gives no more bytes than a file of a key has.
fn key_from<R: Read>(reader: &mut R) -> Result<Key, NoKey>
    ensures key { IfOk result (λ key. IfSome (R.remaining reader.old) (λ text. IsKeyText text key.bytes)) }
    ensures fault { IfErr result (λ why. (why ≡ no_keys.Text) ⊎ (why ≡ no_keys.Unread)) }
{
    let mut room = [0; KEY_FILE_BYTES + 1];
    let count = read_whole(reader, &mut room)?;
    match key_of(&room[..count]) {
        Ok(key) => Ok(key),
        Err(why) => Err(why),
    }
}

/// The key of an open file, of which its owner alone has rights.
fn key_in(file: &mut File) -> Result<Key, NoKey> {
    let Ok(metadata) = file.metadata() else {
        return Err(NoKey::Unread);
    };
    if metadata.permissions().mode() & RIGHTS_OF_OTHERS != 0 {
        return Err(NoKey::Shared);
    }
    key_from(file)
}

/// The fault that is reported of a file that gives no key.
fn no_key_fault(why: NoKey) -> Refusal
    ensures { result ≡ no_key_fault why }
{
    match why {
        NoKey::Unread => Refusal::ReadFault,
        NoKey::Shared => Refusal::WrongFile,
        NoKey::Text => Refusal::WrongFile,
    }
}

/// Tells the standard error why a file gives no key, and answers the exit status.
fn no_key_status<E: Write>(errors: &mut E, name: &str, why: NoKey) -> u8
    ensures status { result ≡ FAILED }
    ensures printed { PrintsFirst (E.contents errors.old) (E.contents errors.new) (no_key_fault why) }
{
    let refusal = no_key_fault(why);
    let [first, second, third] = match why {
        NoKey::Unread => [Text(name), Text(" can not be read"), Text("")],
        NoKey::Shared => [
            Text(name),
            Text(" may be read by others than its owner: chmod 600 "),
            Text(name),
        ],
        NoKey::Text => [
            Text(name),
            Text(" is no key: 64 hexadecimal digits are wanted"),
            Text(""),
        ],
    };
    refusal_status_with(
        errors,
        &refusal,
        &[Text("desk: "), first, second, third, Text("\n")],
    )
}

/// The key that a file gives. Where it gives none, the reason is printed to standard error, and the exit status is the
/// answer.
pub fn read_key(host: &HostRuntime, name: &str) -> Result<Key, u8>
    ensures { IfErr result (λ status. status ≡ FAILED) }
{
    let found = match File::open(host, name) {
        Ok(file) => {
            let mut file = file;
            key_in(&mut file)
        }
        Err(_) => Err(NoKey::Unread),
    };
    match found {
        Ok(key) => Ok(key),
        Err(why) => Err(no_key_status(&mut host.stderr(), name, why)),
    }
}

/// The same, where a file is named.
pub fn read_given_key(host: &HostRuntime, name: &Option<String>) -> Result<Option<Key>, u8>
    // Where a file is named, nothing goes on without a key.
    ensures given { IfOk result (λ key. is_some key ≡ is_some name.now) }
    ensures fault { IfErr result (λ status. status ≡ FAILED) }
{
    match name {
        Some(name) => Ok(Some(read_key(host, name.as_str())?)),
        None => Ok(None),
    }
}
