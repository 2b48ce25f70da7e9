//! The keys of a node's ports, and the names of the files of which they are read.

ghost use Rattle.std.specs.Prelude.{◌≡◌, true, IfOk, IfErr, is_some, option_map, string_bytes};
ghost use Rattle.desk_output.specs.declared.printing.TheConstants.{FAILED};

use desk_file::read_given_key;
use desk_key::Key;
use desk_options::ServeOptions;
use std::snapshot::Snapshot;

/// What the file of a key gives, where one is named. Nothing else makes one than reading such a file.
pub(crate) struct FileKey {
    key: Option<Key>,
    /// The name of the file, as a contract sees it.
    name: Snapshot<Option<String>>,
    ghost given: { is_some key ≡ is_some name.value },
}

// Written out, so that callers need not prove each part's drop.
impl Drop for FileKey {
    fn drop(self) {
        let FileKey { key: _, name: _ } = self;
    }
}

/// The same key once more, where there is one.
pub(crate) fn copied_key(key: &Option<Key>) -> Option<Key>
    ensures { result ≡ key.now }
{
    match key {
        Some(key) => Some(key.copy()),
        None => None,
    }
}

/// Whether two names are the same, where any is given.
fn are_same_names(one: &Option<String>, other: &Option<String>) -> bool
    ensures given { result ≡ true → is_some one.now ≡ is_some other.now }
    ensures text { result ≡ true →
        option_map (λ n. string_bytes n) one.now ≡ option_map (λ n. string_bytes n) other.now }
{
    match one {
        Some(one) => match other {
            Some(other) => one.as_str() == other.as_str(),
            None => false,
        },
        None => other.is_none(),
    }
}

impl FileKey {
    /// Reads the file of this name, where one is given. Else the reason is printed to standard error, and the exit
    /// status is the answer.
    fn read(host: &HostRuntime, name: &Option<String>) -> Result<FileKey, u8>
        ensures name { IfOk result (λ read. read.name.value ≡ name.now) }
        ensures fault { IfErr result (λ status. status ≡ FAILED) }
    {
        match read_given_key(host, name) {
            Ok(key) => Ok(FileKey {
                key,
                name: Snapshot::of(name),
            }),
            Err(status) => Err(status),
        }
    }

    /// The same once more, where the file is named once more.
    fn once_more(&self, name: &Option<String>) -> FileKey
        requires given { is_some self.now.name.value ≡ is_some name.now }
        requires text { option_map (λ n. string_bytes n) self.now.name.value
            ≡ option_map (λ n. string_bytes n) name.now }
        ensures key { result.key ≡ self.now.key }
        ensures name { result.name.value ≡ name.now }
    {
        FileKey {
            key: copied_key(&self.key),
            name: Snapshot::of(name),
        }
    }

    /// The key, where there is one.
    pub(crate) fn into_key(self) -> Option<Key>
        ensures { result ≡ self.key }
    {
        let FileKey { key, name: _ } = self;
        key
    }
}

/// The keys of a node's ports: that of the nodes', where a file is named for it, and that of sessions. A file that is
/// named for both is read once.
pub(crate) fn node_keys(
    host: &HostRuntime,
    options: &ServeOptions,
) -> Result<(FileKey, FileKey), u8>
    // Each is read of the file that is named for its port.
    ensures peers { IfOk result (λ keys. keys.0.name.value ≡ options.now.key) }
    ensures sessions { IfOk result (λ keys. keys.1.name.value ≡ options.now.client_key) }
    // Where a file is named for a port, that port has a key.
    ensures given { IfOk result (λ keys. (is_some keys.0.key ≡ is_some options.now.key)
        × (is_some keys.1.key ≡ is_some options.now.client_key)) }
    ensures fault { IfErr result (λ status. status ≡ FAILED) }
{
    let peers = FileKey::read(host, &options.key)?;
    // A pipe gives its bytes but once.
    let sessions = if are_same_names(&options.key, &options.client_key) {
        peers.once_more(&options.client_key)
    } else {
        FileKey::read(host, &options.client_key)?
    };
    Ok((peers, sessions))
}
