//! What a session waits for.

ghost use Rattle.std.specs.Prelude.{◌≡◌};
ghost use Rattle.desk_threads.specs.Waiting.{is_commit, is_waiting};

use desk_types::Refusal;

/// What a session waits for: one thing at a time.
#[derive(Drop)]
pub(crate) enum Awaited {
    Nothing,
    /// The commit of its request.
    Commit,
    /// That its request, which was committed at this place, is published.
    Publish(u64),
    /// That it gets this refusal.
    Refusal(Refusal),
}

impl Awaited {
    pub(crate) fn is_commit(&self) -> bool
        ensures { result ≡ is_commit self.now }
    {
        match self {
            Awaited::Nothing => false,
            Awaited::Commit => true,
            Awaited::Publish(_) => false,
            Awaited::Refusal(_) => false,
        }
    }

    /// Whether it is the commit or the publish of a request.
    pub(crate) fn is_open(&self) -> bool
        ensures { result ≡ is_waiting self.now }
    {
        match self {
            Awaited::Nothing => false,
            Awaited::Commit => true,
            Awaited::Publish(_) => true,
            Awaited::Refusal(_) => false,
        }
    }
}
