//! The words of a keeper to a session.

ghost use Rattle.std.specs.Prelude.{◌≡◌, MatchOption};
ghost use Rattle.desk_sessions.specs.Words.{HasMissedOnce};

use crossbeam_channel::Receiver;
use desk_published::{BoardName, Reported};
use desk_types::{ClientId, RequestNumber};
use std::sync::Wait;

/// The keeper's words to a session. It counts how often it found that none will come.
#[derive(Drop)]
pub struct KeeperWords<B: BoardName> {
    channel: Receiver<Reported<B>>,
    /// How often no word could come; the count begins again after its greatest value.
    missed: u64,
}

impl<B: BoardName> KeeperWords<B> {
    /// The words of this channel, none of which was missed.
    pub fn new(channel: Receiver<Reported<B>>) -> KeeperWords<B>
        ensures missed { result.missed ≡ 0 }
    {
        KeeperWords { channel, missed: 0 }
    }

    /// The channel of the words.
    pub fn into_channel(self) -> Receiver<Reported<B>> {
        let KeeperWords { channel, missed: _ } = self;
        channel
    }

    /// Waits for the word of a request, and skips those of others. `None` where the channel tells that no word will
    /// come, since the keeper has ended; the contract does not say when it tells that, but counts how often it did.
    pub fn await_word<R: Wait>(
        self,
        rt: &R,
        client: ClientId,
        number: RequestNumber,
    ) -> (KeeperWords<B>, Option<Reported<B>>)
        ensures word { MatchOption result.1 (HasMissedOnce self.missed result.0.missed)
            (λ t. (t.client ≡ client) × (t.number ≡ number) × (result.0.missed ≡ self.missed)) }
    {
        let KeeperWords { channel, missed } = self;
        for _ in rt.forever() {
            match channel.recv(rt) {
                Ok(word) => {
                    if word.client() == client && word.number() == number {
                        return (KeeperWords { channel, missed }, Some(word));
                    }
                }
                Err(_) => {
                    let missed = missed.wrapping_add(1);
                    return (KeeperWords { channel, missed }, None);
                }
            }
        }
        unreachable!()
    }
}
