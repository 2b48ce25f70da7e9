//! Who puts items into a mailbox.

ghost use Rattle.std.specs.Prelude.{◌≡◌, ◌∷◌, ◌++◌, [], true, MatchResult};
ghost use Rattle.crossbeam_channel.specs.Claims.{view, IsSeatAt};
ghost use Rattle.crossbeam_channel.specs.Ends.{sends_on};

use crate::rule::{MailboxRule, PassView, Put, SentItem};
use crossbeam_channel::{Pass, RuledSender, SendError, TrySendError};
use std::sync::Wait;

/// One of the senders of a mailbox.
#[derive(Drop)]
pub struct Sender<T: Drop> {
    pub(crate) channel: RuledSender<SentItem<T>, PassView<T>, MailboxRule>,
    pub(crate) pass: Pass<SentItem<T>, PassView<T>>,
    pub(crate) number: u64,
    /// How many of its puts were refused; the count begins again after its greatest value.
    pub(crate) refused_puts: u64,
    ghost seated: { IsSeatAt (sends_on channel) pass },
    ghost sends: { ((view pass).sends ≡ true) × ((view pass).number ≡ number) },
}

impl<T: Drop> Sender<T> {
    ghost use Rattle.desk_mailbox.specs.Ends.{put_by, refused_puts, IsSameSender, HasRefusedOnce};

    /// The number by which the taker knows this sender.
    pub fn number(&self) -> u64
        ensures { result ≡ self.now.number }
    {
        self.number
    }

    // The same sender, where one put more was refused.
    fn with_one_refused(self) -> Sender<T>
        ensures same { IsSameSender self result }
        ensures put { put_by result ≡ put_by self }
        ensures refused { HasRefusedOnce self result }
    {
        let Sender {
            channel,
            pass,
            number,
            refused_puts,
        } = self;
        Sender {
            channel,
            pass,
            number,
            refused_puts: refused_puts.wrapping_add(1),
        }
    }

    /// Puts an item, and waits while the mailbox is full. The item comes back where the taker has ended.
    pub fn put<R: Wait>(self, rt: &R, item: T) -> (Sender<T>, Result<(), T>)
        ensures same { IsSameSender self result.0 }
        ensures put { MatchResult result.1 (λ _. put_by result.0 ≡ put_by self ++ item ∷ [])
            (λ back. (back ≡ item) × (put_by result.0 ≡ put_by self)) }
        ensures refused { MatchResult result.1 (λ _. refused_puts result.0 ≡ refused_puts self)
            (λ _. HasRefusedOnce self result.0) }
    {
        let Sender {
            channel,
            mut pass,
            number,
            refused_puts,
        } = self;
        let sent = SentItem {
            sender: number,
            item,
        };
        let outcome = channel.send_as::<Put, R>(rt, &mut pass, sent);
        let sender = Sender {
            channel,
            pass,
            number,
            refused_puts,
        };
        match outcome {
            Ok(()) => (sender, Ok(())),
            Err(SendError::Disconnected(sent)) => (sender.with_one_refused(), Err(sent.item)),
            Err(SendError::OutOfMemory(sent)) => (sender.with_one_refused(), Err(sent.item)),
        }
    }

    /// Puts an item where there is room. It comes back where the mailbox is full or the taker has ended.
    pub fn try_put<R: Wait>(self, rt: &R, item: T) -> (Sender<T>, Result<(), T>)
        ensures same { IsSameSender self result.0 }
        ensures put { MatchResult result.1 (λ _. put_by result.0 ≡ put_by self ++ item ∷ [])
            (λ back. (back ≡ item) × (put_by result.0 ≡ put_by self)) }
        ensures refused { MatchResult result.1 (λ _. refused_puts result.0 ≡ refused_puts self)
            (λ _. HasRefusedOnce self result.0) }
    {
        let Sender {
            channel,
            mut pass,
            number,
            refused_puts,
        } = self;
        let sent = SentItem {
            sender: number,
            item,
        };
        let outcome = channel.try_send_as::<Put, R>(rt, &mut pass, sent);
        let sender = Sender {
            channel,
            pass,
            number,
            refused_puts,
        };
        match outcome {
            Ok(()) => (sender, Ok(())),
            Err(TrySendError::Full(sent)) => (sender.with_one_refused(), Err(sent.item)),
            Err(TrySendError::Disconnected(sent)) => (sender.with_one_refused(), Err(sent.item)),
            Err(TrySendError::OutOfMemory(sent)) => (sender.with_one_refused(), Err(sent.item)),
        }
    }
}
