//! Who takes items out of a mailbox.

ghost use Rattle.std.specs.Prelude.{◌≡◌, ◌∷◌, ◌++◌, [], true, false, not, is_some, MatchOption};
ghost use Rattle.crossbeam_channel.specs.Claims.{view, IsSeatAt};
ghost use Rattle.crossbeam_channel.specs.Ends.{receives_on};

use crate::rule::{MailboxRule, PassView, SentItem, Take};
use crossbeam_channel::{Pass, RuledReceiver};
use std::sync::Wait;

/// The one taker of a mailbox.
#[derive(Drop)]
pub struct Taker<T: Drop> {
    pub(crate) channel: RuledReceiver<SentItem<T>, PassView<T>, MailboxRule>,
    pub(crate) pass: Pass<SentItem<T>, PassView<T>>,
    /// Whether its last wait for an item found that no sender is left.
    pub(crate) no_sender_left: bool,
    ghost seated: { IsSeatAt (receives_on channel) pass },
    ghost takes: { ((view pass).sends ≡ false) × ((view pass).takes ≡ true) },
}

impl<T: Drop> Taker<T> {
    ghost use Rattle.desk_mailbox.specs.Ends.{taken_by, no_sender_left, IsSameTaker};

    /// Takes an item, and waits while the mailbox is empty. `None` where the channel tells that no sender is left; the
    /// contract does not say when it tells that, but records that it did.
    pub fn take<R: Wait>(self, rt: &R) -> (Taker<T>, Option<SentItem<T>>)
        ensures same { IsSameTaker self result.0 }
        ensures took { MatchOption result.1 (taken_by result.0 ≡ taken_by self)
            (λ sent. taken_by result.0 ≡ taken_by self ++ sent ∷ []) }
        ensures left { no_sender_left result.0 ≡ not (is_some result.1) }
    {
        let Taker {
            channel,
            mut pass,
            no_sender_left: _,
        } = self;
        let outcome = channel.recv_as::<Take, R>(rt, &mut pass);
        let taker = Taker {
            channel,
            pass,
            no_sender_left: outcome.is_err(),
        };
        match outcome {
            Ok(sent) => (taker, Some(sent)),
            Err(_) => (taker, None),
        }
    }

    /// Takes an item that is there, without waiting for one. `None` where none is there.
    pub fn try_take<R: Wait>(self, rt: &R) -> (Taker<T>, Option<SentItem<T>>)
        ensures same { IsSameTaker self result.0 }
        ensures took { MatchOption result.1 (taken_by result.0 ≡ taken_by self)
            (λ sent. taken_by result.0 ≡ taken_by self ++ sent ∷ []) }
        ensures left { no_sender_left result.0 ≡ no_sender_left self }
    {
        let Taker {
            channel,
            mut pass,
            no_sender_left,
        } = self;
        let outcome = channel.try_recv_as::<Take, R>(rt, &mut pass);
        let taker = Taker {
            channel,
            pass,
            no_sender_left,
        };
        match outcome {
            Ok(there) => (taker, Some(there)),
            Err(_) => (taker, None),
        }
    }
}
