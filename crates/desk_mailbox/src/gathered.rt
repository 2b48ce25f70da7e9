//! A mailbox at its end.

ghost use Rattle.std.specs.Prelude.{◌≡◌, ◌++◌, [], true, OnOk};
ghost use Rattle.crossbeam_channel.specs.Claims.{view, IsSeatAt};
ghost use Rattle.crossbeam_channel.specs.Ends.{receives_on};
ghost use Rattle.desk_mailbox.specs.Ends.{put_by, taken_by, SendsTo, IsSameSender, IsSameTaker};
ghost use Rattle.desk_mailbox.specs.Rule.{items_of, IsFirstOf};

use crate::rule::{Lend, MailboxRule, PassView, SentItem, Take};
use crate::sender::Sender;
use crate::taker::Taker;
use crossbeam_channel::{Pass, RuledReceiver};
use std::alloc::{AllocError, Global};
use std::snapshot::Snapshot;
use std::sync::Wait;

/// A taker that handles no more items, and what it found left in its mailbox.
#[derive(Drop)]
pub struct GatheredMailbox<T: Drop> {
    pub(crate) taker: Taker<T>,
    /// What was taken since, with its senders. Nobody handles it.
    pub left: Vec<SentItem<T>>,
    /// The pass as it was when the taker ended.
    pub(crate) at_end: Snapshot<Pass<SentItem<T>, PassView<T>>>,
    ghost left_is: { (view taker.pass).taken ≡ (view at_end.value).taken ++ left.items },
}

// Takes until the mailbox is empty.
fn take_all<T: Drop, R: Wait>(
    rt: &R,
    channel: &RuledReceiver<SentItem<T>, PassView<T>, MailboxRule>,
    mut pass: Pass<SentItem<T>, PassView<T>>,
    mut left: Vec<SentItem<T>>,
) -> (
    Pass<SentItem<T>, PassView<T>>,
    Vec<SentItem<T>>,
    Result<(), AllocError>,
)
    requires seat { IsSeatAt (receives_on channel.now) pass }
    requires sends { (view pass).sends ≡ true }
    requires takes { (view pass).takes ≡ true }
    ensures seat { IsSeatAt (receives_on channel.now) result.0 }
    ensures view { (more : _) × (view result.0 ≡ record (view pass) { taken = (view pass).taken ++ more })
        × (result.1.items ≡ left.items ++ more) }
    ensures empty { OnOk result.2 (items_of (view pass).number (view result.0).taken ≡ (view pass).put) }
{
    for _ in rt.forever() {
        if left.reserve(1).is_err() {
            return (pass, left, Err(AllocError));
        }
        match channel.try_recv_as::<Take, R>(rt, &mut pass) {
            Ok(sent) => left.push_reserved(sent),
            Err(_) => return (pass, left, Ok(())),
        }
    }
    unreachable!()
}

impl<T: Drop> GatheredMailbox<T> {
    ghost use Rattle.desk_mailbox.specs.Gathered.{taken_at_end};

    /// What the taker took so far is what it took when it ended; nothing is left yet.
    pub fn new(alloc: Global, taker: Taker<T>) -> GatheredMailbox<T>
        ensures taker { result.taker ≡ taker }
        ensures taken { taken_at_end result ≡ taken_by taker }
        ensures left { result.left.items ≡ [] }
    {
        let at_end = Snapshot::of(&taker.pass);
        GatheredMailbox {
            taker,
            left: Vec::new(alloc),
            at_end,
        }
    }

    /// Takes what is left in the mailbox. After Ok all that this sender put was taken before the end, or is left, each
    /// once and in order; also where memory was refused, when the rest is still in the mailbox, nothing else was taken
    /// of it. It waits where a sender is in the middle of a put.
    pub fn sender<R: Wait>(
        self,
        rt: &R,
        sender: Sender<T>,
    ) -> (GatheredMailbox<T>, Sender<T>, Result<(), AllocError>)
        requires { SendsTo self.taker sender }
        ensures taker { IsSameTaker self.taker result.0.taker }
        ensures sender { IsSameSender sender result.1 }
        ensures put { put_by result.1 ≡ put_by sender }
        ensures taken { taken_at_end result.0 ≡ taken_at_end self }
        ensures left { (more : _) × (result.0.left.items ≡ self.left.items ++ more) }
        ensures gathered { OnOk result.2 (items_of sender.number (taken_at_end self ++ result.0.left.items)
            ≡ put_by sender) }
        ensures at_most { IsFirstOf (items_of sender.number (taken_at_end self ++ result.0.left.items))
            (put_by sender) }
    {
        let GatheredMailbox {
            taker: Taker {
                channel,
                mut pass,
                no_sender_left,
            },
            left,
            at_end,
        } = self;
        let Sender {
            channel: sending,
            pass: lent,
            number,
            refused_puts,
        } = sender;
        sending.absorb::<Lend>(&mut pass, lent);
        let (mut pass, left, outcome) = take_all(rt, &channel, pass, left);
        sending.learn_as::<Take>(&mut pass);
        let back = sending.another::<Lend>(&mut pass);
        let gathered = GatheredMailbox {
            taker: Taker {
                channel,
                pass,
                no_sender_left,
            },
            left,
            at_end,
        };
        let sender = Sender {
            channel: sending,
            pass: back,
            number,
            refused_puts,
        };
        (gathered, sender, outcome)
    }
}
