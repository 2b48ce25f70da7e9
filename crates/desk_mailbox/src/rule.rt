//! The rule of a mailbox, and what each step tells by it. Of these types but `SentItem` no value is made.

use crossbeam_channel::protocol::{Join, Lesson, Outcome, Protocol, Split};
use std::collections::LinkedList;

/// An item, with the number of the sender that put it.
#[derive(Drop)]
pub struct SentItem<T> {
    pub sender: u64,
    pub item: T,
}

/// What the holder of a pass knows of the mailbox: a sender its number and what it put, the taker how many senders were
/// made and what it took.
pub struct PassView<T> {
    pub sends: bool,
    pub number: u64,
    pub put: LinkedList<T>,
    pub takes: bool,
    pub senders: u64,
    pub taken: LinkedList<SentItem<T>>,
}

/// At each moment what a sender put is what was taken of it, and then what the mailbox holds of it.
pub struct MailboxRule;

impl<T> Protocol<SentItem<T>, PassView<T>> for MailboxRule {
    ghost use Rattle.desk_mailbox.specs.Rule.{Delivers, first_view};

    ghost holds = { Delivers };

    ghost first = { first_view };
}

/// The kind "put": the sender's view has one item more.
pub struct Put;

impl<T> Outcome<SentItem<T>, PassView<T>> for Put {
    ghost use Rattle.std.specs.Prelude.{◌≡◌};
    ghost use Rattle.desk_mailbox.specs.Rule.{after_put};

    ghost then = { λ view sent new. new ≡ after_put view sent };
}

impl<T> Lesson<SentItem<T>, PassView<T>> for Put {
    ghost fact = { λ view items. Unit {0} };
}

/// The kind "take": the taker's view has one item more.
pub struct Take;

impl<T> Outcome<SentItem<T>, PassView<T>> for Take {
    ghost use Rattle.std.specs.Prelude.{◌≡◌};
    ghost use Rattle.desk_mailbox.specs.Rule.{after_take};

    ghost then = { λ view sent new. new ≡ after_take view sent };
}

impl<T> Lesson<SentItem<T>, PassView<T>> for Take {
    ghost use Rattle.desk_mailbox.specs.Rule.{Balances};

    ghost fact = { Balances };
}

/// Makes one more sender beside the taker.
pub struct AddSender;

impl<T> Split<PassView<T>> for AddSender {
    ghost use Rattle.desk_mailbox.specs.Rule.{with_one_sender_more, new_sender};

    ghost left = { with_one_sender_more };

    ghost right = { new_sender };
}

/// Lends a sender's pass to the taker, and takes it back.
pub struct Lend;

impl<T> Join<PassView<T>> for Lend {
    ghost use Rattle.desk_mailbox.specs.Rule.{with_sender, nobody};

    ghost both = { with_sender };

    ghost spent = { nobody };
}

impl<T> Split<PassView<T>> for Lend {
    ghost use Rattle.desk_mailbox.specs.Rule.{without_sender, sender_alone};

    ghost left = { without_sender };

    ghost right = { sender_alone };
}
