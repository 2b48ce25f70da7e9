//! A mailbox at its beginning.

ghost use Rattle.std.specs.Prelude.{◌≡◌, ◌<◌, ◌^◌, [], false, All, IfOk, length};
ghost use Rattle.desk_mailbox.specs.Ends.{capacity_of, taken_by, no_sender_left, first_numbers, numbers_of};
ghost use Rattle.desk_mailbox.specs.Ends.{IsNewSender};

use crate::rule::{AddSender, MailboxRule, PassView, SentItem};
use crate::sender::Sender;
use crate::taker::Taker;
use crossbeam_channel::bounded_with;
use std::alloc::{AllocError, Global};

/// A mailbox that holds at most `capacity` items, with its taker and so many senders, in the order of their numbers,
/// which begin with 0.
pub fn open_mailbox<T: Drop>(
    alloc: Global,
    capacity: usize,
    senders: usize,
) -> Result<(Taker<T>, Vec<Sender<T>>), AllocError>
    requires capacity { 0 < capacity }
    requires senders { senders < 2 ^ 32 }
    ensures capacity { IfOk result (λ ends. capacity_of ends.0 ≡ capacity) }
    ensures count { IfOk result (λ ends. length ends.1.items ≡ senders) }
    ensures taker { IfOk result (λ ends. taken_by ends.0 ≡ []) }
    ensures left { IfOk result (λ ends. no_sender_left ends.0 ≡ false) }
    ensures senders { IfOk result (λ ends. All (IsNewSender ends.0) ends.1.items) }
    ensures numbers { IfOk result (λ ends. numbers_of ends.1.items ≡ first_numbers senders) }
{
    let mut all = Vec::new(alloc);
    all.reserve(senders)?;
    let (sending, channel, mut pass) = bounded_with::<
        SentItem<T>,
        PassView<T>,
        MailboxRule,
        Global,
    >(alloc, capacity)?;
    for k in 0..senders {
        let channel = sending.try_clone()?;
        let own = channel.another::<AddSender>(&mut pass);
        all.push_reserved(Sender {
            channel,
            pass: own,
            number: k as u64,
            refused_puts: 0,
        });
    }
    let taker = Taker {
        channel,
        pass,
        no_sender_left: false,
    };
    Ok((taker, all))
}
