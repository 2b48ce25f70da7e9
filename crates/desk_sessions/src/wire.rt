//! The line of a keeper's mailbox.

ghost use Rattle.std.specs.Prelude.{◌≡◌, ◌⊎◌, ◌∷◌, ◌++◌, [], None, IfOk, IfErr, OnErr, MatchResult, MatchBool};
ghost use Rattle.std.specs.Result.{result_map_both};
ghost use Rattle.desk_types.specs.declared.refusal.Refusal.TheVariants as refusals;
ghost use Rattle.desk_mailbox.specs.Ends.{put_by, refused_puts, IsSameSender, HasRefusedOnce};
ghost use Rattle.desk_mailbox.specs.declared.item.Item.TheVariants as items;
ghost use Rattle.desk_sessions.specs.Exchanges.{Asked, saying};
ghost use Rattle.desk_sessions.specs.Words.{HasMissedOnce};

use crate::line::Line;
use crate::words::KeeperWords;
use desk_mailbox::{Item, Sender};
use desk_published::{BoardName, Reported};
use desk_types::{Entry, Refusal};
use std::sync::Wait;

/// Puts requests into a keeper's mailbox, and waits for its words. A request's session is the number of the sender.
#[derive(Drop)]
pub struct Wire<B: BoardName> {
    pub sender: Sender<Item>,
    /// The keeper's words to this session.
    pub words: KeeperWords<B>,
}

/// Puts a session's request, and says whether it was put. It is not where the keeper has ended.
fn put_request<R: Wait>(rt: &R, sender: Sender<Item>, entry: Entry) -> (Sender<Item>, bool)
    ensures same { IsSameSender sender result.0 }
    ensures put { MatchBool result.1
        (put_by result.0 ≡ put_by sender ++ items.Request sender.number entry ∷ [])
        (put_by result.0 ≡ put_by sender) }
    ensures refused { MatchBool result.1 (refused_puts result.0 ≡ refused_puts sender)
        (HasRefusedOnce sender result.0) }
{
    let session = sender.number();
    let (sender, put) = sender.put(rt, Item::Request { session, entry });
    match put {
        Ok(()) => (sender, true),
        Err(back) => {
            drop(back);
            (sender, false)
        }
    }
}

impl<B: BoardName> Line<B> for Wire<B> {
    ghost use Rattle.std.specs.Prelude.{ℕ, None};

    ghost exchanged = { λ w. None };

    /// The number of its sender, by which the keeper knows the session.
    ghost Preserved = { ℕ };

    ghost preserved = { λ w. w.sender.number };

    /// Puts the request, and waits for its word. Words of other requests are skipped. `NodeStopped` where the keeper
    /// has ended.
    fn ask<R: Wait>(self, rt: &R, entry: Entry) -> (Wire<B>, Result<Reported<B>, Refusal>)
        ensures reported { IfOk result.1 (λ t. (t.client ≡ entry.client) × (t.number ≡ entry.number)) }
        ensures refused { IfErr result.1 (λ r. r ≡ refusals.NodeStopped) }
        // It is refused only where the mailbox did not take the request, or the channel reported that no word will
        // come.
        ensures ended { OnErr result.1 (HasRefusedOnce self.sender result.0.sender
            ⊎ HasMissedOnce self.words.missed result.0.words.missed) }
        ensures asked { Asked None None entry
            (result_map_both (λ t. saying t.word t.published) (λ r. r) result.1) }
        // A request of which a word came was put once, and any other at most once.
        ensures put { MatchResult result.1
            (λ _. put_by result.0.sender ≡ put_by self.sender ++ items.Request self.sender.number entry ∷ [])
            (λ _. (put_by result.0.sender ≡ put_by self.sender)
            ⊎ (put_by result.0.sender ≡ put_by self.sender ++ items.Request self.sender.number entry ∷ [])) }
        ensures sender { IsSameSender self.sender result.0.sender }
        ensures preserved { result.0.sender.number ≡ self.sender.number }
    {
        let Wire { sender, words } = self;
        let (client, number) = (entry.client, entry.number);
        let (sender, is_put) = put_request(rt, sender, entry);
        if !is_put {
            return (Wire { sender, words }, Err(Refusal::NodeStopped));
        }
        let (words, word) = words.await_word(rt, client, number);
        match word {
            Some(word) => (Wire { sender, words }, Ok(word)),
            None => (Wire { sender, words }, Err(Refusal::NodeStopped)),
        }
    }
}
