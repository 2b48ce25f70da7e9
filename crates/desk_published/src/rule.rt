//! The rule of the published list: what each seat, the writer's and each reader's, has seen is a prefix of it. Its two
//! kinds of step are a publish and an enter.

use crate::board_name::BoardName;
use crate::published::PublishedBoard;
use crossbeam_utils::rule::{Outcome, Protocol};
use desk_types::Entry;
use std::collections::LinkedList;

/// What a seat has seen. No value of it is made.
pub struct SeatView {
    pub seen: LinkedList<Entry>,
}

/// At each moment what every seat has seen is a prefix of the list.
pub struct PrefixRule;

impl<B: BoardName> Protocol<PublishedBoard<B>, SeatView> for PrefixRule {
    ghost use Rattle.std.specs.Prelude.{[]};
    ghost use Rattle.desk_published.specs.PrefixRule.{HaveSeenPrefixes, has_seen};

    ghost holds = { λ list views. HaveSeenPrefixes list views };

    ghost first = { has_seen [] };
}

/// The kind "publish": the list that the writer publishes begins with the one before.
pub struct Publish;

impl<B: BoardName> Outcome<PublishedBoard<B>, SeatView> for Publish {
    ghost use Rattle.desk_published.specs.PrefixRule.{Sees};

    ghost then = { λ view old new after. Sees view new after };
}

/// The kind "enter": the list that a reader sees begins with the one that it saw before.
pub struct Enter;

impl<B: BoardName> Outcome<PublishedBoard<B>, SeatView> for Enter {
    ghost use Rattle.desk_published.specs.PrefixRule.{Sees};

    ghost then = { λ view old new after. Sees view new after };
}
