//! What is true of every running group of keepers of nodes over epochs.
#![tactic(auto)]

ghost use Rattle.desk_epoch_keepers.specs.Agreement.{KeeperHistoryStays, KeepersMakeNodes, PublishedHistoriesAgree};
ghost use Rattle.desk_epoch_keepers.specs.Agreement.{PublishedHistoryBoardsAgree};
ghost use Rattle.desk_epoch_keepers.specs.Agreement.{PublishedHistoryBoardsConsistent, PublishedHistoryIdentifiersStay};
ghost use Rattle.desk_epoch_keepers.specs.Agreement.{PublishedHistoryIsRising, PublishedHistoryReplyHeld};
ghost use Rattle.desk_epoch_keepers.specs.Agreement.{PublishedHistoryRepliesAgree, PublishedHistoryRepliesStay};
ghost use Rattle.desk_epoch_keepers.specs.Agreement.{ReadHistoryRepliesAgree};
ghost use Rattle.desk_epoch_keepers.specs.Agreement.{OneHistory, HistoryRowsAreReplies};
ghost use Rattle.desk_epoch_keepers.specs.Members.{BoardsByTokensAgree, BoardsByTokensConsistent};
ghost use Rattle.desk_epoch_keepers.specs.Members.{HistoryByTokensStays, IdentifiersByTokensStay};
ghost use Rattle.desk_epoch_keepers.specs.Members.{OneHistoryByTokens, PublishedByTokensAgree};
ghost use Rattle.desk_epoch_keepers.specs.Members.{PublishedByTokensRises, ReadByTokensAgree, RepliesByTokensAgree};
ghost use Rattle.desk_epoch_keepers.specs.Members.{RepliesByTokensStay, RowsByTokensAreReplies, RowsByTokensHeld};
ghost use Rattle.desk_epoch_keepers.specs.Members.{TokenKeepersMakeNodes};
ghost use Rattle.desk_epoch_keepers.specs.Starts.{OpenedIsStart};
ghost use Rattle.desk_epoch_keepers.specs.TokenTurns.{PublishedByTokensIsCommitted, TurnsByTokensAreActs};
ghost use Rattle.desk_epoch_keepers.specs.TokenTurns.{TurnsByTokensShowAll};
ghost use Rattle.desk_epoch_keepers.specs.Turns.{TurnsAreActs, TurnsPublishHistory, TurnsShowAll};

use desk_epoch_stores::EpochStores;
use desk_threads::Out;

/// That what `group` and `members` speak of is what keepers promise. It does nothing: its clauses are the facts.
pub fn turns<T: EpochStores, O: Out>()
    // What `Keeper::run_turns` promises of a turn, and of what it does between two, is an act of a group.
    ensures acts { TurnsAreActs T.may_hold T.Store.StateStore O.Out }
    // What is published, over all turns and starts, is the first of what the node has committed of all epochs.
    ensures published { TurnsPublishHistory T.may_hold T.Store.StateStore O.Out }
    // Where a keeper says after a turn that all is published, that is all that its node has committed.
    ensures whole { TurnsShowAll T.may_hold T.Store.StateStore O.Out }
    // So it is where numbers have nodes with other tokens: turns are acts of a group of `members`,
    ensures acts_by_tokens { TurnsByTokensAreActs T.may_hold T.Store.StateStore O.Out }
    // and what each keeper publishes is the first of what its node has committed, and all of that where it says so.
    ensures published_by_tokens { PublishedByTokensIsCommitted T.may_hold T.Store.StateStore O.Out }
    ensures whole_by_tokens { TurnsByTokensShowAll T.may_hold T.Store.StateStore O.Out }
    // What `open_epochs` promises is such a start.
    ensures starts { OpenedIsStart T.may_hold T.Store.StateStore }
{}

/// What is true of every group of three or five keepers of nodes over epochs, whatever turns of items they take, in
/// whatever order, whenever they begin an epoch, and whenever they end and are started again. Each packet that is taken
/// was handed out before for the node that takes it. The store of a past epoch that is read to tell its log is found
/// with the log that was saved in it. It does nothing: its clauses are the facts.
pub fn group<T: EpochStores>()
    // What the keepers do are acts of a group of nodes of which `desk_epoch_group::group` speaks; later too.
    ensures nodes { KeepersMakeNodes T.may_hold T.Store.StateStore }
    // What a node has committed stays committed there.
    ensures stays { KeeperHistoryStays T.may_hold T.Store.StateStore }
    // What two nodes have published, then and later, in whatever epochs, is one a prefix of the other.
    ensures agree { PublishedHistoriesAgree T.may_hold T.Store.StateStore }
    // There is one log of which all that is published is a prefix.
    ensures one_log { OneHistory T.may_hold T.Store.StateStore }
    // As far as both have published, they have one board.
    ensures boards { PublishedHistoryBoardsAgree T.may_hold T.Store.StateStore }
    // Each such board is consistent: identifiers differ, and no unit is committed to two incidents.
    ensures consistent { PublishedHistoryBoardsConsistent T.may_hold T.Store.StateStore }
    // An identifier names one incident for good.
    ensures names { PublishedHistoryIdentifiersStay T.may_hold T.Store.StateStore }
    // No numbered command is published twice, in whatever epochs.
    ensures rising { PublishedHistoryIsRising T.may_hold T.Store.StateStore }
    // A board keeps each client's latest reply.
    ensures rows { PublishedHistoryReplyHeld T.may_hold T.Store.StateStore }
    // A number of a client has one place and one reply.
    ensures replies { PublishedHistoryRepliesAgree T.may_hold T.Store.StateStore }
    // A reply stands in all that is published up to its place or past it, at any node, then and later.
    ensures replies_stay { PublishedHistoryRepliesStay T.may_hold T.Store.StateStore }
    // What a session reads of a client is such a reply; sessions that read one number of it read one reply.
    ensures read { HistoryRowsAreReplies T.may_hold T.Store.StateStore }
    ensures read_replies { ReadHistoryRepliesAgree T.may_hold T.Store.StateStore }
{}

/// What is true of every such group in which numbers have more nodes than one, each with a token and a keeper of its
/// own. There are three or five numbers, and of each as many nodes as may be, of which the one with token 0 acts first.
/// It does nothing: its clauses are the facts.
pub fn members<T: EpochStores>()
    // What the keepers do are acts of a group of nodes of which `desk_epoch_members::group` speaks; later too.
    ensures nodes { TokenKeepersMakeNodes T.may_hold T.Store.StateStore }
    // What a node has committed stays committed there.
    ensures stays { HistoryByTokensStays T.may_hold T.Store.StateStore }
    // What two nodes have published, then and later, in whatever epochs, is one a prefix of the other.
    ensures agree { PublishedByTokensAgree T.may_hold T.Store.StateStore }
    // There is one log of which all that is published is a prefix.
    ensures one_log { OneHistoryByTokens T.may_hold T.Store.StateStore }
    // As far as both have published, they have one board.
    ensures boards { BoardsByTokensAgree T.may_hold T.Store.StateStore }
    // Each such board is consistent: identifiers differ, and no unit is committed to two incidents.
    ensures consistent { BoardsByTokensConsistent T.may_hold T.Store.StateStore }
    // An identifier names one incident for good.
    ensures names { IdentifiersByTokensStay T.may_hold T.Store.StateStore }
    // No numbered command is published twice, in whatever epochs.
    ensures rising { PublishedByTokensRises T.may_hold T.Store.StateStore }
    // A board keeps each client's latest reply.
    ensures rows { RowsByTokensHeld T.may_hold T.Store.StateStore }
    // A number of a client has one place and one reply.
    ensures replies { RepliesByTokensAgree T.may_hold T.Store.StateStore }
    // A reply stands in all that is published up to its place or past it, at any node, then and later.
    ensures replies_stay { RepliesByTokensStay T.may_hold T.Store.StateStore }
    // What a session reads of a client is such a reply; sessions that read one number of it read one reply.
    ensures read { RowsByTokensAreReplies T.may_hold T.Store.StateStore }
    ensures read_replies { ReadByTokensAgree T.may_hold T.Store.StateStore }
{}
