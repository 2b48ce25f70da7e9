//! What is true of every desk over epochs whose nodes are replaced, and of every running group of such nodes.
#![tactic(auto)]

ghost use Rattle.desk_epoch_members.specs.Agreement.{ArePastsWhole, OneActs, OwnBoardsAgree, OwnBoardsConsistent};
ghost use Rattle.desk_epoch_members.specs.Agreement.{OwnEntriesRequested, OwnHistoriesAgree, OwnHistoriesRise};
ghost use Rattle.desk_epoch_members.specs.Agreement.{OwnIdentifiersStay, OwnRepliesAgree};
ghost use Rattle.desk_epoch_members.specs.NeverStuck.{MembersNeverStuck, NamedNodesAct};
ghost use Rattle.desk_epoch_members.specs.NodeAgreement.{NodesMakeDesk, OneNodeActs, TokenBoardsAgree};
ghost use Rattle.desk_epoch_members.specs.NodeAgreement.{TokenBoardsConsistent, TokenEntriesRequested};
ghost use Rattle.desk_epoch_members.specs.NodeAgreement.{TokenHistoriesAgree, TokenHistoriesRise};
ghost use Rattle.desk_epoch_members.specs.NodeAgreement.{TokenIdentifiersStay, TokenRepliesAgree, TokensAreNamed};

/// What is true over every list of steps of a desk in which a number's node is replaced by one with another token, as
/// often as may be. Only the node acts whose token its past logs name for its number. One that does not act takes
/// whole past logs of another. It does nothing: its clauses are the facts.
pub fn members()
    // Nobody is in an epoch before he has whole past logs of all epochs before it.
    ensures whole { ArePastsWhole }
    // Two nodes of one number never act in one epoch.
    ensures one_acts { OneActs }
    // What two nodes have committed in all epochs, then and later, is one a prefix of the other.
    ensures agree { OwnHistoriesAgree }
    // No numbered command is committed twice, in whatever epochs.
    ensures rising { OwnHistoriesRise }
    // As far as both have committed, they have one board.
    ensures boards { OwnBoardsAgree }
    // Each board is consistent: identifiers differ, and no unit is committed to two incidents.
    ensures consistent { OwnBoardsConsistent }
    // An identifier names one incident for good.
    ensures names { OwnIdentifiersStay }
    // Any two replies to one numbered command are one reply.
    ensures replies { OwnRepliesAgree }
    // Each entry that a node has committed was requested.
    ensures requested { OwnEntriesRequested }
{}

/// A desk whose nodes are replaced is never stuck, whatever happened and whichever nodes are up, as long as more of
/// those that act are up than may fail. That is asked of the latest epoch that one of them is in, and of those that
/// follow whatever logs of theirs reach an end. Then steps follow at nodes that are up alone, without a restart, after
/// which a new request is committed and answered. Where a log is full, or names who acts from then on, its end is
/// committed, and the next epoch begins. It says that there are such steps, not that they happen. It does nothing: its
/// clauses are the facts.
pub fn never_stuck()
    // Steps serve a request with a new number, whatever logs are full and whoever is named to act after them.
    ensures served { MembersNeverStuck }
    // Where the request names a node that is up, that node acts after such steps, with the request in its past logs.
    ensures replaced { NamedNodesAct }
{}

/// What is true of every group of nodes over epochs, each of which is a number with a token, whatever comes to them in
/// whatever order, as long as each packet that comes to a node was sent to its number before. There are three or five
/// numbers, and of each as many nodes as may be, of which the one with token 0 acts first. A node does what
/// `desk_epoch_node::EpochNode` promises: it acts where its token is named. It does nothing: its clauses are the facts.
pub fn group()
    // The token that entries name for a number is the one that nodes find.
    ensures tokens { TokensAreNamed }
    // What the nodes do are steps of a desk of which `members` speaks; later too.
    ensures desk { NodesMakeDesk }
    // Two nodes of one number never act in one epoch.
    ensures one_acts { OneNodeActs }
    // What two nodes have committed in all epochs, then and later, is one a prefix of the other.
    ensures agree { TokenHistoriesAgree }
    // No numbered command is committed twice, in whatever epochs.
    ensures rising { TokenHistoriesRise }
    // As far as both have committed, they have one board.
    ensures boards { TokenBoardsAgree }
    // Each board is consistent: identifiers differ, and no unit is committed to two incidents.
    ensures consistent { TokenBoardsConsistent }
    // An identifier names one incident for good.
    ensures names { TokenIdentifiersStay }
    // Any two replies to one numbered command are one reply.
    ensures replies { TokenRepliesAgree }
    // Each entry that a node has committed came to some node as a request.
    ensures requested { TokenEntriesRequested }
{}
