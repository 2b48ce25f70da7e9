//! What is true of every running group of nodes over epochs.
#![tactic(auto)]

ghost use Rattle.desk_epoch_group.specs.Agreement.{NodesMakeEpochs, NodeHistoriesAgree, NodeHistoriesRise};
ghost use Rattle.desk_epoch_group.specs.Agreement.{NodeBoardsAgree, NodeBoardsConsistent, NodeIdentifiersStay};
ghost use Rattle.desk_epoch_group.specs.Agreement.{NodeRepliesAgree, NodeEntriesRequested};

/// What is true of every group of three or five nodes over epochs, whatever comes to them in whatever order, as long as
/// each packet that comes to a node was sent to it before: packets may be lost, repeated and reordered, and nodes
/// suspect, start again, begin the next epoch where it is due, and are sent past logs. It does nothing: its clauses are
/// the facts.
pub fn group()
    // What the nodes do are steps of a desk of which `desk_epochs::agreement` speaks; later too.
    ensures epochs { NodesMakeEpochs }
    // What two nodes have committed in all epochs, then and later, is one a prefix of the other.
    ensures agree { NodeHistoriesAgree }
    // No numbered command is committed twice, in whatever epochs.
    ensures rising { NodeHistoriesRise }
    // As far as both have committed, they have one board.
    ensures boards { NodeBoardsAgree }
    // Each board is consistent: identifiers differ, and no unit is committed to two incidents.
    ensures consistent { NodeBoardsConsistent }
    // An identifier names one incident for good.
    ensures names { NodeIdentifiersStay }
    // Any two replies to one numbered command are one reply.
    ensures replies { NodeRepliesAgree }
    // Each entry that a node has committed came to some node as a request.
    ensures requested { NodeEntriesRequested }
{}
