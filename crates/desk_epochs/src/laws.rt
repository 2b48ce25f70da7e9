//! What is true of every desk over epochs.

ghost use Rattle.desk_epochs.specs.Epochs.{EpochsAgree, EpochsRise, EpochBoardsAgree, EpochBoardsConsistent};
ghost use Rattle.desk_epochs.specs.Epochs.{EpochIdentifiersStay, EpochRepliesAgree, EpochEntriesRequested};
ghost use Rattle.desk_epochs.specs.Histories.{HistoriesAgree, HistoryBoardsAgree, HistoriesRise, HistoryRepliesHeld};
ghost use Rattle.desk_epochs.specs.NeverStuck.{EpochNeverStuck, EpochsNeverStuck};
ghost use Rattle.desk_epochs.specs.OneLog.{EpochsAreOneLog};

/// What is true over every list of steps, in whatever epochs the nodes of a desk are: events of an epoch with requests
/// that are new there, nodes that begin the next epoch where they have committed the end of theirs, and nodes that get
/// the whole log of theirs from another. It does nothing: its clauses are the facts.
pub fn agreement()
    // What two nodes have committed in all epochs, then and later, is one a prefix of the other.
    ensures agree { EpochsAgree }
    // No numbered command is committed twice, in whatever epochs.
    ensures rising { EpochsRise }
    // As far as both have committed, they have one board.
    ensures boards { EpochBoardsAgree }
    // Each board is consistent: identifiers differ, and no unit is committed to two incidents.
    ensures consistent { EpochBoardsConsistent }
    // An identifier names one incident for good.
    ensures names { EpochIdentifiersStay }
    // Any two replies to one numbered command are one reply.
    ensures replies { EpochRepliesAgree }
    // Each entry that a node has committed was requested.
    ensures requested { EpochEntriesRequested }
{}

/// What is true of all that nodes have committed in whole epochs and the one that they are in, whatever happens in each
/// of these. It does nothing: its clauses are the facts.
pub fn histories()
    // What two nodes have committed in all epochs, then and later, is one a prefix of the other.
    ensures agree { HistoriesAgree }
    // As far as both have committed, they have one board.
    ensures boards { HistoryBoardsAgree }
    // Where each epoch's requests are new, no numbered command is committed twice, in whatever epochs.
    ensures rising { HistoriesRise }
    // A board keeps each client's latest reply.
    ensures rows { HistoryRepliesHeld }
{}

/// A desk over epochs is never stuck. Whatever happened to its nodes, and whichever of them are up, as long as more are
/// than may fail: steps follow at these nodes alone, without a restart, after which a new request is committed and
/// answered. Where a log is full its end is committed, and the next epoch begins. It says that there are such steps,
/// not that they happen. It does nothing: its clauses are the facts.
pub fn never_stuck()
    // Events in one epoch serve a request with a new number, or commit the epoch's end.
    ensures goes_on { EpochNeverStuck }
    // Steps over epochs serve a request with a new number, whatever logs are full.
    ensures over_epochs { EpochsNeverStuck }
{}

/// To its clients an epoch is the rest of one log: what becomes of a request beside the client's latest entry in the
/// epoch's log, or in the logs before where it has none there, is what one log of all epochs would make of it. It does
/// nothing: its clause is the fact.
pub fn one_log()
    ensures one { EpochsAreOneLog }
{}
