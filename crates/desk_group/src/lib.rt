//! What is true of every running group of keepers.
#![tactic(auto)]

ghost use Rattle.desk_group.specs.Agreement.{TurnsMakeWorlds, SavedCommittedStays, OneLog};
ghost use Rattle.desk_group.specs.Agreement.{PublishedAgree, PublishedBoardsAgree, PublishedIdentifiersDiffer};
ghost use Rattle.desk_group.specs.Agreement.{PublishedIdentifiersStay, PublishedUnitsOnce, PublishedUnitsAtOpen};
ghost use Rattle.desk_group.specs.Agreement.{PublishedIsRising, PublishedLatestReplyHeld, PublishedRepliesAgree};
ghost use Rattle.desk_group.specs.Agreement.{PublishedRepliesStay, RowsAreReplies, ReadRepliesAgree};
ghost use Rattle.desk_group.specs.Serves.{EachItemIsTaken, Serves};
ghost use Rattle.desk_group.specs.Turns.{HandledIsTurn, RunIsTurns, TurnsAreRun};

/// That the turns of which `group` speaks are what keepers promise, and that there are such. It does nothing: its
/// clauses are the facts.
pub fn turns()
    // What `Keeper::handle` promises of an item is a turn; so is, item by item, what `Keeper::run` promises of all.
    ensures handled { HandledIsTurn }
    ensures ran { RunIsTurns }
    // And what a node takes in a group, from its start on, is what `run` promises.
    ensures lives { TurnsAreRun }
    // There are such runs: each item can be taken and done, and three nodes commit what is asked for.
    ensures goes_on { EachItemIsTaken }
    ensures serves { Serves }
{}

/// What is true of every group of keepers, an odd number of them and at least 3, whatever turns of items they take, in
/// whatever order, and whenever they end and are started again, as long as each packet that is taken was handed out
/// before for the node that takes it. It does nothing: its clauses are the facts.
pub fn group()
    // What the nodes save is what a world's nodes save, of whose events `desk_world::agreement` speaks; later too.
    ensures world { TurnsMakeWorlds }
    // What a node commits stays committed there.
    ensures stays { SavedCommittedStays }
    // What two nodes have published, then and later, is one a prefix of the other.
    ensures agree { PublishedAgree }
    // There is one log of which all that is published is a prefix.
    ensures one_log { OneLog }
    // As far as both have published, they have one board.
    ensures boards { PublishedBoardsAgree }
    // On each such board identifiers of incidents are all different.
    ensures differ { PublishedIdentifiersDiffer }
    // No unit is committed to two incidents, and each unit that is committed is committed to an open one.
    ensures units { PublishedUnitsOnce }
    ensures units_open { PublishedUnitsAtOpen }
    // An identifier names one incident for good.
    ensures names { PublishedIdentifiersStay }
    // No numbered command is published twice.
    ensures rising { PublishedIsRising }
    // A board keeps each client's latest reply.
    ensures rows { PublishedLatestReplyHeld }
    // A number of a client has one place and one reply.
    ensures replies { PublishedRepliesAgree }
    // A reply stands in all that is published up to its place or past it, at any node, then and later.
    ensures replies_stay { PublishedRepliesStay }
    // What a session reads of a client is such a reply; sessions that read one number of it read one reply.
    ensures read { RowsAreReplies }
    ensures read_replies { ReadRepliesAgree }
{}
