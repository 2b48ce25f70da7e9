//! What is true of every group of nodes.

ghost use Rattle.desk_world.specs.Agreement.{CommittedStays, CommittedAgree, CommittedIsChosen, BoardsAgree};
ghost use Rattle.desk_world.specs.Agreement.{IdentifiersDiffer, UnitsOnce, UnitsAtOpen, IdentifiersStay};
ghost use Rattle.desk_world.specs.Agreement.{CommittedIsRising, LatestReplyHeld, RepliesAgree};
ghost use Rattle.desk_world.specs.Facts.{NumbersNeverFall, OffersAreOne, OffersHaveAcknowledged, StartLogIsOne};
ghost use Rattle.desk_world.specs.Facts.{NodeLogsAreOfView, OfferLogsAreOfView, StartLogsAreOfView};
ghost use Rattle.desk_world.specs.Facts.{PrimaryHasViewLog, ChosenStays};
ghost use Rattle.desk_world.specs.NeverStuck.{NeverStuck};
ghost use Rattle.desk_world.specs.Requested.{CommittedIsRequested};

/// What is true of every group of nodes, an odd number of them and at least 3, whatever requests, deliveries, losses,
/// repeats, reorderings, suspicions, timer events and restarts come to it. It does nothing: its clauses are the facts.
pub fn agreement()
    // What a node commits stays committed there.
    ensures stays { CommittedStays }
    // What two nodes have committed, then and later, is one a prefix of the other.
    ensures agrees { CommittedAgree }
    // As far as both have committed, they have one board.
    ensures boards { BoardsAgree }
    // On each such board identifiers of incidents are all different.
    ensures differ { IdentifiersDiffer }
    // No unit is committed to two incidents, and each unit that is committed is committed to an open one.
    ensures units { UnitsOnce }
    ensures units_open { UnitsAtOpen }
    // An identifier names one incident for good.
    ensures names { IdentifiersStay }
    // No numbered command is committed twice.
    ensures rising { CommittedIsRising }
    // A board keeps each client's latest reply.
    ensures rows { LatestReplyHeld }
    // Any two replies to one numbered command are one reply.
    ensures replies { RepliesAgree }
    // View, last normal view and commit of a node never fall.
    ensures numbers { NumbersNeverFall }
    // All that a node offers for a view is equal.
    ensures one_offer { OffersAreOne }
    // What a node offers has all that it acknowledged in earlier views.
    ensures offers { OffersHaveAcknowledged }
    // A view past 0 starts with one log, that of each of its StartViews.
    ensures start { StartLogIsOne }
    // Each log of a view begins with the view's start log and is a prefix of the view's log, which the view's primary
    // has while it is normal there.
    ensures node_logs { NodeLogsAreOfView }
    ensures offer_logs { OfferLogsAreOfView }
    ensures start_logs { StartLogsAreOfView }
    ensures primary_log { PrimaryHasViewLog }
    // What a majority acknowledged in a view stands in the start log of each later view.
    ensures chosen_stays { ChosenStays }
    // What a node has committed, a majority acknowledged.
    ensures chosen { CommittedIsChosen }
{}

/// A group is never stuck. Whatever happened to a group of nodes, an odd number of them and at least 3, and whichever
/// of them are up, as long as more are than may fail: if the logs of these are shorter than the limit, a request's
/// number is greater than that of its client's latest entry in each of these logs, and every node's view is at least as
/// far below the last one as there are nodes, then there are further events, at these nodes alone and without a
/// restart, after which one of them has committed the request and answered it. It says that there are such events, not
/// that they happen. It does nothing: its clause is the fact.
pub fn never_stuck()
    ensures served { NeverStuck }
{}

/// Nothing is committed that nobody asked for: each entry that a node of a group has committed is that of a request
/// that came to some node. It does nothing: its clause is the fact.
pub fn only_requested()
    ensures requested { CommittedIsRequested }
{}
