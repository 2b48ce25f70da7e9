//! That the nodes which run are a group of `desk_group`: what their queues carry from one keeper to another, and what
//! their files keep, are the turns and stops of its law. So are nodes over epochs a group of `desk_epoch_keepers`, also
//! where some act in the place of others.
#![tactic(auto)]

ghost use Rattle.desk_network.specs.Putting.{queue_ends};
ghost use Rattle.desk_refinement.specs.EpochGroups.{EpochNodesAgree, EpochNodesAreGroups, EpochNodesPublish};
ghost use Rattle.desk_refinement.specs.EpochGroups.{QueuedMayBeTakenByNode, RunAndAgree, RunAsEpochGroups};
ghost use Rattle.desk_refinement.specs.EpochMembers.{EpochMembersAgree, EpochMembersAreGroups, EpochMembersPublish};
ghost use Rattle.desk_refinement.specs.EpochMembers.{RunAsTokenGroups, RunByTokensAndAgree};
ghost use Rattle.desk_refinement.specs.EpochStops.{EndedAreHeld, FilesFindOneOf, FilesFindHeld, MembersCameToBe};
ghost use Rattle.desk_refinement.specs.EpochStops.{NodesCameToBe, ReportedAreHeld, SavedRestarts};
ghost use Rattle.desk_refinement.specs.EpochStops.{StartsRestartMembers, StartsRestartNodes};
ghost use Rattle.desk_refinement.specs.EpochStops.{StopsAfterBeginning, StopsAfterSave, StopsBetweenEpochs};
ghost use Rattle.desk_refinement.specs.EpochStops.{StopsInBeginning, StopsInFirstSave, StopsInReport, StopsInSave};
ghost use Rattle.desk_refinement.specs.FirstStarts.{NewFilesFindNothing, OpenedAreFirst, StartsBegin, UnusedAreFound};
ghost use Rattle.desk_refinement.specs.Groups.{QueuedMayBeTaken, RunAsGroups, NodesAreGroups, TurnsPublish};
ghost use Rattle.desk_refinement.specs.Stops.{FindsEither, StopsInSaveHappen, FindsGiven, StopsAfterSaveHappen};

use desk_epoch_stores::EpochStores;
use desk_log::StateStore;
use desk_network::QueuedPackets;
use desk_network::laws::queues;
use desk_threads::Out;
use sqlite::Alter;
use std::sync::Wait;
use std::time::Clock;

/// That nodes are a group of which `desk_group::group` speaks: they take turns as `Keeper::run_turns` promises them,
/// put packets into queues as `desk_network` does, and take no packet that was not put before into a queue to them. It
/// does nothing: its clauses are the facts.
pub fn nodes<O: Out, S: StateStore>()
    // What queues put for a node of what a keeper handed out is what the law has that node take.
    ensures queued { QueuedMayBeTaken }
    // Whatever happens among nodes, wherever they stop and are started again, their keepers are those of a group; and
    // later so too.
    ensures groups { NodesAreGroups O.Out S.StateStore }
    // What their turns publish is what the law says of.
    ensures publish { TurnsPublish O.Out S.StateStore }
{}

/// That the nodes which `desk_network` serves are such nodes: their keepers' packets are put into the queues of
/// `QueuedPackets`. It does nothing: its clause is the fact.
pub fn served_nodes<W: Wait + Clock + Drop, S: StateStore>()
    ensures groups { RunAsGroups ⟦<QueuedPackets<W> as Out>⟧ S.StateStore queue_ends }
{
    queues::<W>();
    nodes::<QueuedPackets<W>, S>();
}

/// That nodes over epochs are a group of which `desk_epoch_keepers::group` speaks: they take turns, and advance between
/// them, as `Keeper::run_turns` promises it. They put packets into queues as `desk_network` does, and take no packet
/// that was not put before into a queue to them. It does nothing: its clauses are the facts.
pub fn epoch_nodes<O: Out, T: EpochStores>()
    // What queues put for a node of what a keeper handed out is what the law has that node take.
    ensures queued { QueuedMayBeTakenByNode }
    // Whatever happens among nodes, wherever they stop and are started again, their keepers are those of a group; and
    // later so too.
    ensures groups { EpochNodesAreGroups T.may_hold T.Store.StateStore O.Out }
    // What they have published is what the law says of.
    ensures publish { EpochNodesPublish T.may_hold T.Store.StateStore O.Out }
    // So what two of three or five nodes have published, then and later, is one a prefix of the other.
    ensures agree { EpochNodesAgree T.may_hold T.Store.StateStore O.Out }
{}

/// That the nodes over epochs which `desk_network` serves are such nodes: their keepers' packets are put into the
/// queues of `QueuedPackets`. It does nothing: its clauses are the facts.
pub fn served_epoch_nodes<W: Wait + Clock + Drop, T: EpochStores>()
    // What happens among them happens in a group that has their keepers.
    ensures groups { RunAsEpochGroups T.may_hold T.Store.StateStore ⟦<QueuedPackets<W> as Out>⟧ queue_ends }
    // What two of them have published, then and later, is one a prefix of the other.
    ensures agree { RunAndAgree T.may_hold T.Store.StateStore ⟦<QueuedPackets<W> as Out>⟧ queue_ends }
{
    queues::<W>();
    epoch_nodes::<QueuedPackets<W>, T>();
}

/// That nodes over epochs, where numbers have more nodes than one, each with a token and a keeper of its own, are a
/// group of which `desk_epoch_keepers::members` speaks. A node does what one of `epoch_nodes` does, among those that
/// have its token, and takes what any node put into a queue to its number. It does nothing: its clauses are the facts.
pub fn epoch_members<O: Out, T: EpochStores>()
    // Whatever happens among nodes of any numbers and tokens, wherever they stop and are started again, their keepers
    // are those of a group; and later so too.
    ensures groups { EpochMembersAreGroups T.may_hold T.Store.StateStore O.Out }
    // What they have published is what the law says of.
    ensures publish { EpochMembersPublish T.may_hold T.Store.StateStore O.Out }
    // So what two nodes have published, then and later, of any numbers and tokens, is one a prefix of the other.
    ensures agree { EpochMembersAgree T.may_hold T.Store.StateStore O.Out }
{}

/// That the nodes of any tokens which `desk_network` serves are such nodes: their keepers' packets are put into the
/// queues of `QueuedPackets`. It does nothing: its clauses are the facts.
pub fn served_epoch_members<W: Wait + Clock + Drop, T: EpochStores>()
    // What happens among them happens in a group that has their keepers.
    ensures groups { RunAsTokenGroups T.may_hold T.Store.StateStore ⟦<QueuedPackets<W> as Out>⟧ queue_ends }
    // What two of them have published, then and later, is one a prefix of the other.
    ensures agree { RunByTokensAndAgree T.may_hold T.Store.StateStore ⟦<QueuedPackets<W> as Out>⟧ queue_ends }
{
    queues::<W>();
    epoch_members::<QueuedPackets<W>, T>();
}

/// That a node whose process ends in a save, or whose save fails, starts again as in the law. It does nothing: its
/// clauses are the facts.
pub fn stops<S: Alter>()
    // Its file is opened to the state before, or to the one that was to be saved.
    ensures found { FindsEither S.Store }
    // The first is a stop before the turn, the other one after its save.
    ensures starts { StopsInSaveHappen S.Store }
    // Once the save is done its file is opened to the state that was saved.
    ensures saved { FindsGiven S.Store }
    // Packets of a turn go out after its save alone, so a stop among them is one in that turn.
    ensures goes { StopsAfterSaveHappen S.Store }
{}

/// That a node over epochs whose process ends at any moment starts again as in the law of `desk_epoch_keepers`, by what
/// is found in the stores of its epochs: `epoch_nodes` has that as a premise, and `epoch_members` of nodes of any
/// tokens. It does nothing: its clauses are the facts.
pub fn epoch_stops<O: Out, T: EpochStores, S: Alter>()
    // Nodes that run, wherever they stopped and were started again, are those of which the next clauses speak.
    ensures nodes { NodesCameToBe T.may_hold T.Store.StateStore O.Out }
    // So are those of each token, where numbers have nodes with other tokens too.
    ensures members { MembersCameToBe T.may_hold T.Store.StateStore O.Out }
    // Where the state that was saved last is found, that is a restart, in the next epoch where its own is over.
    ensures restarts { SavedRestarts T.may_hold T.Store.StateStore }
    // The state before the save of a turn is a restart, the one after it a stop in the turn.
    ensures in_save { StopsInSave T.may_hold T.Store.StateStore }
    // Packets of a turn go out after its save alone, so a stop among them is one in that turn.
    ensures after_save { StopsAfterSave T.may_hold T.Store.StateStore }
    // Of a log that was reported the state before its save is a restart, the log itself a stop between the epochs.
    ensures in_report { StopsInReport T.may_hold T.Store.StateStore }
    // So is that log where nothing was saved in the next epoch.
    ensures between { StopsBetweenEpochs T.may_hold T.Store.StateStore }
    // The first state of that epoch is a stop in the turn.
    ensures in_first_save { StopsInFirstSave T.may_hold T.Store.StateStore }
    // Of a beginning nothing is a restart, and the first state a stop in it.
    ensures in_beginning { StopsInBeginning T.may_hold T.Store.StateStore }
    // Packets of a beginning go out after that save alone.
    ensures after_beginning { StopsAfterBeginning T.may_hold T.Store.StateStore }
    // Each such start is what `epoch_nodes` has as a premise.
    ensures again { StartsRestartNodes T.may_hold T.Store.StateStore O.Out }
    // Of a node with any token it is what happens to that node among those of `epoch_members`.
    ensures members_again { StartsRestartMembers T.may_hold T.Store.StateStore O.Out }
    // The store of an epoch that a node leaves has its log, where that was reported,
    ensures reported { ReportedAreHeld T.may_hold T.Store.StateStore }
    // and where the node had committed its end.
    ensures ended { EndedAreHeld T.may_hold T.Store.StateStore }
    // A file that holds a state is found with that,
    ensures held { FilesFindHeld T.may_hold S.Store }
    // and one with a save under way with the state before or the one that was to be saved.
    ensures either { FilesFindOneOf T.may_hold S.Store }
{}

/// That the first start of a node over epochs, of whatever token, is as the law of `desk_epoch_keepers::members` begins
/// with it. So each start of a node is one of that law: here the first, in `epoch_stops` each later one. It does
/// nothing: its clauses are the facts.
pub fn epoch_starts<O: Out, T: EpochStores, S: Alter>()
    // What `open_epochs` promises, where the first epoch's store was found unused, is the first keeper of that number
    // and token.
    ensures first { OpenedAreFirst T.may_hold T.Store.StateStore }
    // Nodes that start so, of each number and token one at most, are those with which `epoch_members` begins, and those
    // with token 0 those of `epoch_nodes`. Each may start at any moment: what happens to others leaves it so.
    ensures nodes { StartsBegin T.may_hold T.Store.StateStore O.Out }
    // A store that may hold nothing is found unused,
    ensures unused { UnusedAreFound T.may_hold T.Store.StateStore }
    // as a file is that has none of a node's tables, or the first state in them.
    ensures files { NewFilesFindNothing T.may_hold S.Store }
{}
