//! What a node has from its log, also from one that was written anew, what it tells of the other nodes, and how many
//! ids it gives.
ghost use Rattle.node.specs.AnswerSizes.{EndedAnswersFit};
ghost use Rattle.node.specs.Anew.{AnewGivesCopies, HandledFramesKeepOwn, HandledFramesKeepOwnCalls};
ghost use Rattle.node.specs.Anew.{OwnCallsAreDistinct, RecoveredEntriesKeepOwn, StartedNodesKeepOwn};
ghost use Rattle.node.specs.Anew.{StartingNodesHaveOwn};
ghost use Rattle.node.specs.IdsLeft.{HandledFramesUseIds, IdsAreLeft, NodesRunOutOfIds};
ghost use Rattle.node.specs.OpenMoves.{DesksHaveTheOpenMoves, StartedDesksHaveTheOpenMoves};
ghost use Rattle.node.specs.Peers.{DroppedFramesCountOnce, OthersAreToldOnce};
ghost use Rattle.node.specs.Ready.{ReadyNodesHearQuorums};

/// A law: what a new node has from the entries that `Node::entries_anew` returns is a copy of the node.
pub fn anew_gives_copies()
    ensures { AnewGivesCopies }
{}

/// A law: all objects of a new node are its own.
pub fn new_nodes_have_own()
    ensures { StartingNodesHaveOwn }
{}

/// A law: all objects of a node stay its own as it handles a frame.
pub fn handled_frames_keep_own()
    ensures { HandledFramesKeepOwn }
{}

/// A law: all objects of a node stay its own as it carries out an entry of its log again.
pub fn recovered_entries_keep_own()
    ensures { RecoveredEntriesKeepOwn }
{}

/// A law: all objects of a node stay its own as it starts.
pub fn started_nodes_keep_own()
    ensures { StartedNodesKeepOwn }
{}

/// A law: the ids of a node's open calls stay its own as it handles a frame. With `new_nodes_have_own_calls` and
/// `restarting_keeps_own_calls` of `recoveries`, they are its own at each moment.
pub fn handled_frames_keep_own_calls()
    ensures { HandledFramesKeepOwnCalls }
{}

/// A law: where they are its own, no two calls of one object have the same id. So `anew_gives_copies` holds also while
/// reads and writes are open.
pub fn own_calls_are_distinct()
    ensures { OwnCallsAreDistinct }
{}

/// A law: whatever comes, no node stands twice, with the same digest of its cluster file, among the nodes with another
/// cluster file of which is told. So each is told of once for each digest.
pub fn others_are_told_once()
    ensures { OthersAreToldOnce }
{}

/// A law: whatever comes, it counts once among the frames that were dropped if the node drops it, and otherwise not.
pub fn dropped_frames_count_once()
    ensures { DroppedFramesCountOnce }
{}

/// A law: a node that is ready, as `INFO` says it by `cluster_state:ok`, hears a quorum of the layout that any name has
/// before any move.
pub fn ready_nodes_hear_quorums()
    ensures { ReadyNodesHearQuorums }
{}

/// A law: after a new node has carried out its log again, its desk has exactly the moves that are open at its objects,
/// and no other call, if no two moves of the log have the same id.
pub fn desks_have_the_open_moves()
    ensures { DesksHaveTheOpenMoves }
{}

/// A law: that is still so when the node has started.
pub fn started_desks_have_the_open_moves()
    ensures { StartedDesksHaveTheOpenMoves }
{}

/// A law: a node has a next id until it has given all that were left: 2^32 in each epoch, and 2^24 epochs.
pub fn ids_are_left()
    ensures { IdsAreLeft }
{}

/// A law: a node that handles a frame uses one id for each call that begins, and one for each that its object refuses.
pub fn handled_frames_use_ids()
    ensures { HandledFramesUseIds }
{}

/// A law: a node fails with `NoMoreIds` only where a command needs an id, and all ids that were left have been used.
pub fn nodes_run_out_of_ids()
    ensures { NodesRunOutOfIds }
{}

/// A law: the answer to a call that has ended can be sent, unless it is a value that is longer than a string of a
/// frame.
pub fn ended_answers_fit()
    ensures { EndedAnswersFit }
{}
