//! What is true of the requests with which reads begin.
ghost use Rattle.node_keeper.specs.Beginning.{ReadsAskNext};

/// A law: all requests with which a read begins ask for the next position. So `Keeper::begin_read` sends the first of
/// them to all nodes, if these are to be asked.
pub fn reads_ask_for_the_next_position()
    ensures { ReadsAskNext }
{}
