//! The liveness bound of running nodes: from a calm state, two rounds in which each node takes a tick and then all that
//! was sent to it execute all that was submitted, and have a reply for every client that waits.
#![tactic(auto)]

ghost use Rattle.crsm_law_calm.specs.Cases.{RoundsHappen};
ghost use Rattle.crsm_law_calm.specs.Laws.{RoundsAnswer};

/// In every history of nodes, two rounds from a calm state execute at each member all that was submitted, and give each
/// client that waits at a member a reply that goes out or waits to go out.
pub fn rounds_answer()
    ensures { RoundsAnswer }
{}

/// There is a history that comes to a calm state while a client waits, and two rounds from there.
pub fn rounds_happen()
    ensures { RoundsHappen }
{}
