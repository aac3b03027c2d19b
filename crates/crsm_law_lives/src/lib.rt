//! The processes of a cluster's nodes, as the contract of `node` describes each, make a lawful history, under a premise
//! about the network and one about the disks.
#![tactic(auto)]

ghost use Rattle.crsm_law_lives.specs.Laws.{LivesAreLawful, SendsAreTheirs, StepsAreRight};

/// The processes of nodes make a lawful history, if the next boot finds exactly what was synced, and nobody sends in a
/// replica's name.
pub fn lives_are_lawful()
    ensures { LivesAreLawful }
{}

/// The datagrams and replies sent at a node in that history are those that its processes sent.
pub fn sends_are_theirs()
    ensures { SendsAreTheirs }
{}

/// The list that any process of a node has executed is a prefix of one list, and all that it reported of it is right.
pub fn steps_are_right()
    ensures { StepsAreRight }
{}
