//! The ending of a step, and its effects before they are sent and written.

use crsm_sim_machine::Step;

/// The point where the put of a step stops: after `calls` calls of the disk, with the byte `fill` in the ranges that
/// were not synced.
#[derive(Clone, Copy)]
pub(crate) struct StepStop {
    pub calls: u64,
    pub fill: u8,
}

/// How a step ends.
#[derive(Clone, Copy)]
pub(crate) enum Ending {
    /// All its output is sent, and the replica continues.
    Whole,
    /// The replica stops once its records are durable and the first `sends` of its datagrams and replies are sent.
    Kept { sends: u64 },
    /// The replica stops before its records are durable: they are lost, and nothing is sent.
    Lost,
    /// The replica stops during its put.
    At { stop: StepStop },
}

/// The effects of an arrival at a replica, before its datagrams are sent and its lines are written.
#[derive(Drop)]
pub(crate) enum Effects {
    /// None: the replica was down.
    Nothing,
    /// All output of the step, which the port has sent from index `first` on.
    Whole {
        k: u32,
        step: Step,
        first: usize,
    },
    /// The first `sends` datagrams and replies of the step. The replica is down.
    Cut {
        k: u32,
        step: Step,
        first: usize,
        sends: u64,
    },
    /// None: the replica is down.
    Down {
        k: u32,
    },
}
