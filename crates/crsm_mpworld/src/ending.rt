//! The ending of a step, and its effects before they are sent and written.

/// How a step of a replica ends.
#[derive(Clone, Copy)]
pub(crate) enum MpEnding {
    /// Its records are durable, and all its output is sent.
    Whole,
    /// Its records are durable, and the first `sends` of its messages and replies are sent; the replica goes down.
    Kept { sends: u64 },
    /// Its records are lost; the replica goes down.
    Lost,
}

/// The effects of an input at a replica, before its messages are sent and its lines are written. The output of its step
/// is beside them.
#[derive(Clone, Copy)]
pub(crate) enum MpEffects {
    /// None: the replica was down.
    Nothing,
    /// All output of the step.
    Whole { k: u32 },
    /// The first `sends` messages and replies of the step. The replica is down.
    Cut { k: u32, sends: u64 },
    /// None: the replica is down.
    Down { k: u32 },
}
