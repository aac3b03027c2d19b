//! The frames of a step: new ones and retransmissions.

ghost use Rattle.std.specs.Prelude.{◌<◌, [], ◌∷◌, map, All, OnOk};
ghost use Rattle.crsm_replica_output.specs.Made.{Made, OutputStands};
ghost use Rattle.crsm_replica_epoch.specs.Linked.{others_of};
ghost use Rattle.crsm_spec.specs.Draft.{next_frame};
ghost use Rattle.crsm_replica.specs.Again.{frame_again, WhereSending, sending};

use crsm_base::{Datagram, InEpoch, NoMemory};
use crsm_replica_epoch::EpochState;
use crsm_replica_output::Output;
use std::alloc::Global;

/// Sends the next frame to each of these members but `me`. `NoMemory` if memory runs out.
pub fn send_next(
    alloc: Global,
    output: &mut Output,
    epoch_state: &EpochState,
    me: u32,
    epoch: u64,
    members: &[u32],
    payload: &InEpoch,
) -> Result<(), NoMemory>
    requires { All (λ k. k < 15) members.now }
    ensures { OnOk result (WhereSending epoch_state.now output.old me epoch (λ r m. OutputStands output.new (sending (map (next_frame r payload.now) (others_of me members.now)) m))) }
{
    for k in members {
        if *k != me {
            send_frame(output, epoch_state, me, epoch, *k, payload.copy(alloc)?)?;
        }
    }
    Ok(())
}

/// Sends the next frame to replica `k`. `NoMemory` if memory runs out.
fn send_frame(
    output: &mut Output,
    epoch_state: &EpochState,
    me: u32,
    epoch: u64,
    k: u32,
    payload: InEpoch,
) -> Result<(), NoMemory>
    requires { k < 15 }
    ensures { OnOk result (WhereSending epoch_state.now output.old me epoch (λ r m. OutputStands output.new (sending (next_frame r payload k ∷ []) m))) }
{
    let seq = epoch_state.pushed_to(k);
    let datagram = Datagram::Frame {
        from: me,
        to: k,
        epoch,
        seq,
        payload,
    };
    output.send(k, datagram)
}

/// Retransmits frames to replica `to`. `NoMemory` if memory runs out.
pub fn send_again(
    alloc: Global,
    output: &mut Output,
    me: u32,
    epoch: u64,
    to: u32,
    frames: &[(u64, InEpoch)],
) -> Result<(), NoMemory>
    ensures { OnOk result ((m : Made) → OutputStands output.old m → OutputStands output.new (sending (map (frame_again me epoch to) frames.now) m)) }
{
    for frame in frames {
        let datagram = Datagram::Frame {
            from: me,
            to,
            epoch,
            seq: frame.0,
            payload: frame.1.copy(alloc)?,
        };
        output.send(to, datagram)?;
    }
    Ok(())
}
