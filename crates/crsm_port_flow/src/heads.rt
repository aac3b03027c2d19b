//! What a datagram is by its first bytes, with or without the mark of a cluster.

ghost use Rattle.std.specs.Prelude.{◌≡◌, ◌↔◌, Some, IfSome, IfOk, IsTrue};
ghost use Rattle.crsm_port_flow.specs.Heads.{HasHead, IsAskedIn, IsReply};
ghost use Rattle.crsm_port_flow.specs.Went.{IsPartIn};

use crsm_base::{Datagram, NoMemory};
use crsm_text_fields::take_u64;
use crsm_wire::{WireError, read_datagram, unmarked};
use std::alloc::Global;

/// The first bytes of frames and of acknowledgements.
pub(crate) const FRAME: u8 = 1;

pub(crate) const ACK: u8 = 2;

/// Bytes of a part that identify its message: its sender's boot and the message's number.
const NUMBER_BYTES: usize = 16;

/// The first fields of a frame or of an acknowledgement: its sender, its receiver, its epoch, and the number of the
/// frame, or of the frame that is expected.
#[derive(Clone, Copy)]
pub(crate) struct Head {
    pub(crate) from: u8,
    pub(crate) to: u8,
    pub(crate) epoch: u64,
    pub(crate) number: u64,
}

/// Returns the first fields of the bytes, if they are of this kind: a frame or an acknowledgement.
pub(crate) fn head_in(kind: u8, bytes: &[u8]) -> Option<Head>
    ensures head { IfSome result (λ h. HasHead kind h.from h.to h.epoch h.number bytes.now) }
    ensures only { (h : Head) → HasHead kind h.from h.to h.epoch h.number bytes.now → result ≡ Some h }
{
    match unmarked(bytes) {
        [first, from, to, fields @ ..] if *first == kind => {
            let (epoch, after) = take_u64(fields)?;
            let (number, _) = take_u64(after)?;
            Some(Head {
                from: *from,
                to: *to,
                epoch,
                number,
            })
        }
        _ => None,
    }
}

/// Returns the bytes of a part after its message's number, if the bytes are a part.
pub(crate) fn part_in(bytes: &[u8]) -> Option<&[u8]>
    ensures { IfSome result (λ part. IsPartIn part.now bytes.now) }
{
    let [3, _, _, fields @ ..] = unmarked(bytes) else {
        return None;
    };
    if fields.len() < NUMBER_BYTES {
        return None;
    }
    let (_, part) = fields.split_at(NUMBER_BYTES);
    Some(part)
}

/// What one who is no peer asks for.
#[derive(Clone, Copy, PartialEq)]
pub(crate) enum Asked {
    /// A client asks for a command.
    Command,
    /// An operator asks for a membership change.
    Membership,
    /// The bytes ask for nothing.
    Nothing,
}

/// Returns what the bytes ask for. `NoMemory` if memory runs out.
pub(crate) fn asked_in(alloc: Global, bytes: &[u8]) -> Result<Asked, NoMemory>
    ensures { IfOk result (λ asked. IsAskedIn asked bytes.now) }
{
    match read_datagram(alloc, unmarked(bytes)) {
        Ok(Datagram::Request { .. }) => Ok(Asked::Command),
        Ok(Datagram::Operate { .. }) => Ok(Asked::Membership),
        Ok(_) | Err(WireError::NotOne) => Ok(Asked::Nothing),
        Err(WireError::NoMemory) => Err(NoMemory),
    }
}

/// Returns whether the bytes are a reply.
pub(crate) fn is_reply(bytes: &[u8]) -> bool
    ensures { IsTrue result ↔ IsReply bytes.now }
{
    matches!(unmarked(bytes), [5, ..])
}
