//! The receiving of replies.

ghost use Rattle.std.specs.Prelude.{◌≡◌, ◌+◌, length, IfOk};
ghost use Rattle.crsm_client.specs.Turns.{BringsReply, ReadsReply};
ghost use Rattle.crsm_wire.specs.Marks.{mark_in};

use crate::error::AskError;
use crsm_base::{Bytes, Command, Datagram, NoMemory, Outcome};
use crsm_port::{Port, Recv};
use crsm_wire::{WireError, behind_mark, mark_before, read_datagram};
use std::alloc::Global;

/// Maximum length in bytes of a datagram that is received whole.
const MOST_RECEIVED: usize = 8_192;

/// The buffer for a received datagram, with the mark of its cluster.
#[derive(Drop)]
pub(crate) struct Inbox {
    pub(crate) cluster: u64,
    mark: Bytes,
    buffer: Vec<u8>,
    ghost marked: { mark ≡ mark_in cluster },
    ghost room: { length buffer.items ≡ 8192 + length mark },
}

/// Returns the outcome in a datagram if it is the reply to the command from the replica at this address, else `None`.
fn reply_in(
    alloc: Global,
    from: u64,
    bytes: &[u8],
    to: u64,
    command: &Command,
) -> Result<Option<Outcome>, NoMemory>
    ensures { ReadsReply to command.now (record { address = from; bytes = bytes.now }) result }
{
    if from != to {
        return Ok(None);
    }
    match read_datagram(alloc, bytes) {
        Ok(
            Datagram::Reply {
                client,
                number,
                outcome,
            },
        ) if client == command.client && number == command.number => Ok(Some(outcome)),
        Ok(_) | Err(WireError::NotOne) => Ok(None),
        Err(WireError::NoMemory) => Err(NoMemory),
    }
}

impl Inbox {
    /// Returns an inbox for the datagrams of a cluster. `NoMemory` if memory runs out.
    pub(crate) fn new(alloc: Global, cluster: u64) -> Result<Inbox, NoMemory>
        ensures { IfOk result (λ inbox. inbox.cluster ≡ cluster) }
    {
        let mark = mark_before(alloc, cluster)?;
        let buffer = Vec::from_elem(alloc, 0u8, MOST_RECEIVED + mark.as_slice().len())?;
        Ok(Inbox {
            cluster,
            mark,
            buffer,
        })
    }

    /// Receives once, and returns the outcome if that is the reply to the command from the replica at this address,
    /// else `None`.
    pub(crate) fn receive_reply<P: Port>(
        &mut self,
        alloc: Global,
        port: &mut P,
        to: u64,
        command: &Command,
    ) -> Result<Option<Outcome>, AskError>
        ensures brings { BringsReply self.old.cluster to command.now (P.meaning port.old) (P.meaning port.new) result }
        ensures same { self.new.cluster ≡ self.old.cluster }
    {
        match port.recv(&mut self.buffer) {
            Err(_) => Err(AskError::PortFault),
            Ok(Recv::Nothing) => Ok(None),
            Ok(Recv::Datagram { from, len }) => {
                let bytes = behind_mark(&self.buffer[..len], self.mark.as_slice());
                Ok(reply_in(alloc, from, bytes, to, command)?)
            }
        }
    }
}
