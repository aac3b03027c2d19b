//! The input of a step.

ghost use Rattle.std.specs.Prelude.{length, IfOk};
ghost use Rattle.crsm_replica_io.specs.Input.{IsWithin, TakesInput};

use crsm_base::Members;
use crsm_port::{Port, Recv};

/// The input that the next step is to take.
#[derive(Drop)]
pub enum WantedInput {
    /// The next datagram of the port, or a tick if none has arrived.
    Receive,
    Tick,
    /// A suspicion: these are to be the members of the next epoch.
    Suspect(Members),
}

/// The input that a step took.
#[derive(Drop)]
pub enum ReceivedInput {
    /// `len` bytes from an address, IPv4 x 65,536 + port: the prefix of the buffer. They need not be the encoding of a
    /// datagram.
    Datagram { from: u64, len: usize },
    Tick,
    Suspect(Members),
}

/// The reason why no input was taken.
#[derive(Clone, Copy, Debug, PartialEq, Eq)]
pub enum TakeError {
    /// The port failed in a receive.
    PortFault,
}

/// Takes the wanted input. A datagram is left in the buffer, cut to its length if it is longer. Only `Receive` calls
/// the port, and nothing is sent. `PortFault` if the port failed, `NoMemory` if memory runs out.
pub fn take_input<P: Port>(
    what: WantedInput,
    port: &mut P,
    buf: &mut [u8],
) -> Result<ReceivedInput, TakeError>
    ensures within { IfOk result (IsWithin (length buf.old)) }
    ensures taken { TakesInput what (length buf.old) buf.new (P.meaning port.old) (P.meaning port.new) result }
{
    match what {
        WantedInput::Receive => receive(port, buf),
        WantedInput::Tick => Ok(ReceivedInput::Tick),
        WantedInput::Suspect(members) => Ok(ReceivedInput::Suspect(members)),
    }
}

fn receive<P: Port>(port: &mut P, buf: &mut [u8]) -> Result<ReceivedInput, TakeError>
    ensures within { IfOk result (IsWithin (length buf.old)) }
    ensures taken { TakesInput WantedInput.Receive (length buf.old) buf.new (P.meaning port.old) (P.meaning port.new) result }
{
    match port.recv(buf) {
        Err(_) => Err(TakeError::PortFault),
        Ok(Recv::Nothing) => Ok(ReceivedInput::Tick),
        Ok(Recv::Datagram { from, len }) => Ok(ReceivedInput::Datagram { from, len }),
    }
}
