//! The port from which a step receives its input.

ghost use Rattle.std.specs.Prelude.{◌≡◌, ◌++◌, length, min, take, drop};

use crsm_base::{Failed, NoMemory};
use crsm_port::{Port, Recv};
use crsm_port_faults::raise;

/// The datagram that a step receives, if any.
#[derive(Clone, Copy)]
pub(crate) enum Slot<'a> {
    Missing,
    Waits { from: u64, bytes: &'a [u8] },
    Taken { from: u64, bytes: &'a [u8] },
}

/// A port with at most one datagram to receive, which it borrows. Each send is a loss.
#[derive(Drop)]
pub(crate) struct PacketPort<'a> {
    pub(crate) slot: Slot<'a>,
    pub(crate) empties: u64,
    pub(crate) losses: u64,
}

fn copy(bytes: &[u8], buf: &mut [u8]) -> usize
    ensures len { result ≡ min (length buf.old) (length bytes.now) }
    ensures bytes { buf.new ≡ take result bytes.now ++ drop result buf.old }
{
    let n = buf.len().min(bytes.len());
    buf[..n].copy_from_slice(&bytes[..n]);
    n
}

impl<'a> Port for PacketPort<'a> {
    ghost use Rattle.crsm_sim_machine.specs.PacketPorts.{meaning_of};

    ghost meaning = { meaning_of };

    fn recv(&mut self, buf: &mut [u8]) -> Result<Recv, Failed> {
        match self.slot {
            Slot::Waits { from, bytes } => {
                let len = copy(bytes, buf);
                self.slot = Slot::Taken { from, bytes };
                Ok(Recv::Datagram { from, len })
            }
            Slot::Taken { .. } | Slot::Missing => {
                raise(&mut self.empties);
                Ok(Recv::Nothing)
            }
        }
    }

    fn send(&mut self, _to: u64, _bytes: &[u8]) -> Result<(), Failed> {
        raise(&mut self.losses);
        Err(Failed)
    }

    fn reserve(&mut self, _sends: u64, _bytes: u64) -> Result<(), NoMemory> {
        Ok(())
    }
}
