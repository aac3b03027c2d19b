//! The port of a step that stops during its put.

ghost use Rattle.crsm_port.specs.Unknown.{unknown};

use crsm_base::{Failed, NoMemory};
use crsm_port::{Port, Recv};
use crsm_port_faults::raise;

/// A port that drops each datagram: a step that stops during its put sends nothing. It receives nothing.
#[derive(Drop)]
pub(crate) struct SinkPort {
    pub(crate) empties: u64,
}

impl Port for SinkPort {
    ghost meaning = { λ p. unknown 0 0 p.empties };

    fn recv(&mut self, _buf: &mut [u8]) -> Result<Recv, Failed> {
        raise(&mut self.empties);
        Ok(Recv::Nothing)
    }

    fn send(&mut self, _to: u64, _bytes: &[u8]) -> Result<(), Failed> {
        Ok(())
    }

    fn reserve(&mut self, _sends: u64, _bytes: u64) -> Result<(), NoMemory> {
        Ok(())
    }
}
