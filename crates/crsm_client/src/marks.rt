//! Datagrams on a network that clusters share: each begins with the mark of its cluster.
//!
//! A client makes one request and sends it many times, so it is marked once, and the port is used as it is. A
//! `ClusterPort` would not show which of its losses the port below counted.

ghost use Rattle.std.specs.Prelude.{◌≡◌, IfOk};
ghost use Rattle.crsm_base.specs.Messages.{FitsDatagram, datagram_bytes};
ghost use Rattle.crsm_port.specs.Cluster.{wrapped};

use crsm_base::{Bytes, Datagram, NoMemory};
use crsm_wire::{mark_before, put_datagram};
use std::alloc::Global;

/// Returns a datagram with the mark of its cluster before it. `NoMemory` if memory runs out.
pub(crate) fn marked(alloc: Global, cluster: u64, datagram: &Datagram) -> Result<Bytes, NoMemory>
    requires { FitsDatagram datagram.now }
    ensures { IfOk result (λ bytes. bytes ≡ wrapped cluster (datagram_bytes datagram.now)) }
{
    let mut bytes = mark_before(alloc, cluster)?;
    put_datagram(datagram, &mut bytes)?;
    Ok(bytes)
}
