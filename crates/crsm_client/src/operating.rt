//! The request of a membership change.

ghost use Rattle.crsm_client.specs.Operating.{Operates};

use crate::error::OperateError;
use crate::marks::marked;
use crsm_base::{Datagram, Members};
use crsm_port::Port;
use std::alloc::Global;

/// Requests a change to these members from the replica at the address `to`, IPv4 x 65,536 + port: sends it one
/// datagram. `PortFault` if the port failed, `NoMemory` if memory runs out.
pub fn operate<P: Port>(
    alloc: Global,
    port: &mut P,
    to: u64,
    members: &Members,
) -> Result<(), OperateError>
    ensures { Operates 0 to members.now (P.meaning port.old) (P.meaning port.new) result }
{
    operate_command(alloc, to, members, 0, port)
}

/// Runs the command `operate`: the same request over a port that clusters share.
pub fn operate_command<P: Port>(
    alloc: Global,
    to: u64,
    members: &Members,
    cluster: u64,
    port: &mut P,
) -> Result<(), OperateError>
    ensures { Operates cluster to members.now (P.meaning port.old) (P.meaning port.new) result }
{
    let members = members.copy(alloc)?;
    let bytes = marked(alloc, cluster, &Datagram::Operate { members })?;
    port.reserve(1, bytes.as_slice().len() as u64)?;
    match port.send(to, bytes.as_slice()) {
        Ok(()) => Ok(()),
        Err(_) => Err(OperateError::PortFault),
    }
}
