//! The relation between a datagram's sender and its bytes.

ghost use Rattle.crsm_port_peers.specs.Laws.{SendersAreNamed};

use crsm_wire::what_is_read_is_spelt;

/// States that the bytes of a datagram whose fields name a replica as its sender name that replica, so that none passes
/// a `PeerPort` except from its sender's address. It runs no code.
pub fn senders_are_named()
    ensures { SendersAreNamed }
{
    what_is_read_is_spelt();
}
