//! Fragments of datagrams: what a node's port cuts is apart, over all of the node's processes. A port cuts what is
//! longer than a packet, and names the fragments by the datagram's first bytes; so no two may have one name.
#![tactic(auto)]

ghost use Rattle.crsm_law_parts.specs.Example.{CutsHappen};
ghost use Rattle.crsm_law_parts.specs.Laws.{CutsAreApart, OnlyPartsAreCut, OthersAreShort};

use crsm_law_replies::replies_tell_the_first;
use crsm_replica_output::parts_are_spelt;

/// Every datagram but a part of a control message is no longer than a packet, with the mark of any cluster.
pub fn others_are_short()
    ensures { OthersAreShort }
{}

/// Of all datagrams and replies that a node hands to its port, only parts of control messages are longer than a
/// packet.
pub fn only_parts_are_cut()
    ensures { OnlyPartsAreCut }
{
    replies_tell_the_first();
}

/// Two datagrams that a node's processes hand to their ports, and that are cut, have different first bytes, or they
/// are equal: a part names its sender, receiver, boot, message and place, and no two messages of a sender have one
/// boot and number.
pub fn cuts_are_apart()
    ensures { CutsAreApart }
{
    replies_tell_the_first();
    parts_are_spelt();
}

/// There is a lawful history in which a datagram is cut, so the premises of that law can be met.
pub fn cuts_happen()
    ensures { CutsHappen }
{}
