//! The fragments of a datagram, from the datagram.

ghost use Rattle.std.specs.Prelude.{◌≡◌, ◌⊎◌, ◌<◌, ◌≤◌, ◌*◌, OnErr, OnOk, length, take, drop, vec_capacity};
ghost use Rattle.crsm_port.specs.Passing.{NoMore, either};
ghost use Rattle.crsm_port_faults.specs.Counts.{Rose};
ghost use Rattle.crsm_port_packets.specs.Cutting.{IsFragmentOf, SendsCut, fragment_at, fragments_of};

use crate::bundle::append;
use crate::format::{FRAGMENT_START, MOST_FRAGMENTS, MOST_IN_FRAGMENT};
use crsm_base::Failed;
use crsm_port::Port;

/// Returns the bytes of a datagram that its fragment at an index has.
fn piece_at(bytes: &[u8], index: usize) -> &[u8]
    requires { index < 7 }
    ensures bytes { result.now ≡ take 1192 (drop (index * 1192) bytes.now) }
    ensures short { length result.now ≤ 1192 }
{
    let start = (index * MOST_IN_FRAGMENT).min(bytes.len());
    let rest = &bytes[start..];
    &rest[..MOST_IN_FRAGMENT.min(rest.len())]
}

/// Writes the fragment at an index of a datagram to the packet, in place of what is there. There is memory for it.
fn write_fragment(packet: &mut Vec<u8>, bytes: &[u8], name: &[u8], index: usize, count: usize)
    requires name { length name.now ≡ 36 }
    requires index { index < count }
    requires count { count ≤ 7 }
    requires all { length bytes.now ≤ count * 1192 }
    requires room { 1236 ≤ vec_capacity packet.old }
    ensures fragment { IsFragmentOf bytes.now name.now packet.new.items }
    ensures items { packet.new.items ≡ fragment_at bytes.now name.now index count }
    ensures capacity { 1236 ≤ vec_capacity packet.new }
{
    packet.clear();
    append(packet, &FRAGMENT_START);
    append(packet, name);
    append(packet, &[index as u8, count as u8]);
    append(packet, piece_at(bytes, index));
}

/// Sends a datagram as fragments under a name of 36 bytes. `Failed` if it is longer than 8,344 bytes, or one of them was
/// lost. The buffer is for a packet and has memory for it.
pub(crate) fn send_fragments<P: Port>(
    to: u64,
    bytes: &[u8],
    name: &[u8],
    packet: &mut Vec<u8>,
    port: &mut P,
) -> Result<(), Failed>
    requires name { length name.now ≡ 36 }
    requires room { 1236 ≤ vec_capacity packet.old }
    ensures gives { NoMore (P.gives port.old) (P.gives port.new) }
    ensures sends { NoMore (either (P.may_send port.old) (fragments_of to bytes.now name.now)) (P.may_send port.new) }
    ensures goes { OnOk result (SendsCut to bytes.now name.now (P.meaning port.old) (P.meaning port.new)) }
    ensures refused { OnErr result ((8_344 < length bytes.now) ⊎ Rose (P.meaning port.old).losses (P.meaning port.new).losses) }
    ensures capacity { 1236 ≤ vec_capacity packet.new }
{
    let count = bytes.len().div_ceil(MOST_IN_FRAGMENT);
    if count > MOST_FRAGMENTS {
        return Err(Failed);
    }
    for index in 0..count {
        write_fragment(packet, bytes, name, index, count);
        port.send(to, packet.as_slice())?;
    }
    Ok(())
}
