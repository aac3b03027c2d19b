//! Packets of several datagrams, from the list of those that wait.

ghost use Rattle.std.specs.Prelude.{◌≡◌, ◌⊎◌, ◌+◌, ◌≤◌, ◌++◌, ◌∷◌, [], drop, length, false, true, Some, IfSome, vec_capacity, vec_len};
ghost use Rattle.crsm_port.specs.Passing.{NoMore, either};
ghost use Rattle.crsm_port.specs.Sent.{packets_of};
ghost use Rattle.crsm_port_packets.specs.Carrying.{carried};
ghost use Rattle.crsm_port_packets.specs.Format.{entry, entry_at, is_packed};
ghost use Rattle.crsm_port_packets.specs.Given.{LetsGo, PacketGoes};
ghost use Rattle.crsm_port_packets.specs.Sent.{HasOneMore, IsBundle, sent_with, standing_in};

use crate::format::{BUNDLE_HEAD, LENGTH_BYTES, MOST_BYTES, first_entry, is_packed};
use crsm_port::{Port, SentPackets};

/// Returns whether a packet has room for one more datagram of this length.
fn has_room(packet: &[u8], len: usize) -> bool
    ensures { result ≡ true → length packet.now + (4 + len) ≤ 1232 }
{
    packet.len() <= MOST_BYTES
        && len <= MOST_BYTES
        && packet.len() + BUNDLE_HEAD.len() + LENGTH_BYTES + len <= MOST_BYTES
}

/// Appends bytes, for which there is memory.
pub(crate) fn append(packet: &mut Vec<u8>, bytes: &[u8])
    requires { vec_len packet.old + length bytes.now ≤ vec_capacity packet.old }
    ensures items { packet.new.items ≡ packet.old.items ++ bytes.now }
    ensures len { vec_len packet.new ≡ vec_len packet.old + length bytes.now }
    ensures capacity { vec_capacity packet.old ≤ vec_capacity packet.new }
{
    let _ = packet.extend_from_slice(bytes);
}

/// Writes the bytes before the datagrams of a bundle, if the packet is empty. There is memory for them.
fn begin(packet: &mut Vec<u8>)
    requires { vec_len packet.old + 2 ≤ vec_capacity packet.old }
    ensures first { packet.old.items ≡ [] → packet.new.items ≡ 20 ∷ 0 ∷ [] }
    ensures more { (packet.old.items ≡ [] → ⊥) → packet.new.items ≡ packet.old.items }
    ensures len { vec_len packet.new ≤ vec_len packet.old + 2 }
    ensures capacity { vec_capacity packet.old ≤ vec_capacity packet.new }
{
    if packet.is_empty() {
        append(packet, &BUNDLE_HEAD);
    }
}

/// Appends a datagram of at most 1,232 bytes, behind its length. There is memory for it.
fn append_entry(packet: &mut Vec<u8>, bytes: &[u8])
    requires short { length bytes.now ≤ 1232 }
    requires room { vec_len packet.old + (2 + length bytes.now) ≤ vec_capacity packet.old }
    ensures items { packet.new.items ≡ packet.old.items ++ entry bytes.now }
    ensures capacity { vec_capacity packet.old ≤ vec_capacity packet.new }
{
    let len = [(bytes.len() / 256) as u8, (bytes.len() % 256) as u8];
    append(packet, &len);
    append(packet, bytes);
}

/// Appends a datagram of at most 1,232 bytes to a packet, which is empty or a bundle. There is memory for it.
fn take_in(packet: &mut Vec<u8>, bytes: &[u8])
    requires short { length bytes.now ≤ 1232 }
    requires room { vec_len packet.old + (4 + length bytes.now) ≤ vec_capacity packet.old }
    ensures one_more { HasOneMore bytes.now packet.old.items packet.new.items }
    ensures capacity { vec_capacity packet.old ≤ vec_capacity packet.new }
{
    begin(packet);
    append_entry(packet, bytes);
}

/// Returns the datagram of a bundle that has only one, so that it can go as it is.
fn lone(packet: &[u8]) -> Option<&[u8]>
    ensures first { IfSome result (λ bytes. entry_at (drop 2 packet.now) ≡ Some (bytes.now, [])) }
    ensures plain { IfSome result (λ bytes. is_packed bytes.now ≡ false) }
{
    match first_entry(packet.get(BUNDLE_HEAD.len()..)?) {
        Some((bytes, [])) if !is_packed(bytes) => Some(bytes),
        _ => None,
    }
}

/// Sends a packet that has a datagram, and returns whether it went with the byte 20.
fn send_packet<P: Port>(to: u64, packet: &[u8], port: &mut P) -> bool
    requires { IsBundle packet.now }
    ensures gives { NoMore (P.gives port.old) (P.gives port.new) }
    ensures sends { NoMore (either (carried (P.may_send port.old)) (standing_in to packet.now)) (carried (P.may_send port.new)) }
    ensures goes { PacketGoes to packet.now (P.meaning port.old) (P.meaning port.new) }
{
    if packet.is_empty() {
        return false;
    }
    match lone(packet) {
        Some(bytes) => {
            let _ = port.send(to, bytes);
            false
        }
        None => {
            let _ = port.send(to, packet);
            true
        }
    }
}

/// Sends a packet if it has no room for one more datagram of this length, and returns whether it went with the byte 20.
fn make_room<P: Port>(to: u64, len: usize, packet: &mut Vec<u8>, port: &mut P) -> bool
    requires { IsBundle packet.old.items }
    ensures gives { NoMore (P.gives port.old) (P.gives port.new) }
    ensures sends { NoMore (either (carried (P.may_send port.old)) (standing_in to packet.old.items)) (carried (P.may_send port.new)) }
    ensures kept { ((packet.new.items ≡ packet.old.items) × (port.new ≡ port.old)) ⊎ ((packet.new.items ≡ []) × PacketGoes to packet.old.items (P.meaning port.old) (P.meaning port.new)) }
    ensures room { len ≤ 1232 → vec_len packet.new + (4 + len) ≤ 1236 }
    ensures capacity { vec_capacity packet.new ≡ vec_capacity packet.old }
{
    if has_room(packet.as_slice(), len) {
        return false;
    }
    let has_packed = send_packet(to, packet.as_slice(), port);
    packet.clear();
    has_packed
}

/// Sends the datagrams that wait for an address in packets of at most 1,232 bytes, and returns whether one of these went
/// with the byte 20. A datagram that goes alone goes as it is. The buffer is for a packet and has memory for it.
pub(crate) fn send_waiting<P: Port>(
    waiting: &SentPackets,
    to: u64,
    packet: &mut Vec<u8>,
    port: &mut P,
) -> bool
    requires { 1236 ≤ vec_capacity packet.old }
    ensures gives { NoMore (P.gives port.old) (P.gives port.new) }
    ensures sends { NoMore (sent_with (P.may_send port.old) (packets_of waiting.now)) (carried (P.may_send port.new)) }
    ensures goes { LetsGo (to ∷ []) (packets_of waiting.now) (P.meaning port.old) (P.meaning port.new) }
    ensures capacity { 1236 ≤ vec_capacity packet.new }
{
    let mut has_packed = false;
    packet.clear();
    for index in 0..waiting.len() {
        match waiting.get(index) {
            Some((address, bytes)) if address == to && bytes.len() <= MOST_BYTES => {
                has_packed |= make_room(to, bytes.len(), packet, port);
                take_in(packet, bytes);
            }
            _ => {}
        }
    }
    has_packed | send_packet(to, packet.as_slice(), port)
}
