//! The format of packets. A packet is a plain datagram, or it has the byte 20, a kind, and:
//!
//! - kind 0: a bundle. Each of its datagrams follows its length, a u16. A bundle without a datagram is a greeting.
//! - kind 1: a fragment of a datagram: the datagram's name, which is its first 36 bytes; the index of the fragment and
//!   their count, a u8 each; and the fragment's bytes.
//!
//! A datagram that is cut is a part of a control message. Its name has the mark of the cluster, the sender, the receiver,
//! the sender's boot, which is counted on its disk, the message's number and the part's index. So no clock is asked for
//! what tells datagrams apart.

ghost use Rattle.std.specs.Prelude.{◌≡◌, ◌<◌, ◌≤◌, ◌+◌, ◌++◌, ◌∷◌, ℕ, List, [], IfSome, None, Some, drop, length};
ghost use Rattle.crsm_port_packets.specs.Cutting.{name_of};
ghost use Rattle.crsm_port_packets.specs.Format.{IsFragment, IsNoBundle, IsNoFragment, IsOfKind, IsWithinCount, entry_at, fields_of, is_packed};

/// The first byte of a packet that is no plain datagram. No datagram begins with it.
const PACKET_BYTE: u8 = 20;

const BUNDLE: u8 = 0;

const FRAGMENT: u8 = 1;

/// The bytes before the datagrams of a bundle; alone they are a greeting.
pub(crate) const BUNDLE_HEAD: [u8; 2] = [PACKET_BYTE, BUNDLE];

/// Length of the field before each datagram of a bundle, in bytes.
pub(crate) const LENGTH_BYTES: usize = 2;

/// The bytes before the name of a fragment.
pub(crate) const FRAGMENT_START: [u8; 2] = [PACKET_BYTE, FRAGMENT];

/// Length of the name of a datagram, in bytes.
pub(crate) const NAME_BYTES: usize = 36;

/// Length of the fields before a fragment's bytes: the byte 20, the kind, the name, the index and the count.
const FRAGMENT_HEAD: usize = NAME_BYTES + 4;

/// Maximum length of a bundle or a fragment in bytes. Links of 1,280 bytes carry it with the headers of IP and UDP.
pub(crate) const MOST_BYTES: usize = 1_232;

/// Maximum number of bytes of a datagram in one fragment.
pub(crate) const MOST_IN_FRAGMENT: usize = MOST_BYTES - FRAGMENT_HEAD;

/// Maximum number of fragments of a datagram, whose length is at most 8,201 bytes.
pub(crate) const MOST_FRAGMENTS: usize = 7;

/// A fragment of a datagram.
#[derive(Clone, Copy)]
pub(crate) struct Fragment<'a> {
    /// The name of the datagram: its first bytes.
    pub(crate) name: &'a [u8; NAME_BYTES],
    /// The index of the fragment, from 0, and the number of fragments of the datagram.
    pub(crate) index: u8,
    pub(crate) count: u8,
    pub(crate) bytes: &'a [u8],
}

/// A packet that is no plain datagram, by its first bytes.
#[derive(Clone, Copy)]
pub(crate) enum PacketKind<'a> {
    /// The datagrams of a bundle, each after its length.
    Bundle(&'a [u8]),
    Fragment(Fragment<'a>),
    /// Neither of these.
    Other,
}

/// Returns whether a packet has the byte 20 and a kind; otherwise it is a datagram as it is.
pub(crate) fn is_packed(packet: &[u8]) -> bool
    ensures { result ≡ is_packed packet.now }
{
    match packet {
        [first, ..] => *first == PACKET_BYTE,
        [] => false,
    }
}

/// Parses the first bytes of a packet that is no plain datagram.
pub(crate) fn kind_of(packet: &[u8]) -> PacketKind<'_>
    ensures kind { IsOfKind packet.now result }
    ensures within { IsWithinCount result }
{
    match bundle_in(packet) {
        Some(entries) => PacketKind::Bundle(entries),
        None => match fragment_in(packet) {
            Some(fragment) => PacketKind::Fragment(fragment),
            None => PacketKind::Other,
        },
    }
}

/// Returns the datagrams of a bundle, each after its length, if the packet is one.
fn bundle_in(packet: &[u8]) -> Option<&[u8]>
    ensures some { IfSome result (λ entries. packet.now ≡ 20 ∷ 0 ∷ entries.now) }
    ensures none { result ≡ None → IsNoBundle packet.now }
{
    match packet {
        [PACKET_BYTE, BUNDLE, entries @ ..] => Some(entries),
        _ => None,
    }
}

/// Returns the fragment that the packet is, if it is one.
fn fragment_in(packet: &[u8]) -> Option<Fragment<'_>>
    ensures fragment { IfSome result (λ f. IsFragment packet.now (fields_of f)) }
    ensures none { result ≡ None → IsNoFragment packet.now }
    ensures within { IfSome result (λ f. f.index < f.count) }
{
    match packet {
        [PACKET_BYTE, FRAGMENT, rest @ ..] => fragment_of(rest),
        _ => None,
    }
}

/// Parses a fragment after its kind. `None` if a field is missing, or if its index is not below its count.
fn fragment_of(bytes: &[u8]) -> Option<Fragment<'_>>
    ensures name { IfSome result (λ f. length f.name.now ≡ 36) }
    ensures fields { IfSome result (λ f. bytes.now ≡ f.name.now ++ f.index ∷ f.count ∷ f.bytes.now) }
    ensures within { IfSome result (λ f. f.index < f.count) }
    ensures none { result ≡ None → (name : List ℕ) (index count : ℕ) (rest : List ℕ) → length name ≡ 36 → bytes.now ≡ name ++ index ∷ count ∷ rest → index < count → ⊥ }
{
    let (name, rest) = bytes.split_first_chunk::<NAME_BYTES>()?;
    let (index, count, bytes) = index_in(rest)?;
    Some(Fragment {
        name,
        index,
        count,
        bytes,
    })
}

/// Parses the index and the count of a fragment, and returns them with the bytes after them. `None` if one is missing, or
/// if the index is not below the count.
fn index_in(bytes: &[u8]) -> Option<(u8, u8, &[u8])>
    ensures fields { IfSome result (λ x. bytes.now ≡ x.0 ∷ x.1 ∷ x.2.now) }
    ensures within { IfSome result (λ x. x.0 < x.1) }
    ensures none { result ≡ None → (index count : ℕ) (rest : List ℕ) → bytes.now ≡ index ∷ count ∷ rest → index < count → ⊥ }
{
    match bytes {
        [index, count, rest @ ..] if index < count => Some((*index, *count, rest)),
        _ => None,
    }
}

/// Returns the name of a datagram, which all its fragments have.
pub(crate) fn name_of(datagram: &[u8]) -> &[u8]
    requires { 36 ≤ length datagram.now }
    ensures name { result.now ≡ name_of datagram.now }
    ensures len { length result.now ≡ 36 }
{
    &datagram[..NAME_BYTES]
}

/// Splits the entries of a bundle into the first datagram and the entries after it. `None` if there is no whole one.
pub(crate) fn first_entry(entries: &[u8]) -> Option<(&[u8], &[u8])>
    ensures first { IfSome result (λ e. entry_at entries.now ≡ Some (e.0.now, e.1.now)) }
    ensures rest { IfSome result (λ e. e.1.now ≡ drop (2 + length e.0.now) entries.now) }
    ensures len { IfSome result (λ e. 2 + length e.0.now + length e.1.now ≡ length entries.now) }
    ensures none { result ≡ None → entry_at entries.now ≡ None }
{
    match entries {
        [high, low, rest @ ..] => {
            let len = usize::from(*high) * 256 + usize::from(*low);
            if len > rest.len() {
                return None;
            }
            Some(rest.split_at(len))
        }
        _ => None,
    }
}
