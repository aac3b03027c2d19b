//! The datagrams between replicas.

/// A datagram between replicas. Its bytes are a range of the bytes of all.
#[derive(Clone, Copy)]
pub(crate) struct PacketEntry {
    pub from: u32,
    pub to: u32,
    /// Offset of its first byte.
    pub start: usize,
    /// Offset after its last byte.
    pub end: usize,
    /// Whether it was delivered or lost.
    pub is_used: bool,
}

/// A view of a datagram between replicas, with its bytes.
#[derive(Clone, Copy)]
pub struct PacketView<'a> {
    pub from: u32,
    pub to: u32,
    pub bytes: &'a [u8],
}
