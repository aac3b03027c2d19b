//! The mark of a cluster, which precedes its datagrams on a network that clusters share.

ghost use Rattle.std.specs.Prelude.{◌≡◌, IfOk};
ghost use Rattle.crsm_wire.specs.Marks.{behind_any_mark, mark_in, mark_of, stripped};

use crate::head::marked;
use crsm_base::{Bytes, NoMemory};
use std::alloc::Global;

/// The first byte of a mark. No datagram begins with it.
const MARK_BYTE: u8 = 16;

/// Length of a mark in bytes: the byte 16, and the cluster's number as u64.
pub const MARK_BYTES: usize = 9;

/// Encodes the mark of a cluster.
pub fn mark(cluster: u64) -> [u8; MARK_BYTES]
    ensures { result ≡ mark_of cluster }
{
    marked(MARK_BYTE, cluster)
}

/// Returns the bytes that precede each datagram of a cluster: its mark, or none for cluster 0. `NoMemory` if memory
/// runs out.
pub fn mark_before(alloc: Global, cluster: u64) -> Result<Bytes, NoMemory>
    ensures { IfOk result (λ mark. mark ≡ mark_in cluster) }
{
    let mut before = Bytes::new(alloc);
    if cluster > 0 {
        let Ok(()) = before.append(&mark(cluster)) else {
            drop(before);
            return Err(NoMemory);
        };
    }
    Ok(before)
}

/// Returns the bytes after this mark, or no bytes if they do not begin with it.
pub fn behind_mark<'a>(bytes: &'a [u8], mark: &[u8]) -> &'a [u8]
    ensures { result.now ≡ stripped mark.now bytes.now }
{
    match bytes.starts_with(mark) {
        true => &bytes[mark.len()..],
        false => &[],
    }
}

/// Returns the bytes after the mark of any cluster, or all bytes if they have no mark.
pub fn unmarked(bytes: &[u8]) -> &[u8]
    ensures { result.now ≡ behind_any_mark bytes.now }
{
    match bytes.first() {
        Some(&MARK_BYTE) if bytes.len() >= MARK_BYTES => &bytes[MARK_BYTES..],
        _ => bytes,
    }
}
