//! Cutting a control message into parts.

ghost use Rattle.std.specs.Prelude.{◌≡◌, ◌<◌, ◌≤◌, length, IfOk};
ghost use Rattle.crsm_segment.specs.Pieces.{sends_of};

use crsm_base::{Bytes, Datagram, NoMemory, PART_BYTES, Send, Sends, To};
use std::alloc::Global;

/// Returns the datagrams that carry a control message from replica to replica, in order. Each part has 8,000 bytes, and
/// the last one the rest. `number` counts the control messages that this boot of the sender has made. `NoMemory` if
/// memory runs out.
pub fn cut(
    alloc: Global,
    from: u32,
    to: u32,
    boot: u64,
    number: u64,
    bytes: &[u8],
) -> Result<Sends, NoMemory>
    requires some { 1 ≤ length bytes.now }
    requires few { length bytes.now ≤ 2162688 }
    ensures { IfOk result (λ sends. sends ≡ sends_of from to boot number bytes.now) }
{
    let size = PART_BYTES as usize;
    let count = ((bytes.len() + (size - 1)) / size) as u32;
    let mut sends = Sends::new(alloc);
    for index in 0..count {
        let start = size * index as usize;
        let end = (start + size).min(bytes.len());
        let mut piece = Bytes::new(alloc);
        piece.reserve(end - start)?;
        piece.append(&bytes[start..end])?;
        sends.push(Send {
            to: To::Replica(to),
            datagram: Datagram::Part {
                from,
                to,
                boot,
                number,
                index,
                count,
                bytes: piece,
            },
        })?;
    }
    Ok(sends)
}
