//! Encoding and parsing of datagrams and control messages, and whether values can be encoded. Lengths are in bytes.
#![tactic(auto)]

mod datagram;
mod decision;
mod entries;
mod fault;
mod fields;
mod first_bytes;
mod head;
mod laws;
mod marks;
mod messages;
mod put;
mod read;
mod take;

pub use decision::is_decision_spelt;
pub use fault::WireError;
pub use first_bytes::{CommandId, PacketHead, peek, sender_in};
pub use laws::{one_spelling_each, what_is_read_is_spelt};
pub use marks::{MARK_BYTES, behind_mark, mark, mark_before, unmarked};
pub use messages::{is_control_spelt, is_rec_spelt};
pub use put::{put_control, put_datagram, put_decide};
pub use read::{read_control, read_datagram, write_control, write_datagram};
