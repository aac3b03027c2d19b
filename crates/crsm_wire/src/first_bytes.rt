//! Parsing of a datagram's first bytes, for ports that do not parse the rest.

ghost use Rattle.std.specs.Prelude.{◌≡◌};
ghost use Rattle.crsm_wire.specs.Marks.{named_sender};

use crate::marks::unmarked;
use crsm_text_fields::take_u64;

/// The identity of a command: its client and its number.
#[derive(Clone, Copy, PartialEq)]
pub struct CommandId {
    client: u64,
    number: u64,
}

/// Bytes of a part that identify its message: the sender's boot and the message's number.
const NUMBER_BYTES: usize = 16;

/// The first fields of a datagram, by its kind. The bytes after them are not checked.
#[derive(Clone, Copy)]
pub enum PacketHead<'a> {
    /// A frame, with its link, epoch and sequence number.
    Frame {
        from: u8,
        to: u8,
        epoch: u64,
        number: u64,
    },
    /// An acknowledgement: `from` expects the frame `next` of `to`.
    Ack {
        from: u8,
        to: u8,
        epoch: u64,
        next: u64,
    },
    /// A part of a control message: its bytes after the message's number.
    Part(&'a [u8]),
    /// A client's request for a command.
    Request(CommandId),
    /// A reply to a command.
    Reply(CommandId),
    /// An operator's request for a membership change.
    Operate,
    /// Any other bytes.
    Other,
}

/// Parses the two numbers at the beginning of the bytes.
fn two_numbers(bytes: &[u8]) -> Option<(u64, u64)> {
    let (first, bytes) = take_u64(bytes)?;
    let (second, _) = take_u64(bytes)?;
    Some((first, second))
}

/// Parses the command at the beginning of the bytes.
fn command_of(bytes: &[u8]) -> Option<CommandId> {
    let (client, number) = two_numbers(bytes)?;
    Some(CommandId { client, number })
}

/// Parses the first fields of a datagram, with or without the mark of a cluster.
pub fn peek(bytes: &[u8]) -> PacketHead<'_> {
    match unmarked(bytes) {
        [1, from, to, rest @ ..] => match two_numbers(rest) {
            Some((epoch, number)) => PacketHead::Frame {
                from: *from,
                to: *to,
                epoch,
                number,
            },
            None => PacketHead::Other,
        },
        [2, from, to, rest @ ..] => match two_numbers(rest) {
            Some((epoch, next)) => PacketHead::Ack {
                from: *from,
                to: *to,
                epoch,
                next,
            },
            None => PacketHead::Other,
        },
        [3, _, _, rest @ ..] if rest.len() >= NUMBER_BYTES => PacketHead::Part(
            &rest[NUMBER_BYTES..],
        ),
        [4, rest @ ..] => match command_of(rest) {
            Some(command) => PacketHead::Request(command),
            None => PacketHead::Other,
        },
        [5, rest @ ..] => match command_of(rest) {
            Some(command) => PacketHead::Reply(command),
            None => PacketHead::Other,
        },
        [6, ..] => PacketHead::Operate,
        _ => PacketHead::Other,
    }
}

/// Returns the replica that the bytes name as their sender, if any: those of frames, acknowledgements and parts do.
pub fn sender_in(bytes: &[u8]) -> Option<u8>
    ensures { result ≡ named_sender bytes.now }
{
    match bytes {
        [1..=3, from, ..] => Some(*from),
        _ => None,
    }
}
