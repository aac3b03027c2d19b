//! Encodings of fixed length, each appended by a single call.

ghost use Rattle.std.specs.Prelude.{◌≡◌, ◌<◌, ◌∷◌, ◌++◌, OnOk};
ghost use Rattle.crsm_base.specs.Spelling.{u8_bytes, u64_bytes, stamp_bytes, FitsStamp};

use crsm_base::{Bytes, NoMemory, Stamp};

// Encodes a tag byte and a u64.
#[tactic(auto, unfolding(crsm_base::specs::Spelling::u64_bytes))]
pub(crate) fn marked(mark: u8, number: u64) -> [u8; 9]
    ensures { result ≡ mark ∷ u64_bytes number }
{
    let mut cells = [mark; 9];
    cells[1..].copy_from_slice(&number.to_be_bytes());
    cells
}

// Encodes two u64.
#[tactic(auto, unfolding(crsm_base::specs::Spelling::u64_bytes))]
fn pair(first: u64, second: u64) -> [u8; 16]
    ensures { result ≡ u64_bytes first ++ u64_bytes second }
{
    let mut cells = [0; 16];
    cells[..8].copy_from_slice(&first.to_be_bytes());
    cells[8..].copy_from_slice(&second.to_be_bytes());
    cells
}

// Encodes a stamp and a u64.
#[tactic(auto, unfolding(crsm_base::specs::Spelling::u64_bytes, crsm_base::specs::Spelling::stamp_bytes))]
fn stamp_then(stamp: Stamp, number: u64) -> [u8; 17]
    requires { FitsStamp stamp }
    ensures { result ≡ stamp_bytes stamp ++ u64_bytes number }
{
    let mut cells = [0; 17];
    cells[..8].copy_from_slice(&stamp.time.to_be_bytes());
    cells[8..].copy_from_slice(&marked(stamp.origin as u8, number));
    cells
}

/// Encodes the head of a datagram between two replicas: its tag, the replicas, and two numbers (of a frame the epoch
/// and the sequence number).
pub fn head(tag: u8, from: u32, to: u32, first: u64, second: u64) -> [u8; 19]
    requires from { from < 256 }
    requires to { to < 256 }
    ensures { result ≡ tag ∷ (u8_bytes from ++ (u8_bytes to ++ (u64_bytes first ++ u64_bytes second))) }
{
    let mut cells = [0; 19];
    cells[0] = tag;
    cells[1] = from as u8;
    cells[2] = to as u8;
    cells[3..].copy_from_slice(&pair(first, second));
    cells
}

// Encodes a PREPAREOK payload with its tag.
fn prepare_ok(stamp: Stamp, at: u64) -> [u8; 18]
    requires { FitsStamp stamp }
    ensures { result ≡ 2 ∷ (stamp_bytes stamp ++ u64_bytes at) }
{
    let mut cells = [2; 18];
    cells[1..].copy_from_slice(&stamp_then(stamp, at));
    cells
}

fn joined(prefix: &[u8; 19], back: &[u8; 18]) -> [u8; 37]
    ensures { result ≡ prefix.now ++ back.now }
{
    let mut cells = [0; 37];
    cells[..19].copy_from_slice(prefix);
    cells[19..].copy_from_slice(back);
    cells
}

/// Appends the head of a datagram between two replicas. `NoMemory` if memory runs out.
pub fn put_head(
    tag: u8,
    from: u32,
    to: u32,
    first: u64,
    second: u64,
    out: &mut Bytes,
) -> Result<(), NoMemory>
    requires from { from < 256 }
    requires to { to < 256 }
    ensures { OnOk result (out.new ≡ out.old ++ tag ∷ (u8_bytes from ++ (u8_bytes to ++ (u64_bytes first ++ u64_bytes second)))) }
{
    out.append(&head(tag, from, to, first, second))
}

/// Appends the head of a frame and a PREPAREOK payload. `NoMemory` if memory runs out.
pub fn put_prepare_ok(
    prefix: &[u8; 19],
    stamp: Stamp,
    at: u64,
    out: &mut Bytes,
) -> Result<(), NoMemory>
    requires { FitsStamp stamp }
    ensures { OnOk result (out.new ≡ out.old ++ (prefix.now ++ 2 ∷ (stamp_bytes stamp ++ u64_bytes at))) }
{
    out.append(&joined(prefix, &prepare_ok(stamp, at)))
}

/// Appends a CLOCKTIME payload with its tag; `at` is a time that the sender's clock issued. `NoMemory` if memory runs
/// out.
pub fn put_clock_time(at: u64, out: &mut Bytes) -> Result<(), NoMemory>
    ensures { OnOk result (out.new ≡ out.old ++ 3 ∷ u64_bytes at) }
{
    out.append(&marked(3, at))
}
