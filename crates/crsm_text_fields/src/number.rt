//! Encoding and parsing of numbers, and splitting off runs of bytes.

ghost use Rattle.std.specs.Prelude.{◌≡◌, ◌++◌, OnOk, OnErr};
ghost use Rattle.std.specs.Option.{option_map};
ghost use Rattle.crsm_base.specs.Spelling.{u8_bytes, u16_bytes, u32_bytes, u64_bytes};
ghost use Rattle.crsm_base.specs.Parser.{u8_at};
ghost use Rattle.crsm_base.specs.Reading.{u16_at, u32_at, u64_at, replica_at, run_at};

use byteorder::{BigEndian, ByteOrder};
use crsm_base::{Bytes, MAX_REPLICAS, NoMemory};

/// Appends the encoding of a byte. `NoMemory` if memory runs out; `out` is then unchanged.
pub fn put_u8(number: u8, out: &mut Bytes) -> Result<(), NoMemory>
    ensures ok { OnOk result (out.new ≡ out.old ++ u8_bytes number) }
    ensures err { OnErr result (out.new ≡ out.old) }
{
    out.push(number)
}

/// Appends the encoding of a big-endian number of two bytes. `NoMemory` if memory runs out; `out` is then unchanged.
#[tactic(auto, unfolding(crsm_base::specs::Spelling::u16_bytes))]
pub fn put_u16(number: u16, out: &mut Bytes) -> Result<(), NoMemory>
    ensures ok { OnOk result (out.new ≡ out.old ++ u16_bytes number) }
    ensures err { OnErr result (out.new ≡ out.old) }
{
    let mut cells = [0u8; 2];
    BigEndian::write_u16(&mut cells, number);
    out.append(&cells)
}

/// Appends the encoding of a big-endian number of four bytes. `NoMemory` if memory runs out; `out` is then unchanged.
#[tactic(auto, unfolding(crsm_base::specs::Spelling::u32_bytes))]
pub fn put_u32(number: u32, out: &mut Bytes) -> Result<(), NoMemory>
    ensures ok { OnOk result (out.new ≡ out.old ++ u32_bytes number) }
    ensures err { OnErr result (out.new ≡ out.old) }
{
    let mut cells = [0u8; 4];
    BigEndian::write_u32(&mut cells, number);
    out.append(&cells)
}

/// Appends the encoding of a big-endian number of eight bytes. `NoMemory` if memory runs out; `out` is then unchanged.
#[tactic(auto, unfolding(crsm_base::specs::Spelling::u64_bytes))]
pub fn put_u64(number: u64, out: &mut Bytes) -> Result<(), NoMemory>
    ensures ok { OnOk result (out.new ≡ out.old ++ u64_bytes number) }
    ensures err { OnErr result (out.new ≡ out.old) }
{
    let mut cells = [0u8; 8];
    BigEndian::write_u64(&mut cells, number);
    out.append(&cells)
}

/// Parses a byte at the beginning of `bytes`. Returns it and the remaining bytes, or `None` if they do not begin with
/// one.
#[tactic(auto, unfolding(crsm_base::specs::Parser::u8_at))]
pub fn take_u8(bytes: &[u8]) -> Option<(u8, &[u8])>
    ensures { option_map (λ x. (x.0, x.1.now)) result ≡ u8_at bytes.now }
{
    match bytes {
        [] => None,
        [first, rest @ ..] => Some((*first, rest)),
    }
}

/// Parses a big-endian number of two bytes at the beginning of `bytes`. Returns it and the remaining bytes, or `None`
/// if they do not begin with one.
#[tactic(auto, unfolding(crsm_base::specs::Reading::u16_at))]
pub fn take_u16(bytes: &[u8]) -> Option<(u16, &[u8])>
    ensures { option_map (λ x. (x.0, x.1.now)) result ≡ u16_at bytes.now }
{
    if bytes.len() < 2 {
        return None;
    }
    Some((BigEndian::read_u16(bytes), &bytes[2..]))
}

/// Parses a big-endian number of four bytes at the beginning of `bytes`. Returns it and the remaining bytes, or `None`
/// if they do not begin with one.
#[tactic(auto, unfolding(crsm_base::specs::Reading::u32_at))]
pub fn take_u32(bytes: &[u8]) -> Option<(u32, &[u8])>
    ensures { option_map (λ x. (x.0, x.1.now)) result ≡ u32_at bytes.now }
{
    if bytes.len() < 4 {
        return None;
    }
    Some((BigEndian::read_u32(bytes), &bytes[4..]))
}

/// Parses a big-endian number of eight bytes at the beginning of `bytes`. Returns it and the remaining bytes, or `None`
/// if they do not begin with one.
#[tactic(auto, unfolding(crsm_base::specs::Reading::u64_at))]
pub fn take_u64(bytes: &[u8]) -> Option<(u64, &[u8])>
    ensures { option_map (λ x. (x.0, x.1.now)) result ≡ u64_at bytes.now }
{
    if bytes.len() < 8 {
        return None;
    }
    Some((BigEndian::read_u64(bytes), &bytes[8..]))
}

/// Parses a replica's number at the beginning of `bytes`. Returns it and the remaining bytes, or `None` if they do not
/// begin with one.
#[tactic(auto, unfolding(crsm_base::specs::Reading::replica_at))]
pub fn take_replica(bytes: &[u8]) -> Option<(u32, &[u8])>
    ensures { option_map (λ x. (x.0, x.1.now)) result ≡ replica_at bytes.now }
{
    let (replica, rest) = take_u8(bytes)?;
    if u32::from(replica) < MAX_REPLICAS {
        Some((u32::from(replica), rest))
    } else {
        None
    }
}

/// Splits `bytes` after the first `len`, or returns `None` if there are fewer.
#[tactic(auto, unfolding(crsm_base::specs::Reading::run_at))]
pub fn take_run(len: usize, bytes: &[u8]) -> Option<(&[u8], &[u8])>
    ensures { option_map (λ x. (x.0.now, x.1.now)) result ≡ run_at len bytes.now }
{
    if bytes.len() < len {
        return None;
    }
    Some(bytes.split_at(len))
}
