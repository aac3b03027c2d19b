//! Readers and writers of numbers and replica numbers.

ghost use Rattle.std.specs.Prelude.{◌≡◌, ◌++◌, IfOk, IfSome, IfNone, OnOk, OnErr, ◌<◌, ◌^◌};
ghost use Rattle.crsm_base.specs.Spelling.{SpeltReplica, SpeltU16, SpeltU32, SpeltU64, SpeltU8, u16_bytes, u32_bytes, u64_bytes, u8_bytes};
ghost use Rattle.crsm_codec.specs.Readers.{IsPrefix, HasNoPrefix, ReadsAgain};

use crsm_base::{Bytes, NoMemory};
use std::alloc::Global;

/// Parses a byte at the beginning of `bytes`. Returns it with the length of its encoding in bytes, or `None` if
/// `bytes` begins with no such encoding.
pub fn read_u8(_alloc: Global, bytes: &[u8]) -> Result<Option<(u8, usize)>, NoMemory>
    ensures found { IfOk result (λ r. IfSome r (IsPrefix SpeltU8 bytes.now)) }
    ensures none { IfOk result (λ r. IfNone r (HasNoPrefix SpeltU8 bytes.now)) }
    ensures again { ReadsAgain u8_bytes (λ number. number < 256) bytes.now result }
{
    match crsm_text_fields::take_u8(bytes) {
        Some((number, rest)) => Ok(Some((number, bytes.len() - rest.len()))),
        None => Ok(None),
    }
}

/// Appends the encoding of a byte. `NoMemory` if memory runs out; `out` is then unchanged.
pub fn write_u8(_alloc: Global, number: &u8, out: &mut Bytes) -> Result<(), NoMemory>
    ensures ok { OnOk result (out.new ≡ out.old ++ u8_bytes number.now) }
    ensures err { OnErr result (out.new ≡ out.old) }
{
    crsm_text_fields::put_u8(*number, out)
}

/// Parses a big-endian number of two bytes at the beginning of `bytes`. Returns it with the length of its encoding in
/// bytes, or `None` if `bytes` begins with no such encoding.
pub fn read_u16(_alloc: Global, bytes: &[u8]) -> Result<Option<(u16, usize)>, NoMemory>
    ensures found { IfOk result (λ r. IfSome r (IsPrefix SpeltU16 bytes.now)) }
    ensures none { IfOk result (λ r. IfNone r (HasNoPrefix SpeltU16 bytes.now)) }
    ensures again { ReadsAgain u16_bytes (λ number. number < 2 ^ 16) bytes.now result }
{
    match crsm_text_fields::take_u16(bytes) {
        Some((number, rest)) => Ok(Some((number, bytes.len() - rest.len()))),
        None => Ok(None),
    }
}

/// Appends the encoding of a big-endian number of two bytes. `NoMemory` if memory runs out; `out` is then unchanged.
pub fn write_u16(_alloc: Global, number: &u16, out: &mut Bytes) -> Result<(), NoMemory>
    ensures ok { OnOk result (out.new ≡ out.old ++ u16_bytes number.now) }
    ensures err { OnErr result (out.new ≡ out.old) }
{
    crsm_text_fields::put_u16(*number, out)
}

/// Parses a big-endian number of four bytes at the beginning of `bytes`. Returns it with the length of its encoding in
/// bytes, or `None` if `bytes` begins with no such encoding.
pub fn read_u32(_alloc: Global, bytes: &[u8]) -> Result<Option<(u32, usize)>, NoMemory>
    ensures found { IfOk result (λ r. IfSome r (IsPrefix SpeltU32 bytes.now)) }
    ensures none { IfOk result (λ r. IfNone r (HasNoPrefix SpeltU32 bytes.now)) }
    ensures again { ReadsAgain u32_bytes (λ number. number < 2 ^ 32) bytes.now result }
{
    match crsm_text_fields::take_u32(bytes) {
        Some((number, rest)) => Ok(Some((number, bytes.len() - rest.len()))),
        None => Ok(None),
    }
}

/// Appends the encoding of a big-endian number of four bytes. `NoMemory` if memory runs out; `out` is then unchanged.
pub fn write_u32(_alloc: Global, number: &u32, out: &mut Bytes) -> Result<(), NoMemory>
    ensures ok { OnOk result (out.new ≡ out.old ++ u32_bytes number.now) }
    ensures err { OnErr result (out.new ≡ out.old) }
{
    crsm_text_fields::put_u32(*number, out)
}

/// Parses a big-endian number of eight bytes at the beginning of `bytes`. Returns it with the length of its encoding
/// in bytes, or `None` if `bytes` begins with no such encoding.
pub fn read_u64(_alloc: Global, bytes: &[u8]) -> Result<Option<(u64, usize)>, NoMemory>
    ensures found { IfOk result (λ r. IfSome r (IsPrefix SpeltU64 bytes.now)) }
    ensures none { IfOk result (λ r. IfNone r (HasNoPrefix SpeltU64 bytes.now)) }
    ensures again { ReadsAgain u64_bytes (λ number. number < 2 ^ 64) bytes.now result }
{
    match crsm_text_fields::take_u64(bytes) {
        Some((number, rest)) => Ok(Some((number, bytes.len() - rest.len()))),
        None => Ok(None),
    }
}

/// Appends the encoding of a big-endian number of eight bytes. `NoMemory` if memory runs out; `out` is then unchanged.
pub fn write_u64(_alloc: Global, number: &u64, out: &mut Bytes) -> Result<(), NoMemory>
    ensures ok { OnOk result (out.new ≡ out.old ++ u64_bytes number.now) }
    ensures err { OnErr result (out.new ≡ out.old) }
{
    crsm_text_fields::put_u64(*number, out)
}

/// Parses a replica's number (one byte, 0 to 14) at the beginning of `bytes`. Returns it with the length of its
/// encoding in bytes, or `None` if `bytes` begins with no such encoding.
pub fn read_replica(_alloc: Global, bytes: &[u8]) -> Result<Option<(u32, usize)>, NoMemory>
    ensures found { IfOk result (λ r. IfSome r (IsPrefix SpeltReplica bytes.now)) }
    ensures none { IfOk result (λ r. IfNone r (HasNoPrefix SpeltReplica bytes.now)) }
    ensures again { ReadsAgain u8_bytes (λ replica. replica < 15) bytes.now result }
{
    match crsm_text_fields::take_replica(bytes) {
        Some((replica, rest)) => Ok(Some((replica, bytes.len() - rest.len()))),
        None => Ok(None),
    }
}

/// Appends the encoding of a replica's number (one byte, 0 to 14). `NoMemory` if memory runs out; `out` is then
/// unchanged.
pub fn write_replica(_alloc: Global, replica: &u32, out: &mut Bytes) -> Result<(), NoMemory>
    requires { replica.now < 15 }
    ensures ok { OnOk result (out.new ≡ out.old ++ u8_bytes replica.now) }
    ensures err { OnErr result (out.new ≡ out.old) }
{
    crsm_text_fields::put_u8(*replica as u8, out)
}
