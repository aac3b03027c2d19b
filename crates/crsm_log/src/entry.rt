//! Encoding and parsing of log file entries.

ghost use Rattle.std.specs.Prelude.{◌≡◌, ◌≢◌, ◌+◌, ◌*◌, ◌^◌, ◌<◌, ◌≤◌, ◌↔◌, ℕ, [], ◌∷◌, ◌++◌, length, IfOk, IfErr, IfSome, OnOk, IsNone, slice_index, MatchResult, map, false};
ghost use Rattle.std.specs.Bool.{OnTrue};
ghost use Rattle.crsm_log.specs.Format.{four_bytes, body_entry, cluster_entry, is_cluster, length_of, number_at, number_in, stands, may_stand};
ghost use Rattle.crsm_log.specs.Log.{IsPast, entry_bytes};
ghost use Rattle.crsm_log.specs.First.{ReadsFirst, ReadsFile, ReadsBad};
ghost use Rattle.crsm_log.specs.declared.errors.MountError.TheVariants.{DiskFault, BadGate};

use crate::errors::MountError;
use crsm_base::{Bodies, MAX_LOG_BYTES, NoMemory};
use std::alloc::Global;

// The length field of a cluster entry, whose eight bytes are the cluster's number.
pub(crate) const CLUSTER_FIELD: u64 = 0x8000_0008;

// Exclusive upper bound of a body's length in bytes, so that the length is never a field of another kind.
const BODY_BOUND: u64 = 0x8000_0000;

// Maximum capacity in bytes of the memory that is kept for the next entry.
const MAX_KEPT_BYTES: usize = 65_536;

// Length in bytes of a cluster entry's content.
pub(crate) const CLUSTER_BYTES: u64 = 8;

/// Returns the offset after an entry of this length at gate `at`, including its next gate, or `None` if that is past
/// `MAX_LOG_BYTES`.
pub fn end_of(at: u64, length: u64) -> Option<u64>
    ensures none { IsNone result ↔ (MAX_LOG_BYTES < at + 6 + length) }
    ensures some { IfSome result (λ end. end ≡ at + 6 + length) }
{
    let end = at.checked_add(6)?.checked_add(length)?;
    if end > MAX_LOG_BYTES { None } else { Some(end) }
}

// Returns the offset after a body's entry, or `None` if no body of this length may be written at this gate.
pub(crate) fn body_end(at: u64, length: u64) -> Option<u64>
    ensures none { IsNone result ↔ IsPast at length }
    ensures some { IfSome result (λ end. (end ≡ at + 6 + length) × (length < 2147483648)) }
{
    if length >= BODY_BOUND {
        return None;
    }
    end_of(at, length)
}

// Writes to `out` what follows a gate: the length, the body, and the next gate, closed. Its memory is used again,
// unless an earlier entry was long.
pub(crate) fn encode_entry(alloc: Global, body: &[u8], out: &mut Vec<u8>) -> Result<(), NoMemory>
    requires { length body.now < 2 ^ 31 }
    ensures { OnOk result (out.new.items ≡ entry_bytes (body_entry body.now)) }
{
    if out.capacity() > MAX_KEPT_BYTES {
        *out = Vec::new(alloc);
    }
    let n = body.len();
    out.clear();
    out.reserve(n + 5)?;
    out.extend_from_slice(&four_bytes(n as u64))?;
    out.extend_from_slice(body)?;
    out.push(0)?;
    Ok(())
}

// Encodes a number in four bytes, big endian.
fn four_bytes(n: u64) -> [u8; 4]
    requires { n < 2 ^ 32 }
    ensures { result ≡ four_bytes n }
{
    [
        (n / 256 / 256 / 256) as u8,
        (n / 256 / 256 % 256) as u8,
        (n / 256 % 256) as u8,
        (n % 256) as u8,
    ]
}

// Encodes what follows a gate for a cluster entry.
pub(crate) fn cluster_entry_of(cluster: u64) -> [u8; 13]
    ensures { result ≡ entry_bytes (cluster_entry cluster) }
{
    let [a, b, c, d] = four_bytes(cluster >> 32);
    let [e, f, g, h] = four_bytes(cluster & 0xffff_ffff);
    [0x80, 0, 0, 8, a, b, c, d, e, f, g, h, 0]
}

// Parses four bytes at an offset, big endian.
fn number_at(at: usize, bytes: &[u8]) -> u64
    requires { at + 4 ≤ length bytes.now }
    ensures value { result ≡ number_at at bytes.now }
    ensures small { result < 2 ^ 32 }
{
    ((bytes[at] as u64 * 256 + bytes[at + 1] as u64) * 256 + bytes[at + 2] as u64) * 256
        + bytes[at + 3] as u64
}

// Parses the first eight bytes, big endian.
fn number_in(bytes: &[u8]) -> u64
    requires { 8 ≤ length bytes.now }
    ensures { result ≡ number_in bytes.now }
{
    number_at(0, bytes) * 4_294_967_296 + number_at(4, bytes)
}

#[tactic(auto, unfolding(crate::specs::Format::is_cluster))]
fn is_cluster(field: u64) -> bool
    ensures { result ≡ is_cluster field }
{
    field == CLUSTER_FIELD
}

// Returns the number of bytes of an entry with this length field.
#[tactic(auto, unfolding(crate::specs::Format::length_of))]
fn length_of(field: u64) -> u64
    ensures { result ≡ length_of field }
{
    if is_cluster(field) {
        CLUSTER_BYTES
    } else {
        field
    }
}

// Returns whether an entry may have these bytes: only the first cluster entry counts, its number is not 0, and a body
// is below the bound.
#[tactic(auto, unfolding(crate::specs::Format::may_stand, crate::specs::Format::length_of))]
fn may_stand(has_one: bool, field: u64, bytes: &[u8]) -> bool
    requires { length_of field ≤ length bytes.now }
    ensures { result ≡ may_stand has_one field bytes.now }
{
    if is_cluster(field) {
        !has_one && number_in(bytes) != 0
    } else {
        field < BODY_BOUND
    }
}

// Returns whether a complete entry with this length field begins here, with a gate after it.
#[tactic(auto, unfolding(crate::specs::Format::stands))]
fn stands(has_one: bool, field: u64, bytes: &[u8]) -> bool
    ensures value { result ≡ stands has_one field bytes.now }
    ensures inside { OnTrue result (length_of field < length bytes.now) }
{
    let length = length_of(field);
    length < bytes.len() as u64 && may_stand(has_one, field, &bytes[..length as usize])
}

/// A closed gate, an open gate without an entry, or an entry, at the beginning of some bytes.
#[derive(Drop)]
enum First<'a> {
    Closed,
    Bad,
    Entry {
        field: u64,
        content: &'a [u8],
        rest: &'a [u8],
    },
}

// Parses what begins at the gate at the start of these bytes; `has_one` says whether a cluster entry came before.
fn at_gate(has_one: bool, bytes: &[u8]) -> First<'_>
    ensures { ReadsFirst result has_one bytes.now }
{
    if bytes.is_empty() || bytes[0] != 1 {
        return First::Closed;
    }
    if bytes.len() < 6 {
        return First::Bad;
    }
    let field = number_at(1, bytes);
    let behind = &bytes[5..];
    if !stands(has_one, field, behind) {
        return First::Bad;
    }
    let length = length_of(field) as usize;
    First::Entry {
        field,
        content: &behind[..length],
        rest: &behind[length..],
    }
}

/// The content of a file: the offsets of its closed gate and of the last open one, the bodies before it, and the cluster
/// that it names.
#[derive(Drop)]
pub(crate) struct LogContents {
    pub gate: u64,
    pub last: Option<u64>,
    pub bodies: Bodies,
    pub cluster: Option<u64>,
}

// Parses the content of a file of 6 bytes or more. `BadGate` if an open gate has no entry.
pub(crate) fn read_entries(alloc: Global, file: &[u8]) -> Result<LogContents, MountError>
    ensures read { IfOk result (ReadsFile file.now) }
    ensures bad_gate { IfErr result (ReadsBad file.now) }
    ensures no_fault { IfErr result (λ why. why ≢ DiskFault) }
{
    let mut bodies = Bodies::with_room(alloc, file.len())?;
    let mut cluster: Option<u64> = None;
    let mut gate = 0u64;
    let mut last: Option<u64> = None;
    let mut entry = 0u64;
    let mut bytes = file;
    'entries: loop {
        match at_gate(cluster.is_some(), bytes) {
            First::Closed => {
                return Ok(LogContents {
                    gate,
                    last,
                    bodies,
                    cluster,
                });
            }
            First::Bad => return Err(MountError::BadGate { entry }),
            First::Entry {
                field,
                content,
                rest,
            } => {
                if is_cluster(field) {
                    cluster = Some(number_in(content));
                } else {
                    bodies.push(content)?;
                    entry += 1;
                }
                last = Some(gate);
                gate += 5 + content.len() as u64;
                bytes = rest;
            }
        }
    }
}
