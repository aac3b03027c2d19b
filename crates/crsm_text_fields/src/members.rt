//! Encoding and parsing of members.

ghost use Rattle.std.specs.Prelude.{◌≡◌, ◌≤◌, ◌++◌, length, take, IfOk, OnOk, Some, None, if◌then◌else◌};
ghost use Rattle.std.specs.Option.{option_map};
ghost use Rattle.crsm_base.specs.Parser.{passing};
ghost use Rattle.crsm_base.specs.Spelling.{members_bytes};
ghost use Rattle.crsm_base.specs.Reading.{run_at, is_members, members_at};

use crate::number::{put_u8, take_run, take_u8};
use crsm_base::{Bytes, MAX_REPLICAS, Members, MembersError, NoMemory};
use std::alloc::Global;

/// Appends the members' numbers, one byte each, without their count. `NoMemory` if memory runs out.
pub fn put_replicas(members: &Members, out: &mut Bytes) -> Result<(), NoMemory>
    ensures { OnOk result (out.new ≡ out.old ++ members.now) }
{
    for member in members.as_slice() {
        put_u8(*member as u8, out)?;
    }
    Ok(())
}

/// Appends the encoding of members. `NoMemory` if memory runs out; a prefix may then have been appended.
#[tactic(auto, unfolding(crsm_base::specs::Spelling::members_bytes))]
pub fn put_members(members: &Members, out: &mut Bytes) -> Result<(), NoMemory>
    ensures { OnOk result (out.new ≡ out.old ++ members_bytes members.now) }
{
    put_u8(members.count() as u8, out)?;
    put_replicas(members, out)
}

// Room for the maximum number of members.
const ROOM: usize = MAX_REPLICAS as usize;

// Converts bytes to numbers, padded with zeros.
fn widened(cells: &[u8]) -> [u32; ROOM]
    requires { length cells.now ≤ 15 }
    ensures { take (length cells.now) result ≡ cells.now }
{
    let mut numbers = [0; ROOM];
    for (place, byte) in cells.iter().enumerate() {
        numbers[place] = u32::from(*byte);
    }
    numbers
}

// Returns the members whose numbers these bytes are, or `None` if they are no members.
fn members_of(alloc: Global, cells: &[u8]) -> Result<Option<Members>, NoMemory>
    ensures { IfOk result (λ r. r ≡ (if is_members cells.now then Some cells.now else None)) }
{
    if cells.len() > ROOM {
        return Ok(None);
    }
    let numbers = widened(cells);
    match Members::from_slice(alloc, &numbers[..cells.len()]) {
        Ok(members) => Ok(Some(members)),
        Err(MembersError::NotAscending) => Ok(None),
        Err(MembersError::NoMemory) => Err(NoMemory),
    }
}

/// Parses `count` replica numbers of one byte each, as members. Returns them and the remaining bytes, or `None` if
/// there are too few bytes or they are no members; `NoMemory` if memory runs out.
pub fn take_replicas(
    alloc: Global,
    count: u8,
    bytes: &[u8],
) -> Result<Option<(Members, &[u8])>, NoMemory>
    ensures { IfOk result (λ r. option_map (λ x. (x.0, x.1.now)) r ≡ passing is_members (run_at count) bytes.now) }
{
    let Some((cells, rest)) = take_run(count as usize, bytes) else {
        return Ok(None);
    };
    match members_of(alloc, cells) {
        Ok(Some(members)) => Ok(Some((members, rest))),
        Ok(None) => Ok(None),
        Err(NoMemory) => Err(NoMemory),
    }
}

/// Parses members at the beginning of `bytes`. Returns them and the remaining bytes, or `None` if they do not begin
/// with one; `NoMemory` if memory runs out.
#[tactic(auto, unfolding(crsm_base::specs::Reading::members_at))]
pub fn take_members(alloc: Global, bytes: &[u8]) -> Result<Option<(Members, &[u8])>, NoMemory>
    ensures { IfOk result (λ r. option_map (λ x. (x.0, x.1.now)) r ≡ members_at bytes.now) }
{
    let Some((count, rest)) = take_u8(bytes) else {
        return Ok(None);
    };
    take_replicas(alloc, count, rest)
}
