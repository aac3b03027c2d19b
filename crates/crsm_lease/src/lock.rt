//! The value of a lock, written to bytes and read back.

ghost use Rattle.std.specs.Prelude.{◌≡◌, ◌++◌, ◌∷◌, IfOk, IfSome, OnOk, Some};
ghost use Rattle.crsm_base.specs.Spelling.{u64_bytes};
ghost use Rattle.crsm_lease.specs.declared.lock.Lock.{Lock as Written};
ghost use Rattle.crsm_lease.specs.Locks.{FitsLock, IsLock, fields_at, lock_bytes, lock_of};

use crsm_base::{Bytes, NoMemory, Val};
use crsm_text_fields::{put_u8, put_u64, take_u8, take_u64};
use std::alloc::Global;

/// A lock. Its fence is the fencing token of the last grant: each grant raises it by 1.
#[derive(Clone, Copy, Debug, PartialEq, Eq)]
pub enum Lock {
    Free { fence: u64 },
    /// The owner is the number of the client that holds it.
    Held { fence: u64, owner: u64 },
}

fn put_fields(state: u8, fence: u64, owner: u64, out: &mut Bytes) -> Result<(), NoMemory>
    ensures { OnOk result (out.new ≡ out.old ++ (state ∷ (u64_bytes fence ++ u64_bytes owner))) }
{
    put_u8(state, out)?;
    put_u64(fence, out)?;
    put_u64(owner, out)
}

/// Returns the value of a lock, 17 bytes: its state, its fence and its owner. `NoMemory` if memory runs out.
#[tactic(auto, unfolding(crate::specs::Locks::lock_bytes))]
pub fn write_lock(alloc: Global, lock: Lock) -> Result<Val, NoMemory>
    ensures { IfOk result (λ value. value ≡ lock_bytes lock) }
{
    let mut out = Bytes::new(alloc);
    match lock {
        Lock::Free { fence } => put_fields(0, fence, 0, &mut out)?,
        Lock::Held { fence, owner } => put_fields(1, fence, owner, &mut out)?,
    }
    Val::from_slice(alloc, out.as_slice())
}

#[tactic(auto, unfolding(crate::specs::Locks::fields_at))]
fn take_fields(value: &[u8]) -> Option<(u8, u64, u64)>
    ensures { result ≡ fields_at value.now }
{
    let (state, rest) = take_u8(value)?;
    let (fence, rest) = take_u64(rest)?;
    let (owner, rest) = take_u64(rest)?;
    match rest {
        [] => Some((state, fence, owner)),
        [_, ..] => None,
    }
}

#[tactic(auto, unfolding(crate::specs::Locks::lock_of))]
fn lock_of_fields(state: u8, fence: u64, owner: u64) -> Option<Lock>
    ensures { result ≡ lock_of state fence owner }
{
    match (state, owner) {
        (0, 0) => Some(Lock::Free { fence }),
        (1, _) => Some(Lock::Held { fence, owner }),
        _ => None,
    }
}

/// Returns the lock that has this value, or `None` if no lock has it.
pub fn read_lock(value: &[u8]) -> Option<Lock>
    ensures found { IfSome result (IsLock value.now) }
    ensures only { (lock : Written) → IsLock value.now lock → result ≡ Some lock }
{
    let (state, fence, owner) = take_fields(value)?;
    lock_of_fields(state, fence, owner)
}
