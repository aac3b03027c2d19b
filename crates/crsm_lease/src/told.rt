//! The result of an action on a lock, and the line that prints it.

ghost use Rattle.std.specs.Prelude.{◌≡◌, ◌++◌, ◌∷◌, [], OnErr, OnOk};
ghost use Rattle.crsm_lease.specs.Texts.{told_text};

use crsm_base::{Bytes, NoMemory};
use crsm_text::push_named;
use std::alloc::Global;

/// The result of a client's action on a lock.
#[derive(Clone, Copy, Debug, PartialEq, Eq)]
pub enum Told {
    /// The client holds the lock, granted under this fence.
    Granted { fence: u64 },
    /// The client has released the lock that it held under this fence.
    Released { fence: u64 },
    /// Another client holds the lock.
    Held { owner: u64, fence: u64 },
    /// The lock is free, so there is nothing to release. The fence is that of the last grant, 0 if there was none.
    Free { fence: u64 },
    /// The key has a value that is not a lock's.
    NotALock,
    /// The answer does not belong to this kind of operation.
    Odd,
    /// The fence is 2^64 - 1, so there is no next one.
    Spent,
    /// The key has changed since it was read.
    Raced,
    /// The client has already used a greater number, which is this.
    Stale { number: u64 },
    /// The store is full: no further key or client fits.
    NoRoom,
    /// The replica refused the command with this code.
    Refused { code: u32 },
}

fn push_told(out: &mut Bytes, told: Told) -> Result<(), NoMemory>
    ensures { OnOk result (out.new ≡ out.old ++ told_text told) }
{
    match told {
        Told::Granted { fence } => push_named(out, b"granted", &[fence]),
        Told::Released { fence } => push_named(out, b"released", &[fence]),
        Told::Held { owner, fence } => push_named(out, b"held", &[owner, fence]),
        Told::Free { fence } => push_named(out, b"free", &[fence]),
        Told::NotALock => out.append(b"notalock"),
        Told::Odd => out.append(b"odd"),
        Told::Spent => out.append(b"spent"),
        Told::Raced => out.append(b"raced"),
        Told::Stale { number } => push_named(out, b"stale", &[number]),
        Told::NoRoom => out.append(b"noroom"),
        Told::Refused { code } => push_named(out, b"no", &[u64::from(code)]),
    }
}

/// Appends the line of a result with its line feed. `NoMemory` if memory runs out; `out` is then unchanged.
pub fn print_told(alloc: Global, told: Told, out: &mut Bytes) -> Result<(), NoMemory>
    ensures ok { OnOk result (out.new ≡ out.old ++ (told_text told ++ 10 ∷ [])) }
    ensures err { OnErr result (out.new ≡ out.old) }
{
    let mut text = Bytes::new(alloc);
    push_told(&mut text, told)?;
    text.push(b'\n')?;
    out.append(text.as_slice())
}
