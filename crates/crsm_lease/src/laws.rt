//! Laws of the values of locks and of the operations that are asked for.

ghost use Rattle.std.specs.Prelude.{◌≡◌, length};
ghost use Rattle.crsm_lease.specs.Locks.{LocksHaveOneValue, lock_bytes};
ghost use Rattle.crsm_lease.specs.Rules.{AskedAreGrantsOrReturns};
ghost use Rattle.crsm_lease.specs.declared.lock.Lock.{Lock};

/// States that a lock has one value, of 17 bytes, and that no two locks share one. It runs no code.
pub fn locks_have_one_value()
    ensures one { LocksHaveOneValue }
    ensures bytes { (lock : Lock) → length (lock_bytes lock) ≡ 17 }
{}

/// States that every operation asked for grants the lock under the next fencing token or releases it. It runs no code.
pub fn asked_are_grants_or_returns()
    ensures { AskedAreGrantsOrReturns }
{}
