//! Counters that never fall. At 2^64 - 1 a counter stays as it is.

ghost use Rattle.std.specs.Prelude.{◌≡◌, ◌≤◌, IfOk, OnErr};
ghost use Rattle.crsm_port_faults.specs.Counts.{raised, Rose};

use crsm_base::Failed;
use std::io;

/// Increments a counter, unless it is at 2^64 - 1.
pub fn raise(count: &mut u64)
    ensures value { count.new ≡ raised count.old }
    ensures later { count.old ≤ count.new }
    ensures rose { Rose count.old count.new }
{
    *count = count.saturating_add(1);
}

/// Converts a result of the system to one of a device: any error increments the counter and becomes `Failed`.
pub fn raised_by<T: Drop>(count: &mut u64, answer: io::Result<T>) -> Result<T, Failed>
    ensures ok { IfOk result (λ value. (answer ≡ Ok value) × (count.new ≡ count.old)) }
    ensures later { count.old ≤ count.new }
    ensures err { OnErr result (Rose count.old count.new) }
{
    match answer {
        Ok(value) => Ok(value),
        Err(_) => {
            raise(count);
            Err(Failed)
        }
    }
}
