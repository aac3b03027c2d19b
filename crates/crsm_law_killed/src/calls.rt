//! The calls that a device hands on.

ghost use Rattle.std.specs.Prelude.{◌≡◌, ◌↔◌, ◌≤◌, ◌<◌, ◌-◌, ℕ, IsTrue, OnOk, OnErr};
ghost use Rattle.crsm_port_faults.specs.Counts.{Rose};

use crsm_base::Failed;
use crsm_port_faults::raise;
use std::marker::Brand;

/// What the device below was when it was given away, and how many calls are handed on to it in all.
pub trait Start<T> {
    ghost is_first: { T → Type 0 };

    ghost calls: { ℕ };
}

impl<T> Start<T> for Brand {
    ghost is_first = { λ _. Unit {0} };

    ghost calls = { 0 };
}

/// Counts a call down, if one is left.
pub fn takes_one(left: &mut u64) -> bool
    ensures counts { left.new ≡ left.old - 1 }
    ensures some { IsTrue result ↔ (0 < left.old) }
{
    if *left == 0 {
        return false;
    }
    *left -= 1;
    true
}

/// Counts a call down. `Failed` if none is left, so that it is not to be handed on; it is counted as refused then.
pub fn hand_on(left: &mut u64, refused: &mut u64) -> Result<(), Failed>
    ensures counts { left.new ≡ left.old - 1 }
    ensures some { OnOk result (0 < left.old) }
    ensures none { OnErr result (left.old ≡ 0) }
    ensures same { OnOk result (refused.new ≡ refused.old) }
    ensures later { refused.old ≤ refused.new }
    ensures failed { OnErr result (Rose refused.old refused.new) }
{
    if takes_one(left) {
        return Ok(());
    }
    raise(refused);
    Err(Failed)
}
