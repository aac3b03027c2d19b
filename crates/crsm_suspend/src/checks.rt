//! The test whether a stamp is above another.

ghost use Rattle.std.specs.Prelude.{◌≡◌};
ghost use Rattle.crsm_suspend.specs.Pages.{is_over};

use crsm_base::{Stamp, stamp_precedes};

/// Returns whether `stamp` is above `floor`; above `None` each stamp is.
pub fn is_above(floor: Option<Stamp>, stamp: Stamp) -> bool
    ensures { result ≡ is_over floor stamp }
{
    match floor {
        Some(floor) => stamp_precedes(floor, stamp),
        None => true,
    }
}
