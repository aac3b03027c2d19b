//! The clock of the system.

use crsm_clock::{Clock, SystemClock};

#[test]
fn the_system_reads_this_century(rt: HostRuntime) {
    let mut clock = SystemClock::new(&rt);
    assert!(rt; clock.now() > 1_700_000_000_000_000);
}
