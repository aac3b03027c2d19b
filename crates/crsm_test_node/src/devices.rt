//! What a replica of a run stands between, and the requests that come to it.

use crate::packets::port_of;
use crsm_clock::ListClock;
use crsm_port::MemPort;
use crsm_test_cases::Fault;
use std::alloc::Global;

/// A port to which requests come, and a clock that stands still.
#[derive(Drop)]
pub struct Devices {
    pub port: Box<MemPort>,
    pub clock: ListClock,
    // The number of the last request.
    last: u8,
}

impl Devices {
    /// Returns devices at which nothing has come yet. The calls of a word of the port fail.
    pub fn new(alloc: Global, fails: &str) -> Result<Devices, Fault> {
        Ok(Devices {
            port: port_of(alloc, fails, "", ' ')?,
            clock: ListClock::new(alloc, &[5])?,
            last: 0,
        })
    }

    /// Lets `count` requests come, with the next numbers.
    pub fn come(&mut self, count: u64) -> Result<(), Fault> {
        for _ in 0..count {
            let number = self.last.checked_add(1).ok_or(Fault::Unreadable)?;
            self.port.put(9, &read_of(number))?;
            self.last = number;
        }
        Ok(())
    }
}

/// The datagram of a client's read, of this number.
fn read_of(number: u8) -> [u8; 20] {
    let mut bytes = [0u8; 20];
    bytes[0] = 4;
    bytes[8] = 7;
    bytes[16] = number;
    bytes[17] = 1;
    bytes[18] = 1;
    bytes[19] = 0x61;
    bytes
}
