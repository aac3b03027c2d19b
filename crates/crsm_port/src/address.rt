//! Addresses as numbers: IPv4 x 65,536 + port.
ghost use Rattle.std.specs.Prelude.{◌≡◌, ◌<◌, ◌^◌};
ghost use Rattle.crsm_port.specs.Address.{number_of};

use std::net::{Ipv4Addr, SocketAddrV4};

/// Returns the address as IPv4 x 65,536 + port.
pub fn number(address: SocketAddrV4) -> u64
    ensures { result ≡ number_of address }
{
    u64::from(address.ip().to_bits()) * 65_536 + u64::from(address.port())
}

/// Returns the address of a number: IPv4 x 65,536 + port, below 2^48.
pub fn from_number(number: u64) -> SocketAddrV4
    requires { number < 2 ^ 48 }
    ensures { number_of result ≡ number }
{
    SocketAddrV4::new(
        Ipv4Addr::from_bits((number / 65_536) as u32),
        (number % 65_536) as u16,
    )
}
