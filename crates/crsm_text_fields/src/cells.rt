//! Encodings of adjacent fields of fixed length as arrays, so that they are appended by a single call.

ghost use Rattle.std.specs.Prelude.{◌≡◌, ◌∷◌, ◌++◌};
ghost use Rattle.crsm_base.specs.Spelling.{u8_bytes, u64_bytes, stamp_bytes, FitsStamp};

use crsm_base::Stamp;

/// Encodes two u64, big endian.
#[tactic(auto, unfolding(crsm_base::specs::Spelling::u64_bytes))]
pub fn pair(first: u64, second: u64) -> [u8; 16]
    ensures { result ≡ u64_bytes first ++ u64_bytes second }
{
    let mut cells = [0; 16];
    cells[..8].copy_from_slice(&first.to_be_bytes());
    cells[8..].copy_from_slice(&second.to_be_bytes());
    cells
}

/// Encodes a u64, a stamp, two u64 and two bytes.
#[tactic(auto, unfolding(crsm_base::specs::Spelling::u64_bytes, crsm_base::specs::Spelling::stamp_bytes))]
pub fn stamp_and_pair(
    number: u64,
    stamp: Stamp,
    first: u64,
    second: u64,
    third: u8,
    fourth: u8,
) -> [u8; 35]
    requires { FitsStamp stamp }
    ensures { result ≡ (u64_bytes number ++ stamp_bytes stamp) ++ (u64_bytes first ++ (u64_bytes second ++ third ∷ u8_bytes fourth)) }
{
    let mut cells = [0; 35];
    cells[..17].copy_from_slice(&before_stamp(number, stamp));
    cells[17..].copy_from_slice(&pair_and_bytes(first, second, third, fourth));
    cells
}

/// Encodes two u64 and two bytes.
#[tactic(auto, unfolding(crsm_base::specs::Spelling::u64_bytes))]
pub fn pair_and_bytes(first: u64, second: u64, third: u8, fourth: u8) -> [u8; 18]
    ensures { result ≡ u64_bytes first ++ (u64_bytes second ++ third ∷ u8_bytes fourth) }
{
    let mut cells = [fourth; 18];
    cells[..16].copy_from_slice(&pair(first, second));
    cells[16] = third;
    cells
}

/// Encodes a u64 and a byte.
#[tactic(auto, unfolding(crsm_base::specs::Spelling::u64_bytes))]
pub fn number_and_byte(number: u64, byte: u8) -> [u8; 9]
    ensures { result ≡ u64_bytes number ++ u8_bytes byte }
{
    let mut cells = [byte; 9];
    cells[..8].copy_from_slice(&number.to_be_bytes());
    cells
}

/// Encodes a u64 and a stamp.
#[tactic(auto, unfolding(crsm_base::specs::Spelling::u64_bytes, crsm_base::specs::Spelling::stamp_bytes))]
pub fn before_stamp(number: u64, stamp: Stamp) -> [u8; 17]
    requires { FitsStamp stamp }
    ensures { result ≡ u64_bytes number ++ stamp_bytes stamp }
{
    let mut cells = [0; 17];
    cells[..8].copy_from_slice(&number.to_be_bytes());
    cells[8..].copy_from_slice(&number_and_byte(stamp.time, stamp.origin as u8));
    cells
}
