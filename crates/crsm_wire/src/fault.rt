//! The errors of parsing a datagram or a control message.

use crsm_base::NoMemory;

/// The reason why bytes could not be parsed.
#[derive(Clone, Copy, Debug, PartialEq, Eq)]
pub enum WireError {
    /// The whole input is the encoding of no value.
    NotOne,
    /// Memory ran out.
    NoMemory,
}

impl From<NoMemory> for WireError {
    ghost use Rattle.std.specs.Prelude.{◌≡◌};
    ghost use Rattle.crsm_wire.specs.declared.fault.WireError.TheVariants as errors;

    ghost from_gives = { λ _ e. e ≡ errors.NoMemory };

    fn from(_e: NoMemory) -> WireError {
        WireError::NoMemory
    }
}
