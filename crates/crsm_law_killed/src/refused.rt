//! How many calls were refused.

/// How many calls each device refused, once it had taken all that it takes. It refuses those that can fail; a count ends
/// at 2^64 - 1.
#[derive(Clone, Copy, Debug)]
pub struct Refused {
    pub disk: u64,
    pub receives: u64,
    pub sends: u64,
    pub sheet: u64,
}
