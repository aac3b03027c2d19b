//! `ShortBytes`: a list of bytes that is kept without an allocation while it has at most 24.

ghost use Rattle.std.specs.Prelude.{◌≡◌, ◌≤◌, [], ◌∷◌, ◌++◌, length, take, IfOk, OnOk, OnErr};

use crate::memory::NoMemory;
use std::alloc::Global;
use std::fmt::{self, Debug, Formatter, Write};
use std::marker::Model;

/// Maximum length in bytes of a list that is kept in the value itself: 24 bytes take the room of a vector, and most keys
/// and values need no allocation of their own.
const IN_PLACE: usize = 24;

// Where the bytes are: the first `len` of an array, or a vector. A length of four bytes lets the array begin where the
// vector would, so that either is moved by whole words.
#[derive(Drop)]
enum Held {
    Near { len: u32, bytes: [u8; IN_PLACE] },
    Far { bytes: Vec<u8> },
}

/// A list of bytes. Lists of up to `IN_PLACE` bytes are kept in the value, longer ones in a vector.
pub(crate) struct ShortBytes {
    held: Held,
    // For the vector that a byte more may need; it takes no room.
    alloc: Global,
}

impl Model for ShortBytes {
    ghost use Rattle.std.specs.Prelude.{List, ℕ};

    ghost Value = { List ℕ };

    ghost use Rattle.crsm_base.specs.Short.{held_bytes, IsHeld};

    ghost view = { λ b. held_bytes b.held };

    ghost invariant = { λ b. IsHeld b.held };
}

// Written by hand, it is one call wherever a key or a value is dropped; derived, its two cases would be proved at each.
impl Drop for ShortBytes {
    fn drop(self) {
        let ShortBytes { held: _, alloc: _ } = self;
    }
}

/// Formats the bytes as a list, wherever they are kept.
impl Debug for ShortBytes {
    ghost use Rattle.std.specs.Fmt.{debug_list};

    ghost debug_output = { λ b. debug_list (⟦<u8 as Debug>⟧.debug_output) b };

    fn fmt<W: Write>(&self, f: &mut Formatter<W>) -> fmt::Result {
        Debug::fmt(&self.as_slice(), f)
    }
}

impl ShortBytes {
    /// Returns an empty list of bytes that allocates from `alloc`.
    pub(crate) fn new(alloc: Global) -> ShortBytes
        ensures { result ≡ [] }
    {
        ShortBytes {
            held: Held::Far {
                bytes: Vec::new(alloc),
            },
            alloc,
        }
    }

    /// Appends a byte, and moves the list to the vector. `NoMemory` if memory runs out; the list is then unchanged.
    pub(crate) fn push(&mut self, item: u8) -> Result<(), NoMemory>
        ensures ok { OnOk result (self.new ≡ self.old ++ item ∷ []) }
        ensures err { OnErr result (self.new ≡ self.old) }
    {
        if let Held::Far { bytes } = &mut self.held {
            bytes.push(item)?;
            return Ok(());
        }
        let mut far = Vec::from_slice(self.alloc, self.as_slice())?;
        far.push(item)?;
        self.held = Held::Far { bytes: far };
        Ok(())
    }

    /// Returns a list of the given bytes, or `NoMemory` if memory runs out.
    pub(crate) fn from_slice(alloc: Global, bytes: &[u8]) -> Result<ShortBytes, NoMemory>
        ensures { IfOk result (λ made. made ≡ bytes.now) }
    {
        if bytes.len() > IN_PLACE {
            let bytes = Vec::from_slice(alloc, bytes)?;
            return Ok(ShortBytes {
                held: Held::Far { bytes },
                alloc,
            });
        }
        let mut near = [0; IN_PLACE];
        near[..bytes.len()].copy_from_slice(bytes);
        Ok(ShortBytes {
            held: Held::Near {
                len: bytes.len() as u32,
                bytes: near,
            },
            alloc,
        })
    }

    /// Returns a list of the first `count` of the given bytes, or `NoMemory` if memory runs out.
    pub(crate) fn from_prefix(
        alloc: Global,
        bytes: &[u8],
        count: usize,
    ) -> Result<ShortBytes, NoMemory>
        requires { count ≤ length bytes.now }
        ensures { IfOk result (λ made. made ≡ take count bytes.now) }
    {
        if count > IN_PLACE || bytes.len() < IN_PLACE {
            return ShortBytes::from_slice(alloc, &bytes[..count]);
        }
        // A copy of fixed length compiles to a few loads; bytes after `count` are not part of the list.
        let mut near = [0; IN_PLACE];
        near.copy_from_slice(&bytes[..IN_PLACE]);
        Ok(ShortBytes {
            held: Held::Near {
                len: count as u32,
                bytes: near,
            },
            alloc,
        })
    }

    /// Returns the bytes in order.
    pub(crate) fn as_slice(&self) -> &[u8]
        ensures { result.now ≡ self.now }
    {
        match &self.held {
            Held::Near { len, bytes } => &bytes[..*len as usize],
            Held::Far { bytes } => bytes.as_slice(),
        }
    }

    /// Returns a copy in memory from `alloc`, or `NoMemory` if that runs out.
    pub(crate) fn copy(&self, alloc: Global) -> Result<ShortBytes, NoMemory>
        ensures { IfOk result (λ copy. copy ≡ self.now) }
    {
        let held = match &self.held {
            Held::Near { len, bytes } => Held::Near {
                len: *len,
                bytes: *bytes,
            },
            Held::Far { bytes } => Held::Far {
                bytes: Vec::from_slice(alloc, bytes.as_slice())?,
            },
        };
        Ok(ShortBytes { held, alloc })
    }
}
