//! Keys as the store keeps them: most pairs of them compare as two numbers do.

ghost use Rattle.std.specs.Prelude.{◌≡◌, ◌+◌, ◌*◌, ◌^◌, ◌<◌, get_or, IfOk};
ghost use Rattle.crsm_kv.specs.Stored.{head_of, AreBytes};

use crsm_base::{Key, NoMemory};
use std::alloc::Global;
use std::cmp::Ordering;
use std::marker::Model;

/// A key with its head, which is its first eight bytes as a number.
#[derive(Drop)]
pub struct StoredKey {
    head: u64,
    key: Key,
}

impl Model for StoredKey {
    ghost use Rattle.std.specs.Prelude.{List, ℕ, ◌≡◌};
    ghost use Rattle.crsm_kv.specs.Stored.{head_of, AreBytes};

    ghost Value = { List ℕ };

    ghost view = { λ s. s.key };

    ghost invariant = { λ s. (s.head ≡ head_of s.key) × AreBytes s.key };
}

impl StoredKey {
    /// Returns a copy of the key, or `NoMemory` if memory runs out.
    pub fn copy_of(alloc: Global, key: &Key) -> Result<StoredKey, NoMemory>
        ensures { IfOk result (λ made. made ≡ key.now) }
    {
        Ok(StoredKey {
            head: head_of(key.as_slice()),
            key: key.copy(alloc)?,
        })
    }
}

/// Returns the first eight bytes as a number, the first byte as its highest. Missing bytes are zeros.
fn head_of(bytes: &[u8]) -> u64
    ensures head { result ≡ head_of bytes.now }
    ensures bytes { AreBytes bytes.now }
{
    (four_at(bytes, 0) << 32) + four_at(bytes, 4)
}

/// Returns four bytes as a number, the first as its highest.
fn four_at(bytes: &[u8], place: usize) -> u64
    requires { place < 8 }
    ensures value { result ≡ ((get_or bytes.now place 0 * 256 + get_or bytes.now (place + 1) 0) * 256 + get_or bytes.now (place + 2) 0) * 256 + get_or bytes.now (place + 3) 0 }
    ensures small { result < 2 ^ 32 }
{
    let high = byte_at(bytes, place) * 256 + byte_at(bytes, place + 1);
    let low = byte_at(bytes, place + 2) * 256 + byte_at(bytes, place + 3);
    high * 65_536 + low
}

fn byte_at(bytes: &[u8], place: usize) -> u64
    ensures value { result ≡ get_or bytes.now place 0 }
    ensures small { result < 256 }
{
    match bytes.get(place) {
        Some(byte) => u64::from(*byte),
        None => 0,
    }
}

impl PartialEq for StoredKey {
    ghost use lib.Pointwise.{pointwise};
    ghost use Rattle.std.specs.Prelude.{◌==◌};
    ghost use Rattle.std.specs.Cmp.Rules.{comparing};
    ghost use Rattle.std.proofs.Common.{rules};

    ghost eq = { pointwise ◌==◌ };

    ghost laws = { Prim.search (comparing, rules) };

    fn eq(&self, other: &StoredKey) -> bool {
        self.key == other.key
    }
}

impl Eq for StoredKey {
    ghost use Rattle.std.specs.Cmp.Rules.{comparing};
    ghost use Rattle.std.proofs.Common.{rules};

    ghost laws = { Prim.search (comparing, rules) };
}

/// The order of keys, which is that of their heads where these differ.
impl Ord for StoredKey {
    ghost use Rattle.std.specs.Cmp.Rules.{comparing};
    ghost use Rattle.std.specs.Cmp.Lexicographic.{slice_cmp};
    ghost use Rattle.std.specs.Ordering.{nat_cmp};
    ghost use Rattle.std.proofs.Common.{rules};

    ghost cmp = { slice_cmp nat_cmp };

    ghost total = { Prim.search (comparing, rules) };

    ghost matches_partial_cmp = { Prim.search (comparing, rules) };

    ghost matches_eq = { Prim.search (comparing, rules) };

    #[inline(always)]
    fn cmp(&self, other: &StoredKey) -> Ordering {
        if self.head < other.head {
            Ordering::Less
        } else if self.head > other.head {
            Ordering::Greater
        } else {
            self.key.cmp(&other.key)
        }
    }
}

impl PartialOrd for StoredKey {
    ghost use Rattle.std.specs.Cmp.{partial_order_from_own_ties};
    ghost use Rattle.std.specs.Cmp.Rules.{comparing};
    ghost use Rattle.std.specs.Cmp.Lexicographic.{slice_cmp};
    ghost use Rattle.std.specs.Ordering.{nat_cmp, as_partial_cmp};
    ghost use Rattle.std.proofs.Common.{rules};

    ghost partial_cmp = { as_partial_cmp (slice_cmp nat_cmp) };

    ghost laws = { partial_order_from_own_ties (Prim.search (comparing, rules)) (Prim.search (comparing, rules)) };

    fn partial_cmp(&self, other: &StoredKey) -> Option<Ordering> {
        Some(self.cmp(other))
    }
}
