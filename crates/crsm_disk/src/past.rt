//! The calls of a disk so far. They exist only in proofs, and take no memory.

ghost use Rattle.std.specs.Prelude.{◌≡◌, ℕ, [], ◌∷◌, List};
ghost use Rattle.std.specs.Borrow.{ftrue};
ghost use Rattle.crsm_port_image.specs.Calls.{Call};

use std::marker::Model;

// The bytes of a disk before its first call, and the calls that succeeded, the newest first.
#[derive(Drop)]
pub(crate) struct Past {
    ghost first: { List ℕ },
    ghost calls: { List Call },
}

impl Model for Past {
    ghost also_owns = { λ _. ftrue };
}

// A call that succeeded.
#[derive(Clone, Copy)]
pub(crate) enum Note<'a> {
    Wrote { at: u64, bytes: &'a [u8] },
    Cut { len: u64 },
    Synced,
}

impl Past {
    ghost use Rattle.crsm_disk.specs.Past.{call_of};

    // Returns that of a disk that holds these bytes and had no call.
    #[inline(always)]
    pub(crate) fn before(bytes: &[u8]) -> Past
        ensures { result ≡ record { first = bytes.now; calls = [] } }
    {
        Past {}
    }

    // Returns that with one more call.
    #[inline(always)]
    pub(crate) fn with(&self, call: &Note<'_>) -> Past
        ensures { result ≡ record { first = self.now.first; calls = call_of call.now ∷ self.now.calls } }
    {
        Past {}
    }
}
