//! The receiver's end of a link.

ghost use Rattle.std.specs.Prelude.{◌≡◌, ◌≢◌, ℕ, ◌+◌, ◌<◌, ◌↔◌, [], ◌∷◌, ◌++◌, List, length};
ghost use Rattle.std.specs.List.{AllByRecursion};
ghost use Rattle.crsm_base.specs.declared.InEpoch.{InEpoch};
ghost use Rattle.crsm_spec.specs.Link.{taken};
ghost use Rattle.crsm_spec.specs.Lists.{IsPrefixOf};
ghost use Rattle.crsm_link.specs.Sent.{IsFrameOf};

/// The result of offering a frame to the receiver's end.
#[derive(Clone, Copy, Debug, PartialEq, Eq)]
pub enum Take {
    /// The frame has the next number, and is taken.
    Next,
    /// The frame's number is below the next one: it was taken before.
    Old,
    /// The frame's number is above the next one: it is not taken.
    Early,
}

/// The receiver's end: it takes the frames of a link in the order of their numbers, each once.
#[derive(Debug, Drop)]
pub struct In {
    next: u64,
}

impl In {
    ghost use Rattle.crsm_link.specs.Arrived.{InStands};

    /// Returns the end of a new link.
    pub fn new() -> In
        ensures arrived { InStands result [] }
        ensures next { result.next ≡ 0 }
    {
        In { next: 0 }
    }

    /// Returns the number of the next frame, which is the number of frames taken.
    pub fn next(&self) -> u64
        ensures arrived { (arrived : List (ℕ × InEpoch)) → InStands self.now arrived → result ≡ length (taken arrived) }
        ensures next { result ≡ self.now.next }
    {
        self.next
    }

    /// Takes a frame if its number is the next one.
    pub fn take(&mut self, seq: u64) -> Take
        requires { ¬ ((seq ≡ u64.MAX) × (self.old.next ≡ u64.MAX)) }
        ensures arrived { (arrived : List (ℕ × InEpoch)) (payload : InEpoch) → InStands self.old arrived → InStands self.new (arrived ++ (seq, payload) ∷ []) }
        ensures next { (result ≡ Take.Next) ↔ (seq ≡ self.old.next) }
        ensures moved { seq ≡ self.old.next → self.new.next ≡ self.old.next + 1 }
        ensures waits { seq ≢ self.old.next → self.new.next ≡ self.old.next }
        ensures old { (result ≡ Take.Old) ↔ (seq < self.old.next) }
        ensures early { (result ≡ Take.Early) ↔ (self.old.next < seq) }
        ensures given { (arrived : List (ℕ × InEpoch)) (payload : InEpoch) → InStands self.old arrived →
            (result ≡ Take.Next) ↔ (taken (arrived ++ (seq, payload) ∷ []) ≡ taken arrived ++ payload ∷ []) }
    {
        if seq < self.next {
            return Take::Old;
        }
        if seq > self.next {
            return Take::Early;
        }
        self.next += 1;
        Take::Next
    }
}

/// States that whichever frames of a sender arrive, lost, repeated or in any order, the frames taken are a prefix of
/// the frames that the sender pushed. It runs no code.
pub fn taken_is_a_prefix()
    ensures { (pushed : List InEpoch) (arrived : List (ℕ × InEpoch)) → AllByRecursion (IsFrameOf pushed) arrived → IsPrefixOf (taken arrived) pushed }
{}
