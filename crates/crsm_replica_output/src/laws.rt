//! The law that the datagrams of a control message have encodings.

ghost use Rattle.std.specs.Prelude.{◌≡◌, ◌<◌, ◌^◌, ℕ};
ghost use Rattle.std.specs.List.{AllByRecursion};
ghost use Rattle.crsm_base.specs.declared.Control.{Control};
ghost use Rattle.crsm_base.specs.Messages.{FitsControl, FitsDatagram};
ghost use Rattle.crsm_spec.specs.Log.{boots};
ghost use Rattle.crsm_spec.specs.Replica.{Replica};
ghost use Rattle.crsm_spec.specs.Draft.{parts_to};

/// States that each datagram which carries a part of a control message has an encoding. It runs no code.
pub fn parts_are_spelt()
    ensures { (r : Replica) (k : ℕ) (c : Control) → r.me < 15 → k < 15 → boots r.log < 2 ^ 64 → r.made < 2 ^ 64 → FitsControl c →
        AllByRecursion (λ s. (s.0 < 15) × FitsDatagram s.1) (parts_to r k c) }
{}
