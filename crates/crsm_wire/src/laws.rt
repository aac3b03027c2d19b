//! Unique decodability of messages, and that parsing is the inverse of encoding.

ghost use Rattle.std.specs.Prelude.{◌≡◌, ◌++◌, List, ℕ};
ghost use Rattle.crsm_base.specs.declared.Control.{Control};
ghost use Rattle.crsm_base.specs.declared.Datagram.{Datagram};
ghost use Rattle.crsm_base.specs.MessageReading.{control_of, datagram_of};
ghost use Rattle.crsm_base.specs.Messages.{SpeltControl, SpeltDatagram};
ghost use Rattle.crsm_wire.specs.Inverse.{ReadsSpelt};

/// States that bytes encode at most one control message and at most one datagram, and that no control message's
/// encoding is a prefix of another's. It runs no code.
pub fn one_spelling_each()
    ensures control { (a b : Control) (s t x y : List ℕ) → SpeltControl a s → SpeltControl b t → s ++ x ≡ t ++ y →
        (a ≡ b) × (s ≡ t) × (x ≡ y) }
    ensures datagram { (a b : Datagram) (s : List ℕ) → SpeltDatagram a s → SpeltDatagram b s → a ≡ b }
{}

/// States that bytes are parsed as a datagram or control message if and only if they are its encoding, so that a
/// written value is read back and no other bytes are accepted. It runs no code.
pub fn what_is_read_is_spelt()
    ensures datagrams { ReadsSpelt datagram_of SpeltDatagram }
    ensures controls { ReadsSpelt control_of SpeltControl }
{}
