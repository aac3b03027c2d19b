//! Laws of reassembly: a whole message is one that was cut.

ghost use Rattle.std.specs.Prelude.{◌≡◌, ◌<◌, ◌≤◌, ℕ, List, [], ◌∷◌, ◌++◌, length, true};
ghost use Rattle.crsm_base.specs.Limits.{most_parts};
ghost use Rattle.crsm_base.specs.Messages.{part_least, part_most};
ghost use Rattle.crsm_spec.specs.Parts.{Piece, with_part, whole_with};
ghost use Rattle.crsm_segment.specs.Taking.{is_sized, after_part, taken_of, whole_of};
ghost use Rattle.crsm_segment.specs.Arriving.{Cut, AreApart, AreOf, IsOneOf, IsWholeOf, MakeWhole};

/// States that a whole message is the concatenation of all parts of one sender, boot and number, and that parts of
/// messages that were cut make one of those. It runs no code.
pub fn whole_messages()
    ensures parts { (before : List Piece) (last : Piece) (message : List ℕ) → MakeWhole before last message → IsWholeOf (before ++ last ∷ []) last message }
    ensures cut { (cuts : List Cut) (before : List Piece) (last : Piece) (message : List ℕ) →
        AreApart cuts → AreOf cuts (before ++ last ∷ []) → MakeWhole before last message → IsOneOf cuts message }
{}

/// States that the parts in datagrams have valid lengths, and that over such parts a `Gather` stands for the parts that
/// a replica of the definitions has taken, and returns the messages that are whole there. It runs no code.
pub fn parts_of_datagrams()
    ensures sized { (p : Piece) → p.index < p.count → p.count ≤ most_parts → part_least p.index p.count ≤ length p.bytes → length p.bytes ≤ part_most p.index p.count → is_sized p ≡ true }
    ensures taken { (p : Piece) (parts : List Piece) → is_sized p ≡ true → after_part p parts ≡ with_part p parts }
    ensures whole { (p : Piece) (parts : List Piece) → is_sized p ≡ true → whole_of (taken_of p parts) ≡ whole_with p parts }
{}
