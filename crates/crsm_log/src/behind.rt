//! What stands behind the closed gate of a file.

ghost use Rattle.std.specs.Prelude.{List, ℕ};
ghost use Rattle.crsm_log.specs.Stop.{IsWhole, ReadsWith};

/// States that bytes behind a whole file, such as zeros that a disk has there, are never read: the file has the same
/// bodies, cluster and closed gate with them as without. It runs no code.
pub fn bytes_behind_are_not_read()
    ensures { (file behind : List ℕ) (end : ℕ) → IsWhole file end → ReadsWith file behind end }
{}
