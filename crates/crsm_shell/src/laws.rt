//! Laws of files and logs, for the crates above.

ghost use Rattle.std.specs.Prelude.{◌≡◌, ℕ, List, []};
ghost use Rattle.crsm_spec.specs.Log.{Log};
ghost use Rattle.crsm_shell.specs.Booting.{IsBadLog};
ghost use Rattle.crsm_shell.specs.Shell.{HasLog};

use crsm_codec::one_spelling_each;

/// States that an empty file is an empty log. It runs no code.
#[tactic(auto, unfolding(crate::specs::Shell::HasLog))]
pub fn empty_files_have_empty_logs()
    ensures { (me n : ℕ) → HasLog me n [] [] }
{}

/// States that a file has at most one log. It runs no code.
pub fn logs_are_one()
    ensures { (me n : ℕ) (file : List ℕ) (a b : Log) → HasLog me n file a → HasLog me n file b → a ≡ b }
{
    one_spelling_each();
}

/// States that a file that has a log has no bad body and no bad gate. It runs no code.
pub fn logs_are_not_bad()
    ensures { (me n : ℕ) (file : List ℕ) (log : Log) (entry why : ℕ) → HasLog me n file log → IsBadLog me n file entry why → ⊥ }
{
    one_spelling_each();
}
