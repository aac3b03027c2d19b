//! Lemmas about lists of entries, about a single log, about what can be encoded, and about messages cut into parts,
//! over the definitions alone.
//!
//! The proofs of running code and those of the laws cite these lemmas, which are in `proofs/`. None of them is about a
//! step, a world or a run. The main ones are also contracts of functions that run no code.
#![tactic(auto)]

ghost use Rattle.crsm_fact_log.specs.Collected.{CollectedIsMade};
ghost use Rattle.crsm_fact_log.specs.Merging.{
  UnionIsOne,
  UnionGoesOn,
  UnionOfSame,
  MergedAsTheyCome,
  WholeOnesAreMany,
};

/// The union of reports is the only rising list that has the first entry of each stamp, and no others.
pub fn union_is_one()
    ensures { UnionIsOne }
{}

/// Merging more entries later gives the union of all, and entries up to a floor can be left out before or after.
pub fn union_goes_on()
    ensures { UnionGoesOn }
{}

/// If all entries with one stamp are equal, the union does not depend on the order in which they are merged.
pub fn union_of_same()
    ensures { UnionOfSame }
{}

/// Merging entries in the order in which they are received gives the union of the reports by ascending replica.
pub fn merged_as_they_come()
    ensures { MergedAsTheyCome }
{}

/// If the number of complete reports is that of a majority, their senders are a majority of the Spec.
pub fn whole_ones_are_many()
    ensures { WholeOnesAreMany }
{}

/// Whatever pages were received, a decision's tail rises above its base and has entries of complete reports only.
pub fn collected_is_made()
    ensures { CollectedIsMade }
{}
