//! Sets of replicas as slices of their numbers.

ghost use Rattle.std.specs.Prelude.{◌≡◌, ◌≤◌, length};
ghost use Rattle.std.specs.List.{list_all};
ghost use Rattle.crsm_base.specs.Replicas.{can_be_members, has, majority, numbers_below};

/// The numbers of all possible replicas.
const ALL: [u32; 15] = [0, 1, 2, 3, 4, 5, 6, 7, 8, 9, 10, 11, 12, 13, 14];

/// Returns the numbers from 0 up to `n` - 1; `n` is at most 15.
#[tactic(auto, using(crate::proofs::ReplicasLemmas::first_numbers))]
pub fn first_replicas(n: u32) -> &'static [u32]
    ensures { n ≤ 15 → result.now ≡ numbers_below n }
{
    &ALL[..(n as usize).min(15)]
}

/// Returns whether `replica` is one of `replicas`.
#[tactic(auto, unfolding(crate::specs::Replicas::has))]
pub fn is_among(replicas: &[u32], replica: u32) -> bool
    ensures { result ≡ has replicas.now replica }
{
    replicas.contains(&replica)
}

/// Returns whether all of `replicas` are among `others`.
pub fn are_among(replicas: &[u32], others: &[u32]) -> bool
    ensures { result ≡ list_all (has others.now) replicas.now }
{
    replicas.iter().all(|replica| is_among(others, *replica))
}

/// Returns the size of a majority of a replica set.
pub fn majority_of(replicas: &[u32]) -> usize
    ensures { result ≡ majority (length replicas.now) }
{
    replicas.len() / 2 + 1
}

/// Returns whether `members` can be the members of an epoch with the replica set `spec`: all are in it, and they are a
/// majority of it.
#[tactic(auto, unfolding(crate::specs::Replicas::can_be_members))]
pub fn can_be_members(spec: &[u32], members: &[u32]) -> bool
    ensures { result ≡ can_be_members spec.now members.now }
{
    let are_of_spec = are_among(members, spec);
    are_of_spec & (majority_of(spec) <= members.len())
}
