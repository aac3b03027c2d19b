//! Tests of replica numbers.

ghost use Rattle.std.specs.Prelude.{◌≡◌, ◌==◌, ◌&&◌, not, nat_lt, nat_le};
ghost use Rattle.std.specs.List.{list_any};
ghost use Rattle.crsm_spec.specs.Possible as possible;

use crsm_base::{MAX_REPLICAS, are_among, majority_of};

/// Returns whether `k` is neither the number of one of the `count` replicas nor that of the next new one.
pub(crate) fn is_none(count: u64, k: u64) -> bool
    ensures { result ≡ (nat_le count k && not (k == count && nat_lt k 15)) }
{
    if k < count {
        return false;
    }
    !is_next_new(count, k)
}

/// Returns whether one of the members is not below the count.
pub(crate) fn one_is_past(count: u64, members: &[u32]) -> bool
    ensures { result ≡ list_any (nat_le count) members.now }
{
    members.iter().any(|member| count <= u64::from(*member))
}

/// Returns whether the members are among the replicas `spec`, and fewer than a majority of them.
#[tactic(auto, unfolding(crsm_spec::specs::Possible::are_too_few))]
pub(crate) fn are_too_few(spec: &[u32], members: &[u32]) -> bool
    ensures { result ≡ possible.are_too_few spec.now members.now }
{
    let are_of_spec = are_among(members, spec);
    are_of_spec & (members.len() < majority_of(spec))
}

/// Returns whether `k` can be the number of the next new replica.
fn is_next_new(count: u64, k: u64) -> bool
    ensures { result ≡ (k == count && nat_lt k 15) }
{
    let is_next = k == count;
    let is_number = k < u64::from(MAX_REPLICAS);
    is_next & is_number
}
