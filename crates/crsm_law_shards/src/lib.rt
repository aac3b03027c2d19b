//! One store of several shards, each with lists of its own keys: if each shard is linearizable, all of them are one
//! linearizable store; and the shard of a key.
#![tactic(auto)]

ghost use Rattle.std.specs.Prelude.{◌≡◌, ◌<◌, ◌≤◌};
ghost use Rattle.crsm_law_shards.specs.Clusters.{AnswersAreSeen, ClustersAreOneStore};
ghost use Rattle.crsm_law_shards.specs.Example.{HashesArePublished, ShardsMeetPremises, UntimelyShardsAreNone};
ghost use Rattle.crsm_law_shards.specs.Hash.{hash_of, shard_of};
ghost use Rattle.crsm_law_shards.specs.Laws.{ShardsAreOneStore};

use crsm_law_cluster::{answers_are_right, entries_were_submitted, real_time_is_kept};

/// The initial value and the multiplier of the hash (FNV-1a).
const BASIS: u64 = 0xcbf2_9ce4_8422_2325;

const PRIME: u64 = 0x0100_0000_01b3;

/// Returns the 64-bit FNV-1a hash of a key.
fn hash(key: &[u8]) -> u64
    ensures { result ≡ hash_of key.now }
{
    let mut hash = BASIS;
    for byte in key {
        hash = (hash ^ u64::from(*byte)).wrapping_mul(PRIME);
    }
    hash
}

/// Returns the shard of a key, of this many shards: a number below it, by a hash of the key's bytes.
pub fn shard(key: &[u8], shards: u8) -> u8
    requires { 1 ≤ shards }
    ensures is { result ≡ shard_of shards key.now }
    ensures below { result < shards }
{
    let hash = hash(key);
    // The hash's last bit is but a parity of the key's bytes: keys of four odd digits would have half of the shards.
    let folded = (hash >> 32) ^ (hash % (1 << 32));
    (folded % u64::from(shards)) as u8
}

/// The hash of keys is the published one.
pub fn hashes_are_published()
    ensures { HashesArePublished }
{}

/// Shards whose lists have right answers in real time, each over keys of its own, are one store: there is one list of
/// all commands, in real time, in which each answer is that of one store over all keys.
pub fn shards_are_one_store()
    ensures { ShardsAreOneStore }
{}

/// Clusters of running nodes, each asked for keys of its own shard alone, are one store, as an observer of their
/// clients sees it: there is one list of all that they executed, in real time, with the answers of one store over all
/// keys.
pub fn clusters_are_one_store()
    ensures { ClustersAreOneStore }
{
    answers_are_right();
    real_time_is_kept();
    shards_are_one_store();
}

/// Each answer that a node sends is in a list that an observer can see, so the premises of `clusters_are_one_store`
/// about what is seen can be met.
pub fn answers_are_seen()
    ensures { AnswersAreSeen }
{
    answers_are_right();
    entries_were_submitted();
}

/// Two lists of entries meet the premises of `shards_are_one_store`, and one list is what it says.
pub fn shards_meet_premises()
    ensures { ShardsMeetPremises }
{}

/// Two lists of right answers, of which one does not keep real time, have no list that keeps it.
pub fn untimely_shards_are_none()
    ensures { UntimelyShardsAreNone }
{}
