//! The parameters of a node.

ghost use Rattle.std.specs.Prelude.{◌≡◌, ◌<◌, ◌≤◌, length, IfSome, IsSome};

/// The parameters of a node.
#[derive(Drop)]
pub struct NodeOrder {
    // The number of its replica.
    pub(crate) me: u32,
    // Number of replicas that the cluster began with.
    pub(crate) n: u32,
    // Number of turns to take.
    pub(crate) turns: u64,
    // The address of each replica, IPv4 x 65,536 + port.
    pub(crate) peers: Vec<u64>,
    // The number of its cluster; 0 means none.
    pub(crate) cluster: u64,
    ghost me_below: { me < 15 },
    ghost some: { 1 ≤ n },
    ghost few: { n ≤ 15 },
    ghost addresses: { n ≤ length peers.items },
    ghost few_addresses: { length peers.items ≤ 15 },
    ghost own_address: { me < length peers.items },
}

impl NodeOrder {
    /// Returns the parameters of a node: replica `me` of a cluster that began with `n`, where replica `k` has the
    /// address `peers[k]`, IPv4 x 65,536 + port. It takes `turns` turns over the log and the network of cluster
    /// `cluster`; 0 means none. `None` if `n` is not from 1 to 15, there are fewer than `n` or more than 15 addresses,
    /// or `me` has none.
    pub fn new(me: u32, n: u32, turns: u64, peers: Vec<u64>, cluster: u64) -> Option<NodeOrder>
        ensures value { IfSome result (λ order. (order.me ≡ me) × (order.n ≡ n) × (order.turns ≡ turns) × (order.peers ≡ peers) × (order.cluster ≡ cluster)) }
        ensures some { 1 ≤ n → n ≤ length peers.items → length peers.items ≤ 15 → me < length peers.items → IsSome result }
    {
        let count = peers.len() as u64;
        if n == 0 || u64::from(n) > count || count > 15 || u64::from(me) >= count {
            return None;
        }
        Some(NodeOrder {
            me,
            n,
            turns,
            peers,
            cluster,
        })
    }
}
