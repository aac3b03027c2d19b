//! Counts of fresh and used datagrams, and the j-th of them, without a walk over all.

ghost use Rattle.std.specs.Prelude.{◌≡◌, ◌<◌, ℕ, Bool};
ghost use Rattle.std.specs.List.{count_by};
ghost use Rattle.crsm_sim_network.specs.Packets.{Receives, WhereStands, is_of};
ghost use Rattle.crsm_sim_network.specs.Nth.{IsNth};

use crate::network::Network;
use crate::receivers::Receivers;

impl Network {
    /// Returns the number of used, or of fresh, datagrams to these receivers.
    pub fn count_of(&self, is_used: bool, receivers: &Receivers) -> u64
        ensures { (test : ℕ → Bool) → Receives receivers.now test → WhereStands self.now (λ packets bytes. result ≡ count_by (is_of is_used test) packets) }
    {
        self.tally.count(receivers.wanted(is_used))
    }

    /// Returns the number of the `j`-th of these datagrams, `j` from 0.
    pub fn nth_of(&self, is_used: bool, receivers: &Receivers, j: u64) -> u64
        ensures { (test : ℕ → Bool) → Receives receivers.now test → WhereStands self.now (λ packets bytes.
            j < count_by (is_of is_used test) packets → IsNth (is_of is_used test) packets j result) }
    {
        self.tally.nth(j, receivers.wanted(is_used)) as u64
    }
}
