//! The queries of a generator about a world.

ghost use Rattle.std.specs.Prelude.{◌≡◌, ◌<◌, Some, length, slice_get};
ghost use Rattle.crsm_sim_generator.specs.View.{View, fresh_seen, is_up_in, used_to_up};

/// A world for which events are generated. Datagrams are numbered from 0, the oldest first.
pub trait Look {
    /// The view of the world that the queries answer from.
    ghost shows: { Self → View → Type 0 };

    /// Returns the number of replicas.
    fn replicas(&self) -> u32
        ensures { (v : View) → shows self.now v → result ≡ length v.ups };

    /// Returns whether the replica with this number exists and is up.
    fn is_up(&self, replica: u32) -> bool
        ensures { (v : View) → shows self.now v → result ≡ is_up_in v replica };

    /// Returns the number of fresh datagrams; with `up`, of those whose receiver is up.
    fn fresh(&self, up: bool) -> u64
        ensures { (v : View) → shows self.now v → result ≡ length (fresh_seen up v) };

    /// Returns the number of the `j`-th of these datagrams, `j` from 0.
    fn nth_fresh(&self, j: u64, up: bool) -> u64
        ensures { (v : View) → shows self.now v → j < length (fresh_seen up v) → slice_get (fresh_seen up v) j ≡ Some result };

    /// Returns the count of used datagrams (delivered or lost) whose receiver is up.
    fn used(&self) -> u64
        ensures { (v : View) → shows self.now v → result ≡ length (used_to_up v) };

    /// Returns the number of the `j`-th of these datagrams, `j` from 0.
    fn nth_used(&self, j: u64) -> u64
        ensures { (v : View) → shows self.now v → j < length (used_to_up v) → slice_get (used_to_up v) j ≡ Some result };
}
