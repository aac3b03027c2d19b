//! The state of the random sequence, and the draws from it.

ghost use Rattle.std.specs.Prelude.{◌≡◌, ◌<◌, ◌≤◌, length, slice_set};
ghost use Rattle.crsm_sim_generator.specs.Drawing.{after_head, begun, behind, capped_sum, head_of};
ghost use Rattle.crsm_sim_generator.specs.Sequence.{draw, later, next_number};

use crate::kind::{EventHead, kind_of};

const FACTOR: u64 = 6_364_136_223_846_793_005;

const SUMMAND: u64 = 1_442_695_040_888_963_407;

/// A draw divides by this, so that it uses the upper bits.
const LOWER_BITS: u64 = 0x2_0000_0000;

/// The state from which a generator continues.
#[derive(Clone, Copy, Debug)]
pub struct Drawing {
    /// The latest number of the sequence.
    pub latest: u64,
    /// The simulated time, in the unit of readings; an event's reading may be ahead of it.
    pub now: u64,
    /// For each of clients 1 to 4 the number of its latest command.
    pub numbers: [u64; 4],
}

/// Returns the next number of the sequence.
#[tactic(auto, unfolding(crate::specs::Sequence::next_number))]
fn number_behind(number: u64) -> u64
    ensures { result ≡ next_number number }
{
    number.wrapping_mul(FACTOR).wrapping_add(SUMMAND)
}

impl Drawing {
    /// Returns the state before any draw, seeded with this number.
    #[tactic(auto, unfolding(crate::specs::Drawing::begun))]
    pub(crate) fn new(number: u64) -> Drawing
        ensures { result ≡ begun number }
    {
        Drawing {
            latest: number,
            now: 0,
            numbers: [0; 4],
        }
    }

    /// Draws a number below `k`.
    #[tactic(auto, unfolding(crate::specs::Sequence::draw, crate::specs::Sequence::later, crate::specs::Drawing::behind))]
    pub(crate) fn draw(&mut self, k: u64) -> u64
        requires { 0 < k }
        ensures drawn { result ≡ draw self.old.latest 0 k }
        ensures below { result < k }
        ensures state { self.new ≡ behind 1 self.old }
    {
        self.latest = number_behind(self.latest);
        self.latest / LOWER_BITS % k
    }

    /// Draws the first numbers of an event, in a cluster of `n` replicas.
    #[tactic(auto, unfolding(crate::specs::Sequence::draw, crate::specs::Sequence::later, crate::specs::Drawing::behind, crate::specs::Drawing::head_of, crate::specs::Drawing::after_head, crate::specs::Drawing::capped_sum))]
    pub(crate) fn head(&mut self, n: u32) -> EventHead
        requires { 1 ≤ n }
        ensures head { result ≡ head_of n self.old }
        ensures state { self.new ≡ after_head self.old }
    {
        let passed = self.draw(20);
        self.now = self.now.saturating_add(passed);
        let kind = kind_of(self.draw(100));
        let replica = self.draw(u64::from(n)) as u32;
        let ahead = self.draw(200);
        EventHead {
            kind,
            replica,
            reading: self.now.saturating_add(ahead),
        }
    }
}
