//! The classes by which datagrams are counted, and sets of receivers.

ghost use Rattle.std.specs.Prelude.{◌≡◌, ◌<◌, ◌==◌, ◌||◌, ℕ, Bool, false, min, true};
ghost use Rattle.crsm_sim_network.specs.Packets as on_paper;
ghost use Rattle.crsm_sim_network.specs.Packets.{Receives};

use crate::CLASSES;

/// Receivers from this number on share one class, fresh or used.
const OTHERS: u32 = 15;

/// The first class of used datagrams.
const USED: u8 = 16;

/// Returns the class of a datagram to this receiver.
#[tactic(auto, unfolding(crate::specs::Packets::class_of))]
pub(crate) fn class_of(to: u32, is_used: bool) -> u8
    ensures class { result ≡ on_paper.class_of to is_used }
    ensures small { result < 32 }
{
    let class = to.min(OTHERS) as u8;
    if is_used { class + USED } else { class }
}

/// A set of receivers, as sets of classes.
#[derive(Clone, Copy)]
pub struct Receivers {
    /// The classes of fresh datagrams to these receivers.
    fresh: [bool; CLASSES],
    /// The classes of used datagrams to these receivers.
    used: [bool; CLASSES],
}

impl Receivers {
    /// Returns the empty set.
    pub fn none() -> Receivers
        ensures { Receives result (λ k. false) }
    {
        Receivers {
            fresh: [false; CLASSES],
            used: [false; CLASSES],
        }
    }

    /// Returns the set of all receivers.
    pub fn any() -> Receivers
        ensures { Receives result (λ k. true) }
    {
        let mut any = Receivers::none();
        for class in 0..CLASSES / 2 {
            any.add_class(class);
        }
        any
    }

    /// Adds the receivers of a class.
    fn add_class(&mut self, class: usize)
        requires { class < 16 }
        ensures { (test : ℕ → Bool) → Receives self.old test → Receives self.new (λ j. test j || min j 15 == class) }
    {
        self.fresh[class] = true;
        self.used[class + CLASSES / 2] = true;
    }

    /// Adds receiver `k`.
    pub fn add(&mut self, k: u32)
        requires { k < 15 }
        ensures { (test : ℕ → Bool) → Receives self.old test → Receives self.new (λ j. test j || j == k) }
    {
        self.add_class(k as usize);
    }

    /// Returns for each class whether it is that of used, or of fresh, datagrams to these receivers.
    pub(crate) fn wanted(&self, is_used: bool) -> &[bool]
        ensures { result.now ≡ on_paper.wanted self.now is_used }
    {
        if is_used { &self.used } else { &self.fresh }
    }
}
