//! A plan: one command, the delays between replicas, and the offsets of their clocks.

ghost use Rattle.std.specs.Prelude.{◌≡◌, [], ◌∷◌, ◌++◌, OnOk, OnErr};

use crsm_base::NoMemory;
use std::alloc::Global;
use std::marker::Model;

/// The offset of one replica's clock: `by` is how far it is ahead of real time, in microseconds.
#[derive(Clone, Copy, Debug, PartialEq, Eq)]
pub struct Offset {
    pub replica: u64,
    pub by: u64,
}

/// The time in microseconds, `by`, that a datagram takes from replica `from` to replica `to`.
#[derive(Clone, Copy, Debug, PartialEq, Eq)]
pub struct Delay {
    pub from: u64,
    pub to: u64,
    pub by: u64,
}

/// A list of clock offsets. A replica that is not named has the offset 0.
#[derive(Debug, Drop)]
pub struct Offsets {
    items: Vec<Offset>,
}

impl Model for Offsets {
    ghost use Rattle.std.specs.Prelude.{List};
    ghost use Rattle.crsm_spec_plan.specs.declared.plan.Offset.{Offset};

    ghost Value = { List Offset };

    ghost view = { λ o. o.items.items };
}

impl Offsets {
    /// Returns an empty list that allocates from `alloc`.
    pub fn new(alloc: Global) -> Offsets
        ensures { result ≡ [] }
    {
        Offsets {
            items: Vec::new(alloc),
        }
    }

    /// Appends an item. `NoMemory` if memory runs out; the list is then unchanged.
    pub fn push(&mut self, item: Offset) -> Result<(), NoMemory>
        ensures ok { OnOk result (self.new ≡ self.old ++ item ∷ []) }
        ensures err { OnErr result (self.new ≡ self.old) }
    {
        self.items.push(item)?;
        Ok(())
    }

    /// Returns the items in order.
    pub fn as_slice(&self) -> &[Offset]
        ensures { result.now ≡ self.now }
    {
        self.items.as_slice()
    }
}

/// A list of delays. A pair of replicas that is not named has the delay 0.
#[derive(Debug, Drop)]
pub struct Delays {
    items: Vec<Delay>,
}

impl Model for Delays {
    ghost use Rattle.std.specs.Prelude.{List};
    ghost use Rattle.crsm_spec_plan.specs.declared.plan.Delay.{Delay};

    ghost Value = { List Delay };

    ghost view = { λ d. d.items.items };
}

impl Delays {
    /// Returns an empty list that allocates from `alloc`.
    pub fn new(alloc: Global) -> Delays
        ensures { result ≡ [] }
    {
        Delays {
            items: Vec::new(alloc),
        }
    }

    /// Appends an item. `NoMemory` if memory runs out; the list is then unchanged.
    pub fn push(&mut self, item: Delay) -> Result<(), NoMemory>
        ensures ok { OnOk result (self.new ≡ self.old ++ item ∷ []) }
        ensures err { OnErr result (self.new ≡ self.old) }
    {
        self.items.push(item)?;
        Ok(())
    }

    /// Returns the items in order.
    pub fn as_slice(&self) -> &[Delay]
        ensures { result.now ≡ self.now }
    {
        self.items.as_slice()
    }
}

/// A plan of one command, which reaches the replica `origin` at the moment `at`, in microseconds of real time.
#[derive(Debug, Drop)]
pub struct Plan {
    /// The number of replicas, from 1 to 15.
    pub n: u64,
    pub offsets: Offsets,
    pub delays: Delays,
    /// The replica that the command reaches.
    pub origin: u64,
    /// The moment at which it does, in microseconds of real time from an arbitrary zero.
    pub at: u64,
}
