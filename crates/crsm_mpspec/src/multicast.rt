//! Messages with several receivers.

ghost use Rattle.std.specs.Prelude.{◌≡◌, ◌-◌, length, take};
ghost use Rattle.crsm_mpspec.specs.Sends.{receivers};

use crate::message::MpMessage;

/// The receivers of a message, in ascending order.
#[derive(Clone, Copy)]
pub enum MpReceivers {
    /// One replica.
    One { to: u32 },
    /// The replicas with numbers below `n`, without replica `me`.
    Others { me: u32, n: u32 },
}

impl MpReceivers {
    /// Returns the number of receivers.
    pub(crate) fn len(self) -> u32
        ensures { result ≡ length (receivers self) }
    {
        match self {
            MpReceivers::One { to: _ } => 1,
            MpReceivers::Others { me, n } if me < n => n - 1,
            MpReceivers::Others { me: _, n } => n,
        }
    }

    /// Returns the first `count` receivers.
    fn first(self, count: u32) -> MpReceivers
        ensures { receivers result ≡ take count (receivers self) }
    {
        match self {
            MpReceivers::One { to: _ } if count > 0 => self,
            MpReceivers::One { to: _ } => MpReceivers::Others { me: 0, n: 0 },
            MpReceivers::Others { me, n } => {
                let end = if count <= me {
                    count
                } else {
                    count.saturating_add(1)
                };
                MpReceivers::Others { me, n: end.min(n) }
            }
        }
    }

    /// Keeps the first `count` receivers, and removes the others. Returns how many fewer there were than `count`.
    pub(crate) fn truncate(&mut self, count: u64) -> u64
        ensures kept { receivers self.new ≡ take count (receivers self.old) }
        ensures missing { result ≡ count - length (receivers self.old) }
    {
        let len = self.len();
        if u64::from(len) <= count {
            return count - u64::from(len);
        }
        *self = self.first(count as u32);
        0
    }
}

/// A message to several replicas, which is kept once.
#[derive(Drop)]
pub struct MpMulticast {
    pub receivers: MpReceivers,
    pub message: MpMessage,
}
