//! The output of a step while it runs.

ghost use Rattle.std.specs.Prelude.{◌≡◌, ◌++◌, [], ◌∷◌, ℕ, List, IfOk, OnOk, map};
ghost use Rattle.crsm_base.specs.declared.Datagram.{Datagram};
ghost use Rattle.crsm_replica_output.specs.Made.{Made, OutputStands, IsBatchOf, nothing, on_paper, to_replica, to_address, line_of};

use crate::batch::Batch;
use crsm_base::{Datagram, Line, Lines, NoMemory, Outcome, Rec, Recs, Send, Sends, To};
use std::alloc::Global;
use std::mem;

/// A reply to a client: its address, IPv4 x 65,536 + port, the command that it answers, its content, and its line.
#[derive(Drop)]
pub struct Reply {
    pub address: u64,
    pub client: u64,
    pub number: u64,
    pub says: Outcome,
    pub line: Line,
}

/// The output that a step has produced until now. After an error its fields are unspecified.
pub struct Output {
    alloc: Global,
    records: Recs,
    /// The lines of the records.
    lines: Lines,
    /// The lines of refused collections.
    excess: Vec<Line>,
    /// The datagrams to replicas.
    sends: Sends,
    replies: Vec<Reply>,
}

// Written by hand, it is one call for the crates above, which would prove a derived one again.
impl Drop for Output {
    fn drop(self) {
        let Output {
            alloc: _,
            records: _,
            lines: _,
            excess: _,
            sends: _,
            replies: _,
        } = self;
    }
}

impl Output {
    /// Returns the empty output.
    pub fn new(alloc: Global) -> Output
        ensures { OutputStands result nothing }
    {
        Output {
            alloc,
            records: Recs::new(alloc),
            lines: Lines::new(alloc),
            excess: Vec::new(alloc),
            sends: Sends::new(alloc),
            replies: Vec::new(alloc),
        }
    }

    /// Returns the lines of the records.
    pub fn lines(&self) -> &[Line]
        ensures { (m : Made) → OutputStands self.now m → result.now ≡ m.lines }
    {
        self.lines.as_slice()
    }

    /// Appends a record with its lines. `NoMemory` if memory runs out.
    pub fn keep(&mut self, rec: Rec, lines: Lines) -> Result<(), NoMemory>
        ensures { OnOk result ((m : Made) → OutputStands self.old m → OutputStands self.new (record m { batch = m.batch ++ rec ∷ []; lines = m.lines ++ lines })) }
    {
        self.records.push(rec)?;
        if self.lines.as_slice().is_empty() {
            self.lines = lines;
            return Ok(());
        }
        let mut more = lines;
        self.lines.append(&mut more)?;
        Ok(())
    }

    /// Appends the line of a refused collection. `NoMemory` if memory runs out.
    pub fn exceed(&mut self, line: Line) -> Result<(), NoMemory>
        ensures { OnOk result ((m : Made) → OutputStands self.old m → OutputStands self.new (record m { excess = m.excess ++ line ∷ [] })) }
    {
        self.excess.push(line)?;
        Ok(())
    }

    /// Appends a datagram to replica `k`. `NoMemory` if memory runs out.
    pub fn send(&mut self, k: u32, datagram: Datagram) -> Result<(), NoMemory>
        ensures { OnOk result ((m : Made) → OutputStands self.old m → OutputStands self.new (record m { sends = m.sends ++ (k, datagram) ∷ [] })) }
    {
        self.sends.push(Send {
            to: To::Replica(k),
            datagram,
        })?;
        Ok(())
    }

    /// Appends datagrams to replicas. `NoMemory` if memory runs out.
    pub fn send_all(&mut self, sends: Sends) -> Result<(), NoMemory>
        ensures { OnOk result ((m : Made) (sent : List (ℕ × Datagram)) → OutputStands self.old m → sends ≡ map to_replica sent → OutputStands self.new (record m { sends = m.sends ++ sent })) }
    {
        let mut more = sends;
        self.sends.append(&mut more)?;
        Ok(())
    }

    /// Appends a reply to a client. `NoMemory` if memory runs out.
    pub fn reply(&mut self, reply: Reply) -> Result<(), NoMemory>
        ensures { OnOk result ((m : Made) → OutputStands self.old m → OutputStands self.new (record m { replies = m.replies ++ on_paper reply ∷ [] })) }
    {
        self.replies.push(reply)?;
        Ok(())
    }

    /// Returns all output and leaves the empty one. `NoMemory` if memory runs out.
    pub fn take(&mut self) -> Result<Batch, NoMemory>
        ensures batch { IfOk result (λ batch. (m : Made) → OutputStands self.old m → IsBatchOf batch m) }
        ensures nothing { OnOk result (OutputStands self.new nothing) }
    {
        let alloc = self.alloc;
        let records = mem::replace(&mut self.records, Recs::new(alloc));
        let mut sends = mem::replace(&mut self.sends, Sends::new(alloc));
        let mut lines = mem::replace(&mut self.lines, Lines::new(alloc));
        if !self.excess.is_empty() {
            add(mem::replace(&mut self.excess, Vec::new(alloc)), &mut lines)?;
        }
        if !self.replies.is_empty() {
            let replies = mem::replace(&mut self.replies, Vec::new(alloc));
            hand_out(replies, &mut sends, &mut lines)?;
        }
        Ok(Batch {
            records,
            sends,
            lines,
        })
    }
}

/// Appends `more` to `lines`. `NoMemory` if memory runs out.
fn add(more: Vec<Line>, lines: &mut Lines) -> Result<(), NoMemory>
    ensures { OnOk result (lines.new ≡ lines.old ++ more.items) }
{
    for line in more {
        lines.push(line)?;
    }
    Ok(())
}

/// Appends the datagrams and the lines of replies. `NoMemory` if memory runs out.
fn hand_out(replies: Vec<Reply>, sends: &mut Sends, lines: &mut Lines) -> Result<(), NoMemory>
    ensures sends { OnOk result (sends.new ≡ sends.old ++ map to_address (map on_paper replies.items)) }
    ensures lines { OnOk result (lines.new ≡ lines.old ++ map line_of (map on_paper replies.items)) }
{
    for reply in replies {
        let Reply {
            address,
            client,
            number,
            says,
            line,
        } = reply;
        sends.push(Send {
            to: To::Address(address),
            datagram: Datagram::Reply {
                client,
                number,
                outcome: says,
            },
        })?;
        lines.push(line)?;
    }
    Ok(())
}
