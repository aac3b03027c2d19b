//! What the bytes of a line are read as.

/// What the bytes of a line are read as.
#[derive(Clone, Copy)]
pub enum Kind {
    /// A byte.
    U8,
    /// A number of two bytes.
    U16,
    /// A number of four bytes.
    U32,
    /// A number of eight bytes.
    U64,
    /// A replica's number.
    Replica,
    /// A timestamp.
    Stamp,
    /// A ballot.
    Ballot,
    /// A timestamp, if there is one.
    OptionStamp,
    /// A key.
    Key,
    /// A value.
    Val,
    /// A value, if there is one.
    OptionVal,
    /// An operation on the store.
    Op,
    /// A client's command.
    Command,
    /// An entry of a log.
    Entry,
    /// A list of entries.
    Entries,
    /// A configuration's members.
    Members,
    /// A decision on the next epoch.
    Decision,
    /// What an acceptor has accepted, if anything.
    OptionVote,
    /// The store's answer.
    Answer,
    /// What a client is told.
    Outcome,
    /// A record.
    Rec,
    /// The records of a whole log body.
    Body,
    /// A whole datagram.
    Datagram,
    /// A whole control message.
    Control,
}

/// The words that name the kinds.
static NAMES: [(&str, Kind); 24] = [
    ("u8", Kind::U8),
    ("u16", Kind::U16),
    ("u32", Kind::U32),
    ("u64", Kind::U64),
    ("replica", Kind::Replica),
    ("stamp", Kind::Stamp),
    ("ballot", Kind::Ballot),
    ("option_stamp", Kind::OptionStamp),
    ("key", Kind::Key),
    ("val", Kind::Val),
    ("option_val", Kind::OptionVal),
    ("op", Kind::Op),
    ("command", Kind::Command),
    ("entry", Kind::Entry),
    ("entries", Kind::Entries),
    ("members", Kind::Members),
    ("decision", Kind::Decision),
    ("option_vote", Kind::OptionVote),
    ("answer", Kind::Answer),
    ("outcome", Kind::Outcome),
    ("rec", Kind::Rec),
    ("body", Kind::Body),
    ("datagram", Kind::Datagram),
    ("control", Kind::Control),
];

impl Kind {
    /// Returns the kind that a word names, if any does.
    pub fn named(word: &str) -> Option<Kind> {
        for (name, kind) in &NAMES {
            if *name == word {
                return Some(*kind);
            }
        }
        None
    }
}
