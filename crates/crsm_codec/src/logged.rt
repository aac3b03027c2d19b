//! Readers and writers of entries and lists of entries.

ghost use Rattle.std.specs.Prelude.{◌≡◌, ◌++◌, IfOk, IfSome, IfNone, OnOk, OnErr};
ghost use Rattle.crsm_base.specs.Spelling.{FitsEntries, FitsEntry, SpeltEntries, SpeltEntry, entries_bytes, entry_bytes};
ghost use Rattle.crsm_codec.specs.Readers.{IsPrefix, HasNoPrefix, ReadsAgain};

use crsm_base::{Bytes, Entries, Entry, NoMemory};
use std::alloc::Global;

/// Parses an entry at the beginning of `bytes`. Returns it with the length of its encoding in bytes, or `None` if
/// `bytes` begins with no such encoding; `NoMemory` if memory runs out.
pub fn read_entry(alloc: Global, bytes: &[u8]) -> Result<Option<(Entry, usize)>, NoMemory>
    ensures found { IfOk result (λ r. IfSome r (IsPrefix SpeltEntry bytes.now)) }
    ensures none { IfOk result (λ r. IfNone r (HasNoPrefix SpeltEntry bytes.now)) }
    ensures again { ReadsAgain entry_bytes FitsEntry bytes.now result }
{
    match crsm_text_fields::take_entry(alloc, bytes) {
        Ok(Some((entry, rest))) => Ok(Some((entry, bytes.len() - rest.len()))),
        Ok(None) => Ok(None),
        Err(NoMemory) => Err(NoMemory),
    }
}

/// Appends the encoding of an entry. `NoMemory` if memory runs out; `out` is then unchanged.
pub fn write_entry(alloc: Global, entry: &Entry, out: &mut Bytes) -> Result<(), NoMemory>
    requires { FitsEntry entry.now }
    ensures ok { OnOk result (out.new ≡ out.old ++ entry_bytes entry.now) }
    ensures err { OnErr result (out.new ≡ out.old) }
{
    let mut spelling = Bytes::new(alloc);
    let Ok(()) = crsm_text_fields::put_entry(entry, &mut spelling) else {
        drop(spelling);
        return Err(NoMemory);
    };
    out.append(spelling.as_slice())
}

/// Parses a list of entries, strictly rising, at most 4,096 of them in at most 2,097,152 bytes at the beginning of
/// `bytes`. Returns it with the length of its encoding in bytes, or `None` if `bytes` begins with no such encoding;
/// `NoMemory` if memory runs out.
pub fn read_entries(alloc: Global, bytes: &[u8]) -> Result<Option<(Entries, usize)>, NoMemory>
    ensures found { IfOk result (λ r. IfSome r (IsPrefix SpeltEntries bytes.now)) }
    ensures none { IfOk result (λ r. IfNone r (HasNoPrefix SpeltEntries bytes.now)) }
    ensures again { ReadsAgain entries_bytes FitsEntries bytes.now result }
{
    match crsm_text_fields::take_entries(alloc, bytes) {
        Ok(Some((entries, rest))) => Ok(Some((entries, bytes.len() - rest.len()))),
        Ok(None) => Ok(None),
        Err(NoMemory) => Err(NoMemory),
    }
}

/// Appends the encoding of a list of entries, strictly rising, at most 4,096 of them in at most 2,097,152 bytes.
/// `NoMemory` if memory runs out; `out` is then unchanged.
pub fn write_entries(alloc: Global, entries: &Entries, out: &mut Bytes) -> Result<(), NoMemory>
    requires { FitsEntries entries.now }
    ensures ok { OnOk result (out.new ≡ out.old ++ entries_bytes entries.now) }
    ensures err { OnErr result (out.new ≡ out.old) }
{
    let mut spelling = Bytes::new(alloc);
    let Ok(()) = crsm_text_fields::put_entries(entries, &mut spelling) else {
        drop(spelling);
        return Err(NoMemory);
    };
    out.append(spelling.as_slice())
}
