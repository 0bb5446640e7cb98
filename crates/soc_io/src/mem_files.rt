//! Files in memory.

ghost use Rattle.std.specs.Prelude.{◌≡◌, ◌≢◌, ℕ, ◌≤◌, ◌<◌, ◌↔◌, [], length, position, find, bytes_eq, Option, Some, IsTrue, OnOk, OnErr};
ghost use Rattle.std.specs.Option.{option_copied};
ghost use Rattle.soc_io.specs.Reading.{with_file, Reads, ReadsHeld, held_at};
ghost use Rattle.soc_base.specs.declared.limits.TheConstants.{MOST_FILE_BYTES};
ghost use Rattle.soc_io.specs.Shelf.{Shelf, shelf_fails, shelf_after};

use crate::files::{Files, FilesFault};
use crate::listed::is_listed;
use soc_base::{Items, MOST_FILE_BYTES, NoMemory, Text};
use std::alloc::{AllocError, Global};
use std::marker::Model;

/// Files in memory, with numbers of reads that fail: the first read is number 1. It keeps the
/// allocator that it was made with.
#[derive(Debug, Drop)]
pub struct MemFiles {
    alloc: Global,
    entries: Vec<(Text, Items<u8>)>,
    failing: Vec<u64>,
    reads: u64,
    count: u64,
}

impl Model for MemFiles {
    ghost use Rattle.soc_io.specs.Shelf.{Shelf};

    ghost Value = { Shelf };

    ghost view = { λ m. record { held = m.entries.items; fails = m.failing.items; calls = m.reads; faults = m.count } };
}

// The bytes of the first file of a name.
fn found<'e>(entries: &'e [(Text, Items<u8>)], name: &str) -> Option<&'e (Text, Items<u8>)>
    ensures { option_copied result ≡ find (λ file. bytes_eq file.0 name.now) entries.now }
{
    entries.iter().find(|entry| entry.0.as_str() == name)
}

// The place of the first file of a name.
fn place_of(entries: &[(Text, Items<u8>)], name: &str) -> Option<usize>
    ensures { result ≡ position (λ file. bytes_eq file.0 name.now) entries.now }
{
    entries.iter().position(|entry| entry.0.as_str() == name)
}

// A file of its own.
fn file_of(alloc: Global, name: &str, bytes: &[u8]) -> Result<(Text, Items<u8>), AllocError>
    ensures { OnOk result (result ≡ Ok (name.now, bytes.now)) }
{
    let text = Text::from_str(alloc, name)?;
    let copy = bytes.to_vec(alloc)?;
    Ok((text, Items::from_vec(copy)))
}

// Copies the file of a name, where it isn't too long, to what is empty.
fn copy_found(
    entries: &[(Text, Items<u8>)],
    name: &str,
    into: &mut Vec<u8>,
) -> Result<(), FilesFault>
    requires { into.old.items ≡ [] }
    ensures answer { (before now : ℕ) → ReadsHeld (held_at entries.now name.now) before now into.new.items result }
    ensures never_failed { result ≢ Err FilesFault.Failed }
    ensures size { length into.new.items ≤ MOST_FILE_BYTES }
    ensures refused { OnErr result (into.new.items ≡ []) }
{
    let Some(entry) = found(entries, name) else {
        return Err(FilesFault::Absent);
    };
    let bytes = entry.1.as_slice();
    if bytes.len() > MOST_FILE_BYTES {
        return Err(FilesFault::TooLong);
    }
    match into.extend_from_slice(bytes) {
        Ok(()) => Ok(()),
        Err(_) => Err(FilesFault::NoMemory),
    }
}

impl MemFiles {
    /// Makes files of which there is none yet. The reads whose numbers stand in `fails` will fail.
    /// Takes no memory.
    pub fn new(alloc: Global, fails: Vec<u64>) -> MemFiles
        ensures { result ≡ record { held = []; fails = fails.items; calls = 0; faults = 0 } }
    {
        MemFiles {
            alloc,
            entries: Vec::new(alloc),
            failing: fails,
            reads: 0,
            count: 0,
        }
    }

    /// Adds a file, in place of the file of that name where there is one. After want of memory the
    /// files are as they were.
    pub fn add(&mut self, name: &str, bytes: &[u8]) -> Result<(), NoMemory>
        ensures ok { OnOk result (self.new ≡ record self.old { held = with_file self.old.held name.now bytes.now }) }
        ensures err { OnErr result (self.new ≡ self.old) }
    {
        let file = file_of(self.alloc, name, bytes)?;
        match place_of(self.entries.as_slice(), name) {
            Some(place) => self.entries[place] = file,
            None => self.entries.push(file)?,
        }
        Ok(())
    }
}

impl Files for MemFiles {
    ghost holds = { λ m. Some m.held };

    ghost faults = { λ m. m.faults };

    fn read(&mut self, _alloc: Global, name: &str, into: &mut Vec<u8>) -> Result<(), FilesFault>
        ensures answer { Reads (Some self.old.held) name.now self.old.faults self.new.faults into.new.items result }
        ensures size { length into.new.items ≤ MOST_FILE_BYTES }
        ensures refused { OnErr result (into.new.items ≡ []) }
        ensures failed { (result ≡ Err FilesFault.Failed) ↔ IsTrue (shelf_fails self.old) }
        ensures after { self.new ≡ shelf_after self.old }
        ensures same { Some self.new.held ≡ Some self.old.held }
        ensures counted { self.old.faults ≤ self.new.faults }
    {
        into.clear();
        self.reads = self.reads.saturating_add(1);
        if is_listed(self.failing.as_slice(), self.reads) {
            self.count = self.count.saturating_add(1);
            return Err(FilesFault::Failed);
        }
        copy_found(self.entries.as_slice(), name, into)
    }
}

#[cfg(test)]
mod tests {
    use super::*;
    use std::test::Fail;

    // Files of these names and bytes, whose reads of these numbers fail.
    fn shelf(alloc: Global, list: &[(&str, &[u8])], fails: Vec<u64>) -> Result<MemFiles, Fail> {
        let mut files = MemFiles::new(alloc, fails);
        for (name, bytes) in list {
            files.add(name, bytes)?;
        }
        Ok(files)
    }

    // What a read answers, and the bytes that it leaves.
    fn answer(
        alloc: Global,
        files: &mut MemFiles,
        name: &str,
    ) -> Result<(Result<(), FilesFault>, Vec<u8>), Fail> {
        let mut into = Vec::from_slice(alloc, b"left over")?;
        let result = files.read(alloc, name, &mut into);
        Ok((result, into))
    }

    #[test]
    fn answers_by_name_and_by_call(rt: HostRuntime) -> Result<(), Fail> {
        let alloc = rt.alloc();
        let list: [(&str, &[u8]); 3] = [("a", b"old"), ("b", b""), ("a", b"new")];
        let mut files = shelf(alloc, &list, vec![in alloc; 2, 5]?)?;
        let cases: [(&str, Result<(), FilesFault>, &[u8]); 6] = [
            ("a", Ok(()), b"new"),
            ("a", Err(FilesFault::Failed), b""),
            ("b", Ok(()), b""),
            ("c", Err(FilesFault::Absent), b""),
            ("c", Err(FilesFault::Failed), b""),
            ("a", Ok(()), b"new"),
        ];
        for (name, want, held) in cases {
            let (result, into) = answer(alloc, &mut files, name)?;
            assert_eq!(rt; result, want, "of {name}");
            assert_eq!(rt; into.as_slice(), held, "of {name}");
        }
        Ok(())
    }

    #[test]
    fn reads_up_to_the_limit(rt: HostRuntime) -> Result<(), Fail> {
        let alloc = rt.alloc();
        let long = Vec::from_elem(alloc, b'x', MOST_FILE_BYTES + 1)?;
        let list: [(&str, &[u8]); 2] = [
            ("whole", &long.as_slice()[1..]),
            ("long", long.as_slice()),
        ];
        let mut files = shelf(alloc, &list, Vec::new(alloc))?;
        let cases = [
            ("whole", Ok(()), MOST_FILE_BYTES),
            ("long", Err(FilesFault::TooLong), 0),
        ];
        for (name, want, len) in cases {
            let (result, into) = answer(alloc, &mut files, name)?;
            assert_eq!(rt; result, want, "of {name}");
            assert_eq!(rt; into.len(), len, "of {name}");
        }
        Ok(())
    }
}
