//! The host's files.

ghost use Rattle.std.specs.Prelude.{◌≡◌, ◌<◌, ◌≤◌, [], length, None, IfSome, Err, OnOk, OnErr};
ghost use Rattle.soc_base.specs.declared.limits.TheConstants.{MOST_FILE_BYTES};
ghost use Rattle.soc_io.specs.Reading.{Reads, faults_after};
ghost use Rattle.soc_io.specs.declared.files.FilesFault.TheVariants.{TooLong};

use crate::files::{Files, FilesFault};
use soc_base::MOST_FILE_BYTES;
use std::alloc::Global;
use std::fs::File;
use std::io::{ErrorKind, Read};

/// The host's files, by path. Nothing is told of them; each refusal but want of memory counts as a
/// fault. It keeps the runtime that it was made with.
#[derive(Drop)]
pub struct HostFiles<'r, R> {
    rt: &'r R,
    count: u64,
}

impl<'r, R: std::rt::Files> HostFiles<'r, R> {
    /// Makes the files of a runtime, with no fault counted. Takes no memory.
    pub fn new(rt: &'r R) -> HostFiles<'r, R>
        ensures { result.count ≡ 0 }
    {
        HostFiles { rt, count: 0 }
    }
}

// Reads what is left of a file to what is empty, where it is no longer than a file may be. After a
// refusal a front of it may stand there.
fn read_whole<F: Read + Drop>(file: F, into: &mut Vec<u8>) -> Result<(), FilesFault>
    requires { into.old.items ≡ [] }
    ensures whole { OnOk result (IfSome (F.remaining file) (λ bytes. into.new.items ≡ bytes)) }
    ensures size { OnOk result (length into.new.items ≤ MOST_FILE_BYTES) }
    ensures long { result ≡ Err TooLong → IfSome (F.remaining file) (λ bytes. MOST_FILE_BYTES < length bytes) }
{
    match file.take(MOST_FILE_BYTES as u64 + 1).read_to_end(into) {
        Ok(count) => {
            if count > MOST_FILE_BYTES {
                return Err(FilesFault::TooLong);
            }
            Ok(())
        }
        Err(error) => {
            if error.kind() == ErrorKind::OutOfMemory {
                return Err(FilesFault::NoMemory);
            }
            Err(FilesFault::Failed)
        }
    }
}

// Reads the file of a name to what is empty. After a refusal a front of it may stand there.
fn read_named<R: std::rt::Files>(rt: &R, name: &str, into: &mut Vec<u8>) -> Result<(), FilesFault>
    requires { into.old.items ≡ [] }
    ensures { OnOk result (length into.new.items ≤ MOST_FILE_BYTES) }
{
    match File::open(rt, name) {
        Ok(file) => read_whole(file, into),
        Err(error) => {
            if error.kind() == ErrorKind::NotFound {
                Err(FilesFault::Absent)
            } else {
                Err(FilesFault::Failed)
            }
        }
    }
}

impl<'r, R: std::rt::Files> Files for HostFiles<'r, R> {
    ghost holds = { λ _. None };

    ghost faults = { λ f. f.count };

    fn read(&mut self, _alloc: Global, name: &str, into: &mut Vec<u8>) -> Result<(), FilesFault>
        ensures answer { Reads None name.now self.old.count self.new.count into.new.items result }
        ensures size { length into.new.items ≤ MOST_FILE_BYTES }
        ensures refused { OnErr result (into.new.items ≡ []) }
        ensures faults { self.new.count ≡ faults_after result self.old.count }
        ensures counted { self.old.count ≤ self.new.count }
    {
        into.clear();
        let answer = read_named(self.rt, name, into);
        if let Err(fault) = answer {
            into.clear();
            if fault != FilesFault::NoMemory {
                self.count = self.count.saturating_add(1);
            }
        }
        answer
    }
}

#[cfg(test)]
mod tests {
    use super::*;
    use std::alloc::AllocError;
    use std::fs;
    use std::test::Fail;

    // Four bytes for each number from 0 on, so that no part of the list is like another.
    fn counted(alloc: Global, numbers: u32) -> Result<Vec<u8>, AllocError> {
        let mut bytes = Vec::new(alloc);
        for number in 0..numbers {
            bytes.extend_from_slice(&number.to_le_bytes())?;
        }
        Ok(bytes)
    }

    #[test]
    fn reads_real_files(rt: HostRuntime) -> Result<(), Fail> {
        let alloc = rt.alloc();
        let folder = "soc_io_host_files";
        fs::create_dir_all(&rt, folder)?;
        fs::write(&rt, "soc_io_host_files/small", "some bytes")?;
        let mut whole = counted(alloc, 1_048_576)?;
        fs::write(&rt, "soc_io_host_files/whole", whole.as_slice())?;
        whole.push(0)?;
        fs::write(&rt, "soc_io_host_files/long", whole.as_slice())?;
        let cases = [
            ("soc_io_host_files/small", Ok(()), 10),
            ("soc_io_host_files/whole", Ok(()), MOST_FILE_BYTES),
            ("soc_io_host_files/long", Err(FilesFault::TooLong), 0),
            ("soc_io_host_files/none", Err(FilesFault::Absent), 0),
            ("soc_io_host_files", Err(FilesFault::Failed), 0),
        ];
        let mut files = HostFiles::new(&rt);
        for (name, want, len) in cases {
            let mut into = Vec::from_slice(alloc, b"left over")?;
            assert_eq!(rt; files.read(alloc, name, &mut into), want, "of {name}");
            assert_eq!(rt; into.len(), len, "of {name}");
        }
        let mut into = Vec::new(alloc);
        files.read(alloc, "soc_io_host_files/small", &mut into)?;
        assert_eq!(rt; into.as_slice(), b"some bytes".as_slice());
        files.read(alloc, "soc_io_host_files/whole", &mut into)?;
        let _last = whole.pop();
        assert!(rt; into.as_slice() == whole.as_slice());
        fs::remove_dir_all(&rt, folder)?;
        Ok(())
    }
}
