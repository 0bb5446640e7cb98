//! One run of the program over files and a sink in memory, for the tables of the other tests. What they
//! expect was worked out by hand from the cycles of the frame and the table of costs.

use crate::top::compsoc;
use soc_base::Words;
use soc_io::{MemFiles, MemSink};
use std::alloc::{AllocError, Global};
use std::process::Abort;
use std::sync::Wait;
use std::test::Fail;
use std::thread::Threads;
use tile_workers::Free;

/// A file by its name and its bytes.
pub type File = (String, Vec<u8>);

/// A platform file that breaks no rule.
pub const PLATFORM: &str =
    "tiles = 1\nmem_bytes = 4096\nslot_cycles = 8\ntable_slots = 8\nkernel_cycles = 72\npartition_cycles = 56\npartition_slots = 2\nports = 2\nqueue = 8\n";

/// Stores 7 to TRACE and halts: 7 running cycles, of which the sixth ends the store.
pub const SEVEN: &str = "93027000370300802320530073000000";

/// Appends a file.
pub fn add(alloc: Global, shelf: &mut Vec<File>, name: &str, text: &str) -> Result<(), AllocError> {
    let name = String::from_str(alloc, name)?;
    let bytes = Vec::from_slice(alloc, text.as_bytes())?;
    shelf.push((name, bytes))?;
    Ok(())
}

/// A bundle of one part of 64 bytes.
pub fn bundle(
    alloc: Global,
    slot: u8,
    base: u32,
    trace: u32,
    kind: &str,
    image: &str,
) -> Result<String, AllocError> {
    format!(in alloc;
        "version = 1\n[[part]]\ntile = 0\nslots = [{slot}]\nbase = {base}\nlen = 64\nentry = 0\ntrace = {trace}\nkinds = [{kind}]\nimage = \"{image}\"\n"
    )
}

// A text without the line of the sum over the platform, which tests of their own compare.
fn without_sum(alloc: Global, text: &str) -> Result<String, AllocError> {
    let mut rest = String::with_capacity(alloc, text.len())?;
    for line in text.split_inclusive('\n') {
        if !line.starts_with("platform ") {
            rest.push_str(line)?;
        }
    }
    Ok(rest)
}

// Runs a line's words, and hands back the status and what was written.
fn ran<R: Threads + Wait + Sync>(
    rt: &R,
    alloc: Global,
    shelf: &[File],
    line: &str,
    read: u64,
    write: u64,
) -> Result<(u8, String), Fail> {
    let mut words = Words::new(alloc);
    for word in line.split_whitespace() {
        words.add(word)?;
    }
    let mut files = MemFiles::new(alloc, Vec::from_slice(alloc, &[read])?);
    for (name, bytes) in shelf {
        files.add(name.as_str(), bytes.as_slice())?;
    }
    let mut sink = MemSink::new(alloc, 16384, Vec::from_slice(alloc, &[write])?)?;
    let status = compsoc(rt, alloc, &words, &mut files, &mut sink, &Free);
    let written = std::str::from_utf8(sink.written())?;
    Ok((status, String::from_str(alloc, written)?))
}

/// A run: the words, the numbers of the read and of the write that fail, or 0, the status, and what is
/// written.
pub type Row<'a> = (&'a str, u64, u64, u8, &'a str);

/// Runs a line over files, and compares the status and what was written, but for the line of the sum over
/// the platform.
pub fn expect<R: Abort + Threads + Wait + Sync>(
    rt: &R,
    alloc: Global,
    shelf: &[File],
    row: Row<'_>,
) -> Result<(), Fail> {
    let (line, read, write, status, text) = row;
    let (ended, written) = ran(rt, alloc, shelf, line, read, write)?;
    let written = without_sum(alloc, written.as_str())?;
    assert_eq!(rt;
        ended,
        status,
        "{line} with read {read} and write {write} failing"
    );
    assert_eq!(rt;
        written.as_str(),
        text,
        "{line} with read {read} and write {write} failing"
    );
    Ok(())
}

/// Runs a line over files that can all be read, and compares the status and all that was written.
pub fn expect_whole<R: Abort + Threads + Wait + Sync>(
    rt: &R,
    alloc: Global,
    shelf: &[File],
    row: (&str, u8, &str),
) -> Result<(), Fail> {
    let (line, status, text) = row;
    let (ended, written) = ran(rt, alloc, shelf, line, 0, 0)?;
    assert_eq!(rt; ended, status, "{line}");
    assert_eq!(rt; written.as_str(), text, "{line}");
    Ok(())
}

/// Runs a line over files that can all be read, and checks that what was written, but for the line of the sum
/// over the platform, is one of three texts.
pub fn expect_one_of<R: Abort + Threads + Wait + Sync>(
    rt: &R,
    alloc: Global,
    shelf: &[File],
    line: &str,
    texts: (&str, &str, &str),
) -> Result<(), Fail> {
    let (ended, written) = ran(rt, alloc, shelf, line, 0, 0)?;
    let written = without_sum(alloc, written.as_str())?;
    let text = written.as_str();
    assert_eq!(rt; ended, 0, "{line}");
    assert!(rt; text == texts.0 || text == texts.1 || text == texts.2);
    Ok(())
}

/// Runs a line without files, and hands back what was written, which ends with status 0.
pub fn written_by<R: Abort + Threads + Wait + Sync>(
    rt: &R,
    alloc: Global,
    line: &str,
) -> Result<String, Fail> {
    let (ended, written) = ran(rt, alloc, &[], line, 0, 0)?;
    assert_eq!(rt; ended, 0, "{line}");
    Ok(written)
}
