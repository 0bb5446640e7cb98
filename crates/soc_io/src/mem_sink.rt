//! A sink in memory.

ghost use Rattle.std.specs.Prelude.{◌≡◌, ◌≤◌, ◌+◌, ◌++◌, ◌↔◌, [], length, Some, IsTrue, IsOk, IfOk, vec_len, vec_capacity};
ghost use Rattle.soc_io.specs.Writing.{Writes};
ghost use Rattle.soc_io.specs.Tape.{new_tape, tape_takes, tape_after};

use crate::listed::is_listed;
use crate::sink::{Sink, SinkFault};
use soc_base::NoMemory;
use std::alloc::Global;
use std::marker::Model;

/// A sink in memory with room for a fixed number of bytes, and numbers of writes that fail: the first
/// write is number 1. A write beyond the room takes what fits, and fails.
#[derive(Debug, Drop)]
pub struct MemSink {
    bytes: Vec<u8>,
    space: usize,
    failing: Vec<u64>,
    writes: u64,
    count: u64,
}

impl Model for MemSink {
    ghost use Rattle.std.specs.Prelude.{◌≤◌, vec_len, vec_capacity};
    ghost use Rattle.soc_io.specs.Tape.{Tape};

    ghost Value = { Tape };

    ghost view = { λ m. record {
      given = m.bytes.items;
      room = m.space;
      fails = m.failing.items;
      calls = m.writes;
      faults = m.count;
    } };

    ghost invariant = { λ m. (m.space ≤ vec_capacity m.bytes) × (vec_len m.bytes ≤ m.space) };
}

// Appends what there is room for. Takes no memory.
fn append(held: &mut Vec<u8>, more: &[u8])
    requires { vec_len held.old + length more.now ≤ vec_capacity held.old }
    ensures items { held.new.items ≡ held.old.items ++ more.now }
    ensures len { vec_len held.new ≡ vec_len held.old + length more.now }
    ensures capacity { vec_capacity held.old ≤ vec_capacity held.new }
{
    held.extend_from_slice(more).unwrap();
}

impl MemSink {
    /// Makes an empty sink with room for `room` bytes. The writes whose numbers stand in `fails` will
    /// fail.
    pub fn new(alloc: Global, room: usize, fails: Vec<u64>) -> Result<MemSink, NoMemory>
        ensures { IfOk result (λ sink. sink ≡ new_tape room fails.items) }
    {
        let bytes = Vec::with_capacity(alloc, room)?;
        Ok(MemSink {
            bytes,
            space: room,
            failing: fails,
            writes: 0,
            count: 0,
        })
    }

    /// Answers the bytes that were written.
    pub fn written(&self) -> &[u8]
        ensures { result.now ≡ self.now.given }
    {
        self.bytes.as_slice()
    }
}

impl Sink for MemSink {
    ghost written = { λ m. Some m.given };

    ghost faults = { λ m. m.faults };

    fn write(&mut self, bytes: &[u8]) -> Result<(), SinkFault>
        ensures answer { Writes bytes.now (Some self.old.given) self.old.faults
            (Some self.new.given) self.new.faults result }
        ensures ok { IsOk result ↔ IsTrue (tape_takes bytes.now self.old) }
        ensures after { self.new ≡ tape_after bytes.now self.old }
        ensures counted { self.old.faults ≤ self.new.faults }
    {
        self.writes = self.writes.saturating_add(1);
        if is_listed(self.failing.as_slice(), self.writes) {
            self.count = self.count.saturating_add(1);
            return Err(SinkFault::Failed);
        }
        let left = self.space - self.bytes.len();
        if bytes.len() > left {
            append(&mut self.bytes, &bytes[..left]);
            self.count = self.count.saturating_add(1);
            return Err(SinkFault::Failed);
        }
        append(&mut self.bytes, bytes);
        Ok(())
    }
}

#[cfg(test)]
mod tests {
    use super::*;
    use std::test::Fail;

    #[test]
    fn takes_what_fits_but_at_listed_calls(rt: HostRuntime) -> Result<(), Fail> {
        let alloc = rt.alloc();
        let mut sink = MemSink::new(alloc, 5, vec![in alloc; 2]?)?;
        let cases: [(&[u8], bool, &[u8]); 5] = [
            (b"abc", true, b"abc"),
            (b"d", false, b"abc"),
            (b"defg", false, b"abcde"),
            (b"f", false, b"abcde"),
            (b"", true, b"abcde"),
        ];
        for (bytes, is_ok, held) in cases {
            assert_eq!(rt; sink.write(bytes).is_ok(), is_ok, "after {held:?}");
            assert_eq!(rt; sink.written(), held);
        }
        Ok(())
    }
}
