//! The host's standard output.

ghost use Rattle.std.specs.Prelude.{◌≡◌, ◌≤◌, None, is_ok, OnOk, if◌then◌else◌};
ghost use Rattle.std.specs.Io.KnownBytes.{Appends};
ghost use Rattle.soc_io.specs.Counts.{one_more};
ghost use Rattle.soc_io.specs.Writing.{Writes};

use crate::sink::{Sink, SinkFault};
use std::io;
use std::io::{Print, Write};

/// The host's standard output. Nothing is told of what was written; each failed write counts as a
/// fault. It keeps the runtime that it was made with.
#[derive(Drop)]
pub struct HostSink<'r, R> {
    rt: &'r R,
    count: u64,
}

impl<'r, R: Print> HostSink<'r, R> {
    /// Makes the sink of a runtime, with no fault counted. Takes no memory.
    pub fn new(rt: &'r R) -> HostSink<'r, R>
        ensures { result.count ≡ 0 }
    {
        HostSink { rt, count: 0 }
    }
}

// Writes all of the bytes behind what the output holds.
fn write_whole<W: Write>(output: &mut W, bytes: &[u8]) -> Result<(), SinkFault>
    ensures { OnOk result (Appends (W.contents output.old) (W.contents output.new) bytes.now) }
{
    match output.write_all(bytes) {
        Ok(()) => Ok(()),
        Err(_) => Err(SinkFault::Failed),
    }
}

impl<'r, R: Print> Sink for HostSink<'r, R> {
    ghost written = { λ _. None };

    ghost faults = { λ s. s.count };

    fn write(&mut self, bytes: &[u8]) -> Result<(), SinkFault>
        ensures answer { Writes bytes.now None self.old.count None self.new.count result }
        ensures faults { self.new.count ≡ (if is_ok result then self.old.count else one_more self.old.count) }
        ensures counted { self.old.count ≤ self.new.count }
    {
        let answer = write_whole(&mut io::writer(self.rt), bytes);
        if answer.is_err() {
            self.count = self.count.saturating_add(1);
        }
        answer
    }
}

#[cfg(test)]
mod tests {
    use super::*;
    use std::cell::Cell;
    use std::fmt::Display;
    use std::io::ErrorKind;
    use std::test::Fail;

    // An output that takes two bytes at a time, is interrupted once, and fails after five bytes. It keeps
    // the bytes that it took.
    #[derive(Drop)]
    struct Slow {
        taken: Cell<[u8; 8]>,
        count: Cell<usize>,
        calls: Cell<usize>,
    }

    impl Slow {
        fn keep(&self, byte: u8) {
            let mut taken = self.taken.get();
            if let Some(place) = taken.get_mut(self.count.get()) {
                *place = byte;
            }
            self.taken.set(taken);
            self.count.set(self.count.get().saturating_add(1));
        }
    }

    impl Print for Slow {
        fn print<D: Display + Drop>(&self, _value: D) -> io::Result<()> {
            Err(io::Error::from(ErrorKind::Unsupported))
        }

        fn println<D: Display + Drop>(&self, _value: D) -> io::Result<()> {
            Err(io::Error::from(ErrorKind::Unsupported))
        }

        fn write_all(&self, bytes: &[u8]) -> io::Result<()> {
            let mut rest = bytes;
            for _ in 0..bytes.len().saturating_add(1) {
                if rest.is_empty() {
                    return Ok(());
                }
                if let Ok(count) = self.write_some(rest) {
                    rest = &rest[count..];
                }
            }
            Err(io::Error::from(ErrorKind::BrokenPipe))
        }

        fn write_some(&self, bytes: &[u8]) -> io::Result<usize> {
            self.calls.set(self.calls.get().saturating_add(1));
            if self.calls.get() == 2 {
                return Err(io::Error::from(ErrorKind::Interrupted));
            }
            let left = 5usize.saturating_sub(self.count.get());
            if left == 0 {
                return Err(io::Error::from(ErrorKind::BrokenPipe));
            }
            let count = bytes.len().min(left).min(2);
            for byte in &bytes[..count] {
                self.keep(*byte);
            }
            Ok(count)
        }
    }

    #[test]
    fn writes_all_or_says_that_it_failed(rt: HostRuntime) -> Result<(), Fail> {
        let slow = Slow {
            taken: Cell::new([b'.'; 8]),
            count: Cell::new(0),
            calls: Cell::new(0),
        };
        let mut sink = HostSink::new(&slow);
        assert_eq!(rt; sink.write(b"abcd"), Ok(()));
        assert_eq!(rt; slow.taken.get(), *b"abcd....");
        assert_eq!(rt; sink.write(b"ef"), Err(SinkFault::Failed));
        assert_eq!(rt; slow.taken.get(), *b"abcde...");
        let mut output = HostSink::new(&rt);
        assert_eq!(rt; output.write(b"written by a test\n"), Ok(()));
        Ok(())
    }
}
