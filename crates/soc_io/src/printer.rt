//! A text in several writes.

ghost use Rattle.std.specs.Prelude.{◌≡◌, false, ◌+◌, ◌≤◌, [], ◌++◌, length, IsTrue, if◌then◌else◌};
ghost use Rattle.soc_io.specs.Printing.{HasPrinted, PrintsMore};

use crate::sink::{Sink, SinkFault};
use soc_base::Line;

/// Prints a text to a sink in several writes, and writes nothing more once one of them failed.
#[derive(Drop)]
pub struct Printer<'s, S: Sink> {
    sink: &'s mut S,
    failed: bool,
}

impl<'s, S: Sink> Printer<'s, S> {
    /// Begins a text.
    #[tactic(auto, using(crate::proofs::Writing::printed_nothing))]
    pub fn new(sink: &'s mut S) -> Printer<'s, S>
        ensures printed { HasPrinted S.written S.faults sink.old result [] }
        ensures unfailed { result.failed ≡ false }
        ensures untouched { result.sink.now ≡ sink.old }
        ensures same { result.sink.ghost_name ≡ sink.entry.ghost_name }
    {
        Printer {
            sink,
            failed: false,
        }
    }

    /// Prints more of the text, unless a write failed before.
    #[tactic(auto, using(crate::proofs::Writing::printed_then, crate::proofs::Writing::printed_stopped))]
    pub fn put(&mut self, bytes: &[u8])
        ensures printed { PrintsMore S.written S.faults self.old self.new bytes.now }
        ensures stopped { IsTrue self.old.failed → self.new.sink.now ≡ self.old.sink.now }
        ensures stays_failed { IsTrue self.old.failed → IsTrue self.new.failed }
        ensures same { self.new.sink.ghost_name ≡ self.old.sink.ghost_name }
    {
        if self.failed {
            return;
        }
        self.failed = self.sink.write(bytes).is_err();
    }

    /// Prints a line around a name: in one write where it has at most 512 bytes, and else in three.
    pub fn put_named(&mut self, front: &str, name: &str, back: &str)
        ensures printed { PrintsMore S.written S.faults self.old self.new (front.now ++ name.now ++ back.now) }
        ensures same { self.new.sink.ghost_name ≡ self.old.sink.ghost_name }
    {
        if front
            .len()
            .saturating_add(name.len())
            .saturating_add(back.len())
            <= 512
        {
            self.put(named_line(front, name, back).as_str().as_bytes());
        } else {
            self.put_three(front, name, back);
        }
    }

    // Prints three pieces in as many writes.
    fn put_three(&mut self, front: &str, name: &str, back: &str)
        ensures printed { PrintsMore S.written S.faults self.old self.new (front.now ++ name.now ++ back.now) }
        ensures same { self.new.sink.ghost_name ≡ self.old.sink.ghost_name }
    {
        self.put(front.as_bytes());
        self.put(name.as_bytes());
        self.put(back.as_bytes());
    }

    /// Ends the text, and answers whether all of it was written.
    pub fn finish(self) -> Result<(), SinkFault>
        ensures answer { result ≡ (if self.entry.failed then Err SinkFault.Failed else Ok (tt {0})) }
        ensures kept { self.exit.0.now ≡ self.entry.sink.now }
    {
        if self.failed {
            Err(SinkFault::Failed)
        } else {
            Ok(())
        }
    }

    /// Answers whether a write failed.
    pub fn has_failed(&self) -> bool
        ensures { result ≡ self.now.failed }
    {
        self.failed
    }
}

// A line of three pieces, which fit.
fn named_line(front: &str, name: &str, back: &str) -> Line
    requires { length front.now + length name.now + length back.now ≤ 512 }
    ensures { result.bytes ≡ front.now ++ name.now ++ back.now }
{
    let mut line = Line::new();
    line.push_str(front);
    line.push_str(name);
    line.push_str(back);
    line
}

#[cfg(test)]
mod tests;
