//! Tests of the printer.

ghost use Rattle.std.specs.Prelude.{◌≡◌};

use crate::mem_sink::MemSink;
use crate::printer::Printer;
use std::alloc::Global;
use std::test::Fail;

// Puts pieces, one after another; empty ones are left out.
fn put_all(printer: &mut Printer<'_, MemSink>, pieces: &[&str])
    ensures same { printer.new.sink.ghost_name ≡ printer.old.sink.ghost_name }
{
    for piece in pieces {
        if !piece.is_empty() {
            printer.put(piece.as_bytes());
        }
    }
}

// Prints pieces, and answers whether a write failed, and whether all was written.
fn print(sink: &mut MemSink, pieces: &[&str]) -> (bool, bool) {
    let mut printer = Printer::new(sink);
    put_all(&mut printer, pieces);
    let has_failed = printer.has_failed();
    (has_failed, printer.finish().is_ok())
}

// Prints a line around a name to a sink whose second write fails, and answers whether all of it was
// written, and how many bytes were.
fn put_line(alloc: Global, name: usize) -> Result<(bool, usize), Fail> {
    let name = String::from_utf8(Vec::from_elem(alloc, b'n', name)?)?;
    let mut sink = MemSink::new(alloc, 999, vec![in alloc; 2]?)?;
    let mut printer = Printer::new(&mut sink);
    printer.put_named("file ", name.as_str(), " is there\n");
    let is_whole = printer.finish().is_ok();
    Ok((is_whole, sink.written().len()))
}

#[test]
fn prints_a_line_of_512_bytes_in_one_write(rt: HostRuntime) -> Result<(), Fail> {
    for (name, want) in [(497, (true, 512)), (498, (false, 5))] {
        assert_eq!(rt; put_line(rt.alloc(), name)?, want);
    }
    Ok(())
}

#[test]
fn prints_whole_or_a_front(rt: HostRuntime) -> Result<(), Fail> {
    let alloc = rt.alloc();
    let mut sink = MemSink::new(alloc, 99, vec![in alloc; 5]?)?;
    // What is printed, whether a write fails, and what the sink holds then.
    let cases: [([&str; 5], bool, &str); 4] = [
        (["hello, ", "tile", "!", "", ""], false, "hello, tile!"),
        (
            ["hello, ", "core", "!", "", ""],
            true,
            "hello, tile!hello, ",
        ),
        (
            ["marks ", "a", ";", "b", ";"],
            false,
            "hello, tile!hello, marks a;b;",
        ),
        (
            ["on", "", "", "", ""],
            false,
            "hello, tile!hello, marks a;b;on",
        ),
    ];
    for (pieces, fails, held) in cases {
        assert_eq!(rt; print(&mut sink, &pieces), (fails, !fails), "at {held}");
        assert_eq!(rt; sink.written(), held.as_bytes());
    }
    Ok(())
}
