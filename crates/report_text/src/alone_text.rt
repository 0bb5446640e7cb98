//! The text of one application alone.

ghost use Rattle.std.specs.Prelude.{◌≡◌, ◌*◌, ◌≤◌};
ghost use Rattle.std.specs.List.{flat_map};
ghost use Rattle.report_text.specs.Rows.{row_text, part_text};
ghost use Rattle.report_text.specs.Alone.{alone_text};
ghost use Rattle.soc_io.specs.Printing.{PrintsMore, WritesText};

use crate::lines::{part_line, row_line, span_line};
use alone_model::{AppTrace, PartTrace};
use platform_model::Platform;
use soc_base::LAST_CYCLE;
use soc_io::{Printer, Sink, SinkFault};
use trace_log::TraceRow;

/// Prints a line for each row.
pub(crate) fn put_rows<S: Sink>(printer: &mut Printer<'_, S>, rows: &[TraceRow])
    ensures printed { PrintsMore S.written S.faults printer.old printer.new (flat_map row_text rows.now) }
    ensures same { printer.new.sink.ghost_name ≡ printer.old.sink.ghost_name }
{
    for row in rows {
        printer.put(row_line(row).as_str().as_bytes());
    }
}

// Prints a line for each part.
fn put_parts<S: Sink>(printer: &mut Printer<'_, S>, parts: &[PartTrace])
    ensures printed { PrintsMore S.written S.faults printer.old printer.new (flat_map part_text parts.now) }
    ensures same { printer.new.sink.ghost_name ≡ printer.old.sink.ghost_name }
{
    for part in parts {
        printer.put(part_line(part).as_str().as_bytes());
    }
}

/// Writes the text of an application's trace alone, from slot `start` to slot `end`: where it was
/// followed, its rows, its parts, and `end`. The start isn't after the end, and the end is at most cycle
/// 1,000,000,000,063. Fails only where the sink's count of faults rose, and then a front of the text
/// was written. Takes no memory.
#[tactic(auto, unfolding(crate::specs::Alone::alone_text), using(soc_io::proofs::Laws::writes_of_printed))]
pub fn write_trace<S: Sink>(
    platform: &Platform,
    name: &str,
    trace: &AppTrace,
    start: u64,
    end: u64,
    sink: &mut S,
) -> Result<(), SinkFault>
    requires ordered { start ≤ end }
    requires bounded { end * platform.now.slot_cycles ≤ LAST_CYCLE }
    ensures counted { S.faults sink.old ≤ S.faults sink.new }
    ensures written { WritesText S.written S.faults sink.old sink.new (alone_text platform.now.slot_cycles name.now trace.now start end) result }
{
    let span = span_line(platform.slot_cycles, start, end);
    let mut printer = Printer::new(sink);
    printer.put_named("alone ", name, span.as_str());
    put_rows(&mut printer, trace.rows.as_slice());
    put_parts(&mut printer, trace.parts.as_slice());
    printer.put(b"end\n");
    printer.finish()
}
