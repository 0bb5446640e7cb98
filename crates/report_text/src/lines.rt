//! Lines of a trace, each at most 512 bytes.

ghost use Rattle.std.specs.Prelude.{◌≡◌, ◌+◌, ◌*◌, ◌≤◌, ◌++◌, length, decimal};
ghost use Rattle.report_text.specs.Rows.{cause_text, end_text, row_text, part_text};
ghost use Rattle.report_text.specs.Alone.{from_to_text};
ghost use Rattle.arrayvec.specs.ArrayString.{array_string_len};

use alone_model::PartTrace;
use itoa::Buffer;
use soc_base::{Cause, Line, push_hex, push_number};
use trace_log::{PartEnd, TraceRow};

// The word of a cause.
fn cause_word(cause: Cause) -> &'static str
    ensures text { result.now ≡ cause_text cause }
    ensures short { length result.now ≤ 7 }
{
    match cause {
        Cause::Illegal => "illegal",
        Cause::Fetch => "fetch",
        Cause::Target => "target",
        Cause::Align => "align",
        Cause::Access => "access",
        Cause::Break => "break",
    }
}

/// Appends the cycle at which a slot of so many cycles begins, which may have more than 64 bits.
pub fn push_cycle(line: &mut Line, slot_cycles: u8, slot: u64)
    requires { array_string_len line.old + 40 ≤ 512 }
    ensures text { line.new.bytes ≡ line.old.bytes ++ decimal (slot * slot_cycles) }
    ensures len { array_string_len line.new ≤ array_string_len line.old + 40 }
{
    let mut buffer = Buffer::new();
    line.push_str(buffer.format(u128::from(slot) * u128::from(slot_cycles)));
}

/// Makes the end of an application's first line: from which slot to which it was followed, in cycles.
#[tactic(auto, unfolding(crate::specs::Alone::from_to_text))]
pub fn span_line(slot_cycles: u8, start: u64, end: u64) -> Line
    ensures text { result.bytes ≡ from_to_text (start * slot_cycles) (end * slot_cycles) }
    ensures len { array_string_len result ≤ 100 }
{
    let mut line = Line::new();
    line.push_str(" from ");
    push_cycle(&mut line, slot_cycles, start);
    line.push_str(" to ");
    push_cycle(&mut line, slot_cycles, end);
    line.push_str("\n");
    line
}

/// Makes the line of a row.
#[tactic(auto, unfolding(crate::specs::Rows::row_text))]
pub fn row_line(row: &TraceRow) -> Line
    ensures { result.bytes ≡ row_text row.now }
{
    let mut line = Line::new();
    push_number(&mut line, row.cycle);
    line.push_str(" ");
    push_number(&mut line, u64::from(row.tile));
    line.push_str(" ");
    line.push_str(row.kind.word());
    line.push_str(" ");
    push_hex(&mut line, row.value);
    line.push_str("\n");
    line
}

// Appends how a part stands.
fn push_end(line: &mut Line, end: PartEnd)
    requires { array_string_len line.old + 64 ≤ 512 }
    ensures text { line.new.bytes ≡ line.old.bytes ++ end_text end }
    ensures len { array_string_len line.new ≤ array_string_len line.old + 64 }
{
    match end {
        PartEnd::Live => line.push_str("live"),
        PartEnd::Halt { code, cycle } => {
            line.push_str("halt ");
            push_hex(line, code);
            line.push_str(" at ");
            push_number(line, cycle);
        }
        PartEnd::Fault { cause, cycle } => {
            line.push_str("fault ");
            line.push_str(cause_word(cause));
            line.push_str(" at ");
            push_number(line, cycle);
        }
    }
}

/// Makes the line of a part.
#[tactic(auto, unfolding(crate::specs::Rows::part_text))]
pub fn part_line(part: &PartTrace) -> Line
    ensures { result.bytes ≡ part_text part.now }
{
    let mut line = Line::new();
    line.push_str("part ");
    push_number(&mut line, u64::from(part.tile));
    line.push_str(" ");
    push_end(&mut line, part.end);
    line.push_str(" cut ");
    push_number(&mut line, part.cut);
    line.push_str("\n");
    line
}
