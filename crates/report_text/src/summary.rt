//! The summary of a run.

ghost use Rattle.std.specs.Prelude.{◌≡◌, ◌+◌, ◌≤◌, ◌++◌, ℕ, List, codes, count_by, decimal, length, sum_by, All};
ghost use Rattle.std.specs.Str.{bytes_eq};
ghost use Rattle.arrayvec.specs.ArrayString.{array_string_len};
ghost use Rattle.vep_manager.specs.Setup.{IsSound};
ghost use Rattle.vep_manager.specs.History.{grants_of};
ghost use Rattle.vep_manager.specs.Legal.{IsLegal};
ghost use Rattle.serial_run.specs.Run.{EndsInStep};
ghost use Rattle.report_text.specs.Rows.{line_end};
ghost use Rattle.report_text.specs.Summary.{commands_line, number_line, replies_line, replies_text, reply_word, IsSummary};
ghost use Rattle.report_text.specs.inner.Logs.{HoldsAlone};
ghost use Rattle.report_text.specs.inner.Printing.{PrintsSome};
ghost use Rattle.report_text.specs.inner.Totals.{parts_text, rows_text, total_text, totals_text};
ghost use Rattle.soc_io.specs.Printing.{PrintsMore, WritesText};

use crate::counts::{Counted, apps_count};
use crate::reporter::put_end;
use itoa::Buffer;
use serial_run::RunEnd;
use soc_base::{Line, push_number};
use soc_io::{Printer, Sink, SinkFault};
use tile_core::Station;
use vep_manager::{Entry, Reply, Setup};

// The word under which a reply is counted.
fn reply_word(reply: Reply) -> &'static str
    ensures { result.now ≡ reply_word reply }
{
    match reply {
        Reply::Malformed(_) => "malformed",
        Reply::Past(_) => "past",
        Reply::Taken {
            resource: _,
            owner: _,
            free_from: _,
        } => "taken",
        Reply::Granted { label: _, start: _ } => "granted",
        Reply::NoLoad => "noload",
        Reply::Already(_) => "already",
        Reply::Stopped { label: _, end: _ } => "stopped",
        Reply::Horizon(_) => "horizon",
    }
}

// How many replies of a history are counted under a word.
fn count_replies(history: &[Entry], word: &str) -> usize
    ensures { result ≡ count_by (λ entry. bytes_eq (reply_word entry.reply) word.now) history.now }
{
    history
        .iter()
        .filter(|entry| reply_word(entry.reply) == word)
        .count()
}

// Appends a word and how many replies of a history are counted under it, at most 30 bytes.
fn push_replies(line: &mut Line, history: &[Entry], word: &str)
    requires room { array_string_len line.old + 30 ≤ 512 }
    requires short { length word.now ≤ 9 }
    ensures text { line.new.bytes ≡ line.old.bytes ++ replies_text history.now word.now }
    ensures len { array_string_len line.new ≤ array_string_len line.old + 30 }
{
    line.push_str(word);
    line.push_str(" ");
    push_number(line, count_replies(history, word) as u64);
}

// How many commands got each reply.
#[tactic(auto, unfolding(crate::specs::Summary::replies_line))]
fn replies_line(history: &[Entry]) -> Line
    ensures { result.bytes ≡ replies_line history.now }
{
    let mut line = Line::new();
    push_replies(&mut line, history, "granted");
    line.push_str(" ");
    push_replies(&mut line, history, "malformed");
    line.push_str(" ");
    push_replies(&mut line, history, "past");
    line.push_str(" ");
    push_replies(&mut line, history, "taken");
    line.push_str(" ");
    push_replies(&mut line, history, "stopped");
    line.push_str(" ");
    push_replies(&mut line, history, "noload");
    line.push_str(" ");
    push_replies(&mut line, history, "already");
    line.push_str(" ");
    push_replies(&mut line, history, "horizon");
    line.push_str("\n");
    line
}

// A line of a word of at most 20 bytes and a number.
fn counted_line(word: &str, number: u64) -> Line
    requires { length word.now ≤ 20 }
    ensures { result.bytes ≡ word.now ++ decimal number ++ line_end }
{
    let mut line = Line::new();
    line.push_str(word);
    push_number(&mut line, number);
    line.push_str("\n");
    line
}

// Appends a word of at most 9 bytes and a number, which may have more than 64 bits: at most 50 bytes.
fn push_total(line: &mut Line, word: &str, total: u128)
    requires room { array_string_len line.old + 50 ≤ 512 }
    requires short { length word.now ≤ 9 }
    ensures text { line.new.bytes ≡ line.old.bytes ++ total_text word.now total }
    ensures len { array_string_len line.new ≤ array_string_len line.old + 50 }
{
    let mut buffer = Buffer::new();
    line.push_str(word);
    line.push_str(" ");
    line.push_str(buffer.format(total));
}

/// Makes the line of how many rows were kept and cut.
#[tactic(auto, unfolding(crate::specs::inner::Totals::rows_text))]
pub fn rows_line(rows: u128, cut: u128) -> Line
    ensures { result.bytes ≡ rows_text rows cut }
{
    let mut line = Line::new();
    push_total(&mut line, "rows", rows);
    line.push_str(" ");
    push_total(&mut line, "cut", cut);
    line.push_str("\n");
    line
}

/// Makes the line of how many parts halted, faulted and are live.
#[tactic(auto, unfolding(crate::specs::inner::Totals::parts_text))]
pub fn parts_line(halts: u128, faults: u128, lives: u128) -> Line
    ensures { result.bytes ≡ parts_text halts faults lives }
{
    let mut line = Line::new();
    line.push_str("parts ");
    push_total(&mut line, "halt", halts);
    line.push_str(" ");
    push_total(&mut line, "fault", faults);
    line.push_str(" ");
    push_total(&mut line, "live", lives);
    line.push_str("\n");
    line
}

// Prints what the commands of a history were answered.
fn put_replies<S: Sink>(printer: &mut Printer<'_, S>, number: u32, history: &[Entry])
    ensures printed { PrintsMore S.written S.faults printer.old printer.new (number_line number ++ commands_line history.now ++ replies_line history.now) }
    ensures same { printer.new.sink.ghost_name ≡ printer.old.sink.ghost_name }
{
    let first = counted_line("generate ", u64::from(number));
    printer.put(first.as_str().as_bytes());
    let commands = counted_line("commands ", history.len() as u64);
    printer.put(commands.as_str().as_bytes());
    printer.put(replies_line(history).as_str().as_bytes());
}

// Prints what is counted over the parts of all applications.
fn put_totals<S: Sink>(
    printer: &mut Printer<'_, S>,
    setup: &Setup,
    history: &[Entry],
    stations: &[Station],
)
    requires { All (HoldsAlone setup.now stations.now) (grants_of setup.now history.now) }
    ensures printed { PrintsMore S.written S.faults printer.old printer.new (totals_text setup.now stations.now (grants_of setup.now history.now)) }
    ensures same { printer.new.sink.ghost_name ≡ printer.old.sink.ghost_name }
{
    let rows = apps_count(Counted::Rows, setup, history, stations);
    let cut = apps_count(Counted::Cut, setup, history, stations);
    printer.put(rows_line(rows, cut).as_str().as_bytes());
    let halts = apps_count(Counted::Halts, setup, history, stations);
    let faults = apps_count(Counted::Faults, setup, history, stations);
    let lives = apps_count(Counted::Lives, setup, history, stations);
    printer.put(parts_line(halts, faults, lives).as_str().as_bytes());
}

// Prints a summary.
fn put_summary<S: Sink>(printer: &mut Printer<'_, S>, number: u32, setup: &Setup, end: &RunEnd)
    requires { All (HoldsAlone setup.now end.now.stations) (grants_of setup.now end.now.history) }
    ensures printed { PrintsSome S.written S.faults printer.old printer.new (IsSummary number setup.now end.now.history) }
    ensures same { printer.new.sink.ghost_name ≡ printer.old.sink.ghost_name }
{
    let history = end.history.as_slice();
    put_replies(printer, number, history);
    put_totals(printer, setup, history, end.stations.as_slice());
    put_end(printer);
}

/// Writes the summary of a run that was made of a number: how many commands there were and what they were
/// answered, how many rows the applications kept and how many were cut, and how their parts ended. The
/// history is legal, and the stations hold the tiles as they are at the end of the run. Takes no memory.
/// Fails only where the sink's count of faults rose, and then a front of the text was written.
pub fn write_summary<S: Sink>(
    number: u32,
    setup: &Setup,
    end: &RunEnd,
    sink: &mut S,
) -> Result<(), SinkFault>
    requires sound { IsSound setup.now }
    requires legal { IsLegal setup.now end.now.history }
    requires in_step { EndsInStep setup.now end.now }
    ensures counted { S.faults sink.old ≤ S.faults sink.new }
    ensures written { (text : List ℕ) × IsSummary number setup.now end.now.history text × WritesText S.written S.faults sink.old sink.new text result }
{
    let mut printer = Printer::new(sink);
    put_summary(&mut printer, number, setup, end);
    printer.finish()
}
