//! The top call.

ghost use Rattle.std.specs.Prelude.{◌≡◌, ◌⊎◌, None};
ghost use Rattle.command_words.specs.Request.{asked_of, IsRunInForm};
ghost use Rattle.soc_top.specs.declared.fault.TopFault.TheVariants.{NoMemory as Unheld};
ghost use Rattle.soc_top.specs.Exchange.{exchanged, Says, SaysText};
ghost use Rattle.soc_top.specs.Faults.{fault_line, usage_line};
ghost use Rattle.soc_top.specs.Alone.{AnswersAlone};
ghost use Rattle.soc_top.specs.Run.{AnswersRun, RunAnswers};
ghost use Rattle.soc_top.specs.Check.{AnswersCheck};
ghost use Rattle.soc_top.specs.Generate.{AnswersGenerate};

use crate::alone::alone_call;
use crate::check::check_call;
use crate::fault::{TopFault, write_fault};
use crate::generate::generate_call;
use crate::run::{live_call, serial_call};
use command_words::{Request, RunWords, WordsFault, read_words};
use soc_base::Words;
use soc_io::{Files, Printer, Sink};
use std::alloc::Global;
use std::sync::Wait;
use std::thread::Threads;
use tile_workers::Gate;

// Writes one line.
fn say<S: Sink>(sink: &mut S, line: &str)
    ensures { SaysText S.written S.faults sink.old sink.new line.now }
{
    let mut printer = Printer::new(sink);
    printer.put(line.as_bytes());
    let _ = printer.finish();
}

// Does a run by its number of workers: with none on this thread alone.
fn run_call<R: Threads + Wait + Sync, F: Files, S: Sink, G: Gate + Sync>(
    rt: &R,
    alloc: Global,
    request: &RunWords,
    files: &mut F,
    sink: &mut S,
    gate: &G,
) -> u8
    requires { IsRunInForm request.now }
    ensures { RunAnswers (exchanged F.holds F.faults S.written S.faults files.old files.new sink.old sink.new)
        request.now result }
{
    if request.workers == 0 {
        serial_call(alloc, request, files, sink)
    } else {
        live_call(rt, alloc, request, files, sink, gate)
    }
}

/// Does what the words of a command line ask for, over files and a sink, and answers the status that
/// the program ends with, if it returns: 0 where it is done, 1 where the words aren't those of a command,
/// 7 at want of memory, and else as the command's own call says (`serial_call`, `live_call`, `alone_call`,
/// `check_call`, `generate_call`). At 1 the line `compsoc: usage` was written, at 7 the line `compsoc: memory`. `rt` is what
/// threads are started with, and `gate` is what they come to between their steps.
pub fn compsoc<R: Threads + Wait + Sync, F: Files, S: Sink, G: Gate + Sync>(
    rt: &R,
    alloc: Global,
    words: &Words,
    files: &mut F,
    sink: &mut S,
    gate: &G,
) -> u8
    ensures usage { result ≡ 1 → asked_of words.now ≡ None }
    ensures nothing { asked_of words.now ≡ None → (result ≡ 1) ⊎ (result ≡ 7) }
    ensures usage_line { result ≡ 1
        → Says (exchanged F.holds F.faults S.written S.faults files.old files.new sink.old sink.new) usage_line }
    ensures memory_line { result ≡ 7
        → Says (exchanged F.holds F.faults S.written S.faults files.old files.new sink.old sink.new)
        (fault_line Unheld) }
    ensures run { AnswersRun (exchanged F.holds F.faults S.written S.faults files.old files.new sink.old sink.new)
        words.now result }
    ensures alone { AnswersAlone (exchanged F.holds F.faults S.written S.faults files.old files.new sink.old sink.new)
        words.now result }
    ensures check { AnswersCheck (exchanged F.holds F.faults S.written S.faults files.old files.new sink.old sink.new)
        words.now result }
    ensures generate { AnswersGenerate
        (exchanged F.holds F.faults S.written S.faults files.old files.new sink.old sink.new) words.now result }
{
    match read_words(alloc, words) {
        Ok(Request::Run(request)) => run_call(rt, alloc, &request, files, sink, gate),
        Ok(Request::Alone(request)) => alone_call(alloc, &request, files, sink),
        Ok(Request::Check(request)) => check_call(alloc, &request, files, sink),
        Ok(Request::Generate(number)) => generate_call(alloc, number, sink),
        Err(WordsFault::Usage) => {
            say(sink, "compsoc: usage\n");
            1
        }
        Err(WordsFault::NoMemory) => {
            write_fault(&TopFault::NoMemory, sink);
            7
        }
    }
}
