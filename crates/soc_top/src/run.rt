//! The command `run`.

ghost use Rattle.std.specs.Prelude.{◌≡◌, ◌<◌, ◌≤◌};
ghost use Rattle.vep_manager.specs.Setup.{IsSound};
ghost use Rattle.vep_manager.specs.Legal.{IsLegal, IsRoundRobin};
ghost use Rattle.serial_run.specs.Run.{EndsInStep};
ghost use Rattle.report_text.specs.Report.{IsReport};
ghost use Rattle.report_text.specs.inner.Room.{most_rows};
ghost use Rattle.command_words.specs.Request.{IsRunInForm};
ghost use Rattle.soc_top.specs.Exchange.{exchanged};
ghost use Rattle.soc_top.specs.Run.{run_order, IsHistoryBy, IsReportOf, RunTexts, RunAnswersBy, RunAnswers};
ghost use Rattle.soc_top.specs.Answers.{Concludes, Ends};

use crate::ending::{Ending, code, refuse};
use crate::fault::TopFault;
use crate::setup::read_setup;
use command_words::RunWords;
use live_run::live;
use report_text::Reporter;
use serial_run::{RunEnd, serial_all};
use soc_io::{Files, Sink};
use std::alloc::Global;
use std::sync::Wait;
use std::thread::Threads;
use tile_workers::Gate;
use vep_manager::Setup;

// Writes the report of a run.
fn write<S: Sink>(
    mut reporter: Reporter,
    setup: &Setup,
    end: &RunEnd,
    state: bool,
    sink: &mut S,
) -> Ending
    requires sound { IsSound setup.now }
    requires room { most_rows setup.now.world ≤ reporter }
    requires legal { IsLegal setup.now end.now.history }
    requires in_step { EndsInStep setup.now end.now }
    ensures counted { S.faults sink.old ≤ S.faults sink.new }
    ensures concludes { Concludes (IsReport setup.now end.now.history state) (S.written sink.old) (S.faults sink.old)
        (S.written sink.new) (S.faults sink.new) result }
{
    match reporter.write(setup, end, state, sink) {
        Ok(()) => Ending::Done,
        Err(_) => Ending::Unwritten,
    }
}

// Runs a setup on this thread alone, and writes its report, or the line of a fault at want of memory.
#[tactic(auto, using(crate::proofs::Concluding::reported))]
fn serial_report<S: Sink>(alloc: Global, setup: &Setup, state: bool, sink: &mut S) -> Ending
    requires sound { IsSound setup.now }
    ensures counted { S.faults sink.old ≤ S.faults sink.new }
    ensures concludes { Concludes (IsReportOf IsRoundRobin setup.now state) (S.written sink.old) (S.faults sink.old)
        (S.written sink.new) (S.faults sink.new) result }
{
    let Ok(reporter) = Reporter::new(alloc, setup) else {
        return refuse(TopFault::NoMemory, sink);
    };
    let Ok(end) = serial_all(alloc, setup) else {
        return refuse(TopFault::NoMemory, sink);
    };
    write(reporter, setup, &end, state, sink)
}

// Runs a setup with a thread for each session and so many for the tiles, and writes its report, or the line of
// a fault at want of memory.
#[tactic(auto, using(crate::proofs::Concluding::reported, crate::proofs::Concluding::by_threads))]
fn live_report<R: Threads + Wait + Sync, S: Sink, G: Gate + Sync>(
    rt: &R,
    alloc: Global,
    setup: &Setup,
    request: &RunWords,
    sink: &mut S,
    gate: &G,
) -> Ending
    requires sound { IsSound setup.now }
    requires threads { 0 < request.now.workers }
    ensures counted { S.faults sink.old ≤ S.faults sink.new }
    ensures concludes { Concludes (IsReportOf (IsHistoryBy request.now.workers) setup.now request.now.state)
        (S.written sink.old) (S.faults sink.old) (S.written sink.new) (S.faults sink.new) result }
{
    let Ok(reporter) = Reporter::new(alloc, setup) else {
        return refuse(TopFault::NoMemory, sink);
    };
    let Ok(end) = live(rt, alloc, setup, request.workers, gate) else {
        return refuse(TopFault::NoMemory, sink);
    };
    write(reporter, setup, &end, request.state, sink)
}

// How a request ends on this thread alone: its files are read and judged, its setup runs, its report is written.
fn serial_end<F: Files, S: Sink>(
    alloc: Global,
    request: &RunWords,
    files: &mut F,
    sink: &mut S,
) -> Ending
    requires { IsRunInForm request.now }
    ensures { Ends (exchanged F.holds F.faults S.written S.faults files.old files.new sink.old sink.new)
        (run_order request.now) (RunTexts IsRoundRobin request.now) result }
{
    match read_setup(alloc, request, files) {
        Ok(setup) => serial_report(alloc, &setup, request.state, sink),
        Err(fault) => refuse(fault, sink),
    }
}

// The same with threads for the sessions and the tiles.
fn live_end<R: Threads + Wait + Sync, F: Files, S: Sink, G: Gate + Sync>(
    rt: &R,
    alloc: Global,
    request: &RunWords,
    files: &mut F,
    sink: &mut S,
    gate: &G,
) -> Ending
    requires form { IsRunInForm request.now }
    requires threads { 0 < request.now.workers }
    ensures { Ends (exchanged F.holds F.faults S.written S.faults files.old files.new sink.old sink.new)
        (run_order request.now) (RunTexts (IsHistoryBy request.now.workers) request.now) result }
{
    match read_setup(alloc, request, files) {
        Ok(setup) => live_report(rt, alloc, &setup, request, sink, gate),
        Err(fault) => refuse(fault, sink),
    }
}

/// Does a `run` on this thread alone: reads and judges the platform, the scripts and the bundle files that they
/// name, follows the scripts' commands in rounds, and writes the report. Answers the status: 0 where the report
/// was written, 2 where the platform breaks a rule, 3 where a script is too long or has a fault, 4 where a file
/// is absent, 5 where one could not be read, 6 where a write of the report failed, 7 at want of memory. At 2 to 5
/// and 7 the line of the fault was written.
#[tactic(auto, using(crate::proofs::Endings::answers_of))]
pub fn serial_call<F: Files, S: Sink>(
    alloc: Global,
    request: &RunWords,
    files: &mut F,
    sink: &mut S,
) -> u8
    requires { IsRunInForm request.now }
    ensures { RunAnswersBy (IsHistoryBy 0)
        (exchanged F.holds F.faults S.written S.faults files.old files.new sink.old sink.new) request.now result }
{
    code(&serial_end(alloc, request, files, sink))
}

/// Does a `run` with a thread for each session, which commits its script's commands in whatever order the
/// threads come to the manager, and beside them as many threads as the request has workers, which take the tiles
/// on; all come to the gate after each step. Answers as `serial_call` does, if it returns.
#[tactic(auto, using(crate::proofs::Endings::answers_of))]
pub fn live_call<R: Threads + Wait + Sync, F: Files, S: Sink, G: Gate + Sync>(
    rt: &R,
    alloc: Global,
    request: &RunWords,
    files: &mut F,
    sink: &mut S,
    gate: &G,
) -> u8
    requires form { IsRunInForm request.now }
    requires threads { 0 < request.now.workers }
    ensures { RunAnswers (exchanged F.holds F.faults S.written S.faults files.old files.new sink.old sink.new)
        request.now result }
{
    code(&live_end(rt, alloc, request, files, sink, gate))
}
