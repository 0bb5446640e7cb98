//! The command `alone`.

ghost use Rattle.std.specs.Prelude.{◌≡◌, ◌*◌, ◌≤◌};
ghost use Rattle.bundle_model.specs.WellFormed.{IsWellFormed};
ghost use Rattle.command_words.specs.Request.{IsAloneInForm};
ghost use Rattle.soc_top.specs.Exchange.{exchanged};
ghost use Rattle.soc_top.specs.Alone.{alone_order, first_slot, last_slot, IsAloneText, AloneTexts, AloneAnswers};
ghost use Rattle.soc_top.specs.Answers.{Ends};
ghost use Rattle.soc_top.specs.Answers.{Concludes};

use crate::ending::{Ending, code, refuse};
use crate::fault::TopFault;
use crate::inputs::{Inputs, load};
use alone_model::alone;
use command_words::AloneWords;
use platform_model::Platform;
use report_text::write_trace;
use soc_base::{LAST_CYCLE, slot_up};
use soc_io::{Files, Sink};
use std::alloc::Global;

// The slots from and to which an application is followed.
fn span(platform: &Platform, request: &AloneWords) -> (u64, u64)
    requires { IsAloneInForm request.now }
    ensures first { result.0 ≡ first_slot platform.now request.now }
    ensures last { result.1 ≡ last_slot platform.now request.now }
    ensures ordered { result.0 ≤ result.1 }
    ensures bounded { result.1 * platform.now.slot_cycles ≤ LAST_CYCLE }
{
    let start = slot_up(request.start, platform.slot_cycles);
    let end = start.max(slot_up(request.budget, platform.slot_cycles));
    (start, end)
}

// Follows the application, and writes the text of its trace, or the line of a fault at want of memory.
fn run<S: Sink>(alloc: Global, request: &AloneWords, inputs: &Inputs, sink: &mut S) -> Ending
    requires in_form { IsAloneInForm request.now }
    requires well_formed { IsWellFormed inputs.now.platform inputs.now.bundle }
    ensures counted { S.faults sink.old ≤ S.faults sink.new }
    ensures concludes { Concludes (IsAloneText request.now inputs.now.platform inputs.now.bundle) (S.written sink.old)
        (S.faults sink.old) (S.written sink.new) (S.faults sink.new) result }
{
    let (start, end) = span(&inputs.platform, request);
    let Ok(trace) = alone(alloc, &inputs.platform, &inputs.bundle, start, end) else {
        return refuse(TopFault::NoMemory, sink);
    };
    match write_trace(
        &inputs.platform,
        request.bundle.as_str(),
        &trace,
        start,
        end,
        sink,
    ) {
        Ok(()) => Ending::Done,
        Err(_) => Ending::Unwritten,
    }
}

// How a request ends: its files are read and judged, its application runs, its text is written.
fn end<F: Files, S: Sink>(
    alloc: Global,
    request: &AloneWords,
    files: &mut F,
    sink: &mut S,
) -> Ending
    requires { IsAloneInForm request.now }
    ensures { Ends (exchanged F.holds F.faults S.written S.faults files.old files.new sink.old sink.new)
        (alone_order request.now) (AloneTexts request.now) result }
{
    match load(alloc, request, files) {
        Ok(inputs) => run(alloc, request, &inputs, sink),
        Err(fault) => refuse(fault, sink),
    }
}

/// Does an `alone`: reads and judges the platform file and then the bundle file, follows the application
/// alone from its start to the budget, and writes the text of its trace. Answers the status: 0 where the
/// text was written, 2 and 3 where the platform or the bundle file breaks a rule, 4 where a file is
/// absent, 5 where one could not be read, 6 where a write of the text failed, 7 at want of memory. At
/// 2 to 5 and 7 the line of the fault was written.
#[tactic(auto, using(crate::proofs::Endings::answers_of))]
pub fn alone_call<F: Files, S: Sink>(
    alloc: Global,
    request: &AloneWords,
    files: &mut F,
    sink: &mut S,
) -> u8
    requires { IsAloneInForm request.now }
    ensures { AloneAnswers (exchanged F.holds F.faults S.written S.faults files.old files.new sink.old sink.new)
        request.now result }
{
    code(&end(alloc, request, files, sink))
}
