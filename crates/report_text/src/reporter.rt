//! The report of a run.

ghost use Rattle.std.specs.Prelude.{◌≡◌, ◌≤◌, ◌++◌, ℕ, List, All, IfOk, false, vec_capacity};
ghost use Rattle.vep_manager.specs.Setup.{IsSound};
ghost use Rattle.vep_manager.specs.History.{grants_of};
ghost use Rattle.vep_manager.specs.Legal.{IsLegal};
ghost use Rattle.serial_run.specs.Run.{EndsInStep, tiles_of};
ghost use Rattle.report_text.specs.Alone.{end_line};
ghost use Rattle.report_text.specs.Report.{IsReport, form_line, budget_line, state_if};
ghost use Rattle.report_text.specs.inner.Made.{AreMade};
ghost use Rattle.report_text.specs.inner.Room.{most_rows};
ghost use Rattle.report_text.specs.inner.Printing.{PrintsSome};
ghost use Rattle.report_text.specs.inner.Logs.{HoldsAlone};
ghost use Rattle.soc_io.specs.Printing.{PrintsMore, WritesText};

use crate::applications::put_apps;
use crate::entries::put_history;
use crate::lines::push_cycle;
use crate::room::most_room;
use crate::state::{put_state, put_sum};
use platform_model::Platform;
use serial_run::RunEnd;
use soc_base::{Line, NoMemory};
use soc_io::{Printer, Sink, SinkFault};
use std::alloc::Global;
use std::marker::Model;
use tile_core::Station;
use trace_log::TraceRow;
use vep_manager::Setup;

/// Writes reports, with room for the rows of one application, which contracts see as the number of
/// rows that there is room for.
#[derive(Drop)]
pub struct Reporter {
    rows: Vec<TraceRow>,
}

impl Model for Reporter {
    ghost use Rattle.std.specs.Prelude.{ℕ, vec_capacity};

    ghost Value = { ℕ };

    ghost view = { λ r. vec_capacity r.rows };
}

// The line of the budget.
fn budget_line(setup: &Setup) -> Line
    ensures { result.bytes ≡ budget_line setup.now }
{
    let mut line = Line::new();
    line.push_str("budget ");
    push_cycle(&mut line, setup.world.platform.slot_cycles, setup.budget);
    line.push_str("\n");
    line
}

// Prints the first two lines of a report.
fn put_head<S: Sink>(printer: &mut Printer<'_, S>, setup: &Setup)
    ensures printed { PrintsMore S.written S.faults printer.old printer.new (form_line ++ budget_line setup.now) }
    ensures same { printer.new.sink.ghost_name ≡ printer.old.sink.ghost_name }
{
    printer.put(b"compsoc report 1\n");
    printer.put(budget_line(setup).as_str().as_bytes());
}

/// Prints the last line.
pub(crate) fn put_end<S: Sink>(printer: &mut Printer<'_, S>)
    ensures printed { PrintsMore S.written S.faults printer.old printer.new end_line }
    ensures same { printer.new.sink.ghost_name ≡ printer.old.sink.ghost_name }
{
    printer.put(b"end\n");
}

// Prints the state of the tiles, where it is asked for.
#[tactic(auto, using(crate::proofs::Prints::prints_none))]
fn put_state_if<S: Sink>(
    printer: &mut Printer<'_, S>,
    state: bool,
    platform: &Platform,
    stations: &[Station],
)
    requires { AreMade platform.now stations.now }
    ensures printed { PrintsMore S.written S.faults printer.old printer.new (state_if state platform.now (tiles_of stations.now)) }
    ensures same { printer.new.sink.ghost_name ≡ printer.old.sink.ghost_name }
{
    if state {
        put_state(printer, platform, stations);
    }
}

// Prints a report, with room for the rows of each application.
fn put_all<S: Sink>(
    printer: &mut Printer<'_, S>,
    setup: &Setup,
    end: &RunEnd,
    state: bool,
    rows: &mut Vec<TraceRow>,
)
    requires alone { All (HoldsAlone setup.now end.now.stations) (grants_of setup.now end.now.history) }
    requires made { AreMade setup.now.world.platform end.now.stations }
    requires in_step { EndsInStep setup.now end.now }
    requires room { most_rows setup.now.world ≤ vec_capacity rows.old }
    ensures printed { PrintsSome S.written S.faults printer.old printer.new (IsReport setup.now end.now.history state) }
    ensures room { vec_capacity rows.new ≡ vec_capacity rows.old }
    ensures same { printer.new.sink.ghost_name ≡ printer.old.sink.ghost_name }
{
    let history = end.history.as_slice();
    put_head(printer, setup);
    put_history(printer, setup, history);
    let stations = end.stations.as_slice();
    put_apps(printer, setup, history, stations, rows);
    put_sum(printer, &setup.world.platform, stations);
    put_state_if(printer, state, &setup.world.platform, stations);
    put_end(printer);
}

impl Reporter {
    /// Makes a reporter with room for the longest trace that an application of the setup can have.
    pub fn new(alloc: Global, setup: &Setup) -> Result<Reporter, NoMemory>
        requires { IsSound setup.now }
        ensures { IfOk result (λ reporter. most_rows setup.now.world ≤ reporter) }
    {
        let rows = Vec::with_capacity(alloc, most_room(&setup.world))?;
        Ok(Reporter { rows })
    }

    /// Writes the report of a run: the history, each granted application's trace, the sum over the tiles
    /// and, where `state` is true, the state of each. The reporter was made for this setup, the history is
    /// legal, and the stations hold the tiles as they are at the end of the run. Fails only where the sink's
    /// count of faults rose, and then a front of the text was written. Takes no memory.
    pub fn write<S: Sink>(
        &mut self,
        setup: &Setup,
        end: &RunEnd,
        state: bool,
        sink: &mut S,
    ) -> Result<(), SinkFault>
        requires sound { IsSound setup.now }
        requires room { most_rows setup.now.world ≤ self.old }
        requires legal { IsLegal setup.now end.now.history }
        requires in_step { EndsInStep setup.now end.now }
        ensures counted { S.faults sink.old ≤ S.faults sink.new }
        ensures written { (text : List ℕ) × IsReport setup.now end.now.history state text × WritesText S.written S.faults sink.old sink.new text result }
        ensures room { self.new ≡ self.old }
    {
        let mut printer = Printer::new(sink);
        put_all(&mut printer, setup, end, state, &mut self.rows);
        printer.finish()
    }
}
