//! The applications of a run.

ghost use Rattle.std.specs.Prelude.{◌≡◌, ◌+◌, ◌≤◌, ◌++◌, List, ℕ, length, codes, Some, All, IfSome, vec_len, vec_capacity};
ghost use Rattle.std.specs.List.{flat_map};
ghost use Rattle.std.specs.List.Sorted.{IsSorted, IsPermutation};
ghost use Rattle.std.specs.Option.{option_copied, option_to_list};
ghost use Rattle.bundle_model.specs.declared.bundle.Bundle.{Bundle};
ghost use Rattle.bundle_model.specs.Grants.{bundle_at};
ghost use Rattle.trace_log.specs.Rows.{row_cmp};
ghost use Rattle.vep_manager.specs.History.{grant_by, grants_of};
ghost use Rattle.event_core.specs.Stands.{stop_slot};
ghost use Rattle.report_text.specs.Rows.{row_text};
ghost use Rattle.report_text.specs.Commands.{label_text};
ghost use Rattle.report_text.specs.Report.{name_at, IsAppText};
ghost use Rattle.report_text.specs.inner.Room.{most_rows};
ghost use Rattle.report_text.specs.inner.Logs.{log_on, rows_on, line_on, app_line, parts_text, HoldsAlone, ArePartsOf};
ghost use Rattle.report_text.specs.inner.Printing.{PrintsSome, PrintsApps};
ghost use Rattle.soc_io.specs.Printing.{PrintsMore};

use crate::alone_text::put_rows;
use crate::commands::push_label;
use crate::lines::{part_line, span_line};
use alone_model::PartTrace;
use bundle_model::{Grant, Part, World};
use soc_base::{Label, Line};
use soc_io::{Printer, Sink};
use tile_core::Station;
use trace_log::{PartLog, TraceRow, merge};
use vep_manager::{Entry, Reply, Setup, reply_grant};

/// Answers the log of a load on the tile of a part, if there is one.
pub fn part_log<'s>(stations: &'s [Station], label: Label, part: &Part) -> Option<&'s PartLog>
    ensures { option_copied result ≡ log_on stations.entry.now label part.now }
{
    let station = stations.get(usize::from(part.tile))?;
    station.tile.log(label)
}

// Adds the rows of a part's log to rows that are in order.
fn merge_part(rows: &mut Vec<TraceRow>, stations: &[Station], label: Label, part: &Part)
    requires room { vec_len rows.old + length (rows_on stations.now label part.now) ≤ vec_capacity rows.old }
    requires in_order { IsSorted row_cmp rows.old.items }
    ensures rows { IsPermutation (rows.old.items ++ rows_on stations.now label part.now) rows.new.items }
    ensures order { IsSorted row_cmp rows.new.items }
    ensures room { vec_capacity rows.new ≡ vec_capacity rows.old }
{
    if let Some(log) = part_log(stations, label, part) {
        merge(rows, log);
    }
}

// Replaces rows by those of the parts' logs, in order.
fn merge_parts(rows: &mut Vec<TraceRow>, stations: &[Station], label: Label, parts: &[Part])
    requires { length (flat_map (rows_on stations.now label) parts.now) ≤ vec_capacity rows.old }
    ensures rows { IsPermutation (flat_map (rows_on stations.now label) parts.now) rows.new.items }
    ensures order { IsSorted row_cmp rows.new.items }
    ensures room { vec_capacity rows.new ≡ vec_capacity rows.old }
{
    rows.clear();
    for part in parts {
        merge_part(rows, stations, label, part);
    }
}

// Prints the line of a part by its log.
fn put_part<S: Sink>(printer: &mut Printer<'_, S>, stations: &[Station], label: Label, part: &Part)
    ensures printed { PrintsMore S.written S.faults printer.old printer.new (line_on stations.now label part.now) }
    ensures same { printer.new.sink.ghost_name ≡ printer.old.sink.ghost_name }
{
    if let Some(log) = part_log(stations, label, part) {
        let trace = PartTrace {
            tile: part.tile,
            end: log.end(),
            cut: log.cut(),
        };
        printer.put(part_line(&trace).as_str().as_bytes());
    }
}

// Prints the lines of the parts of an application.
fn put_part_lines<S: Sink>(
    printer: &mut Printer<'_, S>,
    stations: &[Station],
    label: Label,
    parts: &[Part],
)
    ensures printed { PrintsMore S.written S.faults printer.old printer.new (flat_map (line_on stations.now label) parts.now) }
    ensures same { printer.new.sink.ghost_name ≡ printer.old.sink.ghost_name }
{
    for part in parts {
        put_part(printer, stations, label, part);
    }
}

// The slot up to which a grant's application is followed.
fn stop_of(budget: u64, grant: &Grant) -> u64
    ensures { result ≡ stop_slot budget grant.now }
{
    let stop = match grant.end {
        Some(end) => end.min(budget),
        None => budget,
    };
    grant.start.max(stop)
}

// The name of the bundle file at a place of the catalog; no byte where there is none.
fn name_of(world: &World, place: u16) -> &str
    ensures { result.now ≡ name_at world.entry.now place }
{
    match world.catalog.get(usize::from(place)) {
        Some(named) => named.name.as_str(),
        None => "",
    }
}

// How an application's first line begins.
fn app_front(label: Label) -> Line
    ensures { result.bytes ≡ codes "app " ++ label_text label ++ codes " " }
{
    let mut line = Line::new();
    line.push_str("app ");
    push_label(&mut line, label);
    line.push_str(" ");
    line
}

/// Prints an application's first line.
#[tactic(auto, unfolding(crate::specs::inner::Logs::app_line))]
pub fn put_app_line<S: Sink>(printer: &mut Printer<'_, S>, setup: &Setup, grant: &Grant)
    ensures printed { PrintsMore S.written S.faults printer.old printer.new (app_line setup.now grant.now) }
    ensures same { printer.new.sink.ghost_name ≡ printer.old.sink.ghost_name }
{
    let front = app_front(grant.label);
    let name = name_of(&setup.world, grant.bundle);
    let stop = stop_of(setup.budget, grant);
    let span = span_line(setup.world.platform.slot_cycles, grant.start, stop);
    printer.put_named(front.as_str(), name, span.as_str());
}

// Prints the application of a grant, with the logs of the parts of its bundle.
fn put_parts_app<S: Sink>(
    printer: &mut Printer<'_, S>,
    setup: &Setup,
    stations: &[Station],
    grant: &Grant,
    parts: &[Part],
    rows: &mut Vec<TraceRow>,
)
    requires { length (flat_map (rows_on stations.now grant.now.label) parts.now) ≤ vec_capacity rows.old }
    ensures printed { PrintsMore S.written S.faults printer.old printer.new (parts_text setup.now stations.now grant.now parts.now rows.new.items) }
    ensures rows { IsPermutation (flat_map (rows_on stations.now grant.now.label) parts.now) rows.new.items }
    ensures order { IsSorted row_cmp rows.new.items }
    ensures room { vec_capacity rows.new ≡ vec_capacity rows.old }
    ensures same { printer.new.sink.ghost_name ≡ printer.old.sink.ghost_name }
{
    merge_parts(rows, stations, grant.label, parts);
    put_app_line(printer, setup, grant);
    put_rows(printer, rows.as_slice());
    put_part_lines(printer, stations, grant.label, parts);
}

/// Answers the parts of a grant's bundle, in the order of the file.
pub fn parts_of<'s>(setup: &'s Setup, grant: &Grant) -> &'s [Part]
    ensures { ArePartsOf setup.entry.now.world grant.now result.now }
{
    match setup.world.bundle(grant.bundle) {
        Some(bundle) => bundle.parts.as_slice(),
        None => &[],
    }
}

// Prints the application of a grant, of which the stations hold what it has alone.
fn put_app<S: Sink>(
    printer: &mut Printer<'_, S>,
    setup: &Setup,
    stations: &[Station],
    grant: &Grant,
    rows: &mut Vec<TraceRow>,
)
    requires alone { HoldsAlone setup.now stations.now grant.now }
    requires room { most_rows setup.now.world ≤ vec_capacity rows.old }
    ensures printed { PrintsSome S.written S.faults printer.old printer.new (IsAppText setup.now grant.now) }
    ensures room { vec_capacity rows.new ≡ vec_capacity rows.old }
    ensures same { printer.new.sink.ghost_name ≡ printer.old.sink.ghost_name }
{
    put_parts_app(
        printer,
        setup,
        stations,
        grant,
        parts_of(setup, grant),
        rows,
    );
}

// Prints the application that a reply of a history grants, if it grants one.
fn put_reply_app<S: Sink>(
    printer: &mut Printer<'_, S>,
    setup: &Setup,
    history: &[Entry],
    stations: &[Station],
    reply: Reply,
    rows: &mut Vec<TraceRow>,
)
    requires alone { IfSome (grant_by setup.now history.now reply) (HoldsAlone setup.now stations.now) }
    requires room { most_rows setup.now.world ≤ vec_capacity rows.old }
    ensures printed { PrintsApps S.written S.faults printer.old printer.new setup.now (option_to_list (grant_by setup.now history.now reply)) }
    ensures room { vec_capacity rows.new ≡ vec_capacity rows.old }
    ensures same { printer.new.sink.ghost_name ≡ printer.old.sink.ghost_name }
{
    if let Some(grant) = reply_grant(setup, history, reply) {
        put_app(printer, setup, stations, &grant, rows);
    }
}

/// Prints the applications that a history grants, in its order, with room for the rows of each. The
/// stations hold of each what it has alone.
pub fn put_apps<S: Sink>(
    printer: &mut Printer<'_, S>,
    setup: &Setup,
    history: &[Entry],
    stations: &[Station],
    rows: &mut Vec<TraceRow>,
)
    requires alone { All (HoldsAlone setup.now stations.now) (grants_of setup.now history.now) }
    requires room { most_rows setup.now.world ≤ vec_capacity rows.old }
    ensures printed { PrintsApps S.written S.faults printer.old printer.new setup.now (grants_of setup.now history.now) }
    ensures room { vec_capacity rows.new ≡ vec_capacity rows.old }
    ensures same { printer.new.sink.ghost_name ≡ printer.old.sink.ghost_name }
{
    for entry in history {
        put_reply_app(printer, setup, history, stations, entry.reply, rows);
    }
}
