//! The trace of an application alone.

ghost use Rattle.std.specs.Prelude.{◌≡◌, ◌*◌, ◌≤◌, map, IfOk};
ghost use Rattle.std.specs.List.{flat_map};
ghost use Rattle.std.specs.List.Sorted.{IsSorted, IsPermutation};
ghost use Rattle.trace_log.specs.Rows.{row_cmp};
ghost use Rattle.bundle_model.specs.WellFormed.{IsWellFormed};
ghost use Rattle.alone_model.specs.App.{alone_at};
ghost use Rattle.alone_model.specs.Trace.{IsTraceOf, part_trace};
ghost use Rattle.alone_model.specs.inner.Told.{app_of};

use crate::application::Application;
use crate::part::RunningPart;
use crate::trace::{AppTrace, PartTrace};
use bundle_model::Bundle;
use platform_model::Platform;
use soc_base::{Items, LAST_CYCLE, NoMemory};
use std::alloc::Global;
use trace_log::{TraceRow, merge};

// The rows that the parts kept, in order.
fn merged_rows(alloc: Global, parts: &[RunningPart<'_>]) -> Result<Vec<TraceRow>, NoMemory>
    ensures rows { IfOk result (λ rows. IsPermutation (flat_map (λ p. p.state.log.rows) parts.now) rows.items) }
    ensures order { IfOk result (λ rows. IsSorted row_cmp rows.items) }
{
    let mut rows = Vec::new(alloc);
    for part in parts {
        rows.reserve(part.log().rows().len())?;
        merge(&mut rows, part.log());
    }
    Ok(rows)
}

// How the parts stand.
fn part_traces(alloc: Global, parts: &[RunningPart<'_>]) -> Result<Vec<PartTrace>, NoMemory>
    ensures { IfOk result (λ traces. traces.items ≡ map part_trace parts.now) }
{
    let mut traces = Vec::with_capacity(alloc, parts.len())?;
    for part in parts {
        traces.push_reserved(PartTrace {
            tile: part.tile(),
            end: part.log().end(),
            cut: part.log().cut(),
        });
    }
    Ok(traces)
}

// The trace of an application.
fn trace_of(alloc: Global, app: &Application<'_>) -> Result<AppTrace, NoMemory>
    ensures { IfOk result (IsTraceOf (app_of app.now)) }
{
    let rows = merged_rows(alloc, app.parts())?;
    let parts = part_traces(alloc, app.parts())?;
    Ok(AppTrace {
        rows: Items::from_vec(rows),
        parts: Items::from_vec(parts),
    })
}

/// Answers the trace of a bundle alone on the empty platform, from its granted slot `start` up to the
/// beginning of slot `end`. The bundle is well-formed for the platform, the start isn't after the end,
/// and the end is at most cycle 1,000,000,000,063.
pub fn alone(
    alloc: Global,
    platform: &Platform,
    bundle: &Bundle,
    start: u64,
    end: u64,
) -> Result<AppTrace, NoMemory>
    requires well_formed { IsWellFormed platform.now bundle.now }
    requires ordered { start ≤ end }
    requires bounded { end * platform.now.slot_cycles ≤ LAST_CYCLE }
    ensures { IfOk result (IsTraceOf (alone_at platform.now bundle.now start end)) }
{
    let mut app = Application::new(alloc, platform, bundle)?;
    app.run(alloc, platform, bundle, start, end)?;
    trace_of(alloc, &app)
}
