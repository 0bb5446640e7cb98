//! What is counted over the parts of all applications of a run.

ghost use Rattle.std.specs.Prelude.{◌≡◌, ◌≤◌, ◌*◌, ◌^◌, length, sum_by, All, IfSome};
ghost use Rattle.std.specs.Option.{option_to_list};
ghost use Rattle.vep_manager.specs.History.{grant_by, grants_of};
ghost use Rattle.report_text.specs.Summary.{end_word};
ghost use Rattle.report_text.specs.inner.Counts.{app_count, ended, log_count, part_count};
ghost use Rattle.report_text.specs.inner.Logs.{HoldsAlone};

use crate::applications::{part_log, parts_of};
use bundle_model::{Grant, Part};
use soc_base::Label;
use tile_core::Station;
use trace_log::{PartEnd, PartLog};
use vep_manager::{Entry, Reply, Setup, reply_grant};

/// What is counted of a part.
#[derive(Clone, Copy)]
pub enum Counted {
    /// The rows that were kept.
    Rows,
    /// The rows that were cut.
    Cut,
    /// One where it halted.
    Halts,
    /// One where it faulted.
    Faults,
    /// One where it is live.
    Lives,
}

// The word under which the end of a part is counted.
fn end_word(end: PartEnd) -> &'static str
    ensures { result.now ≡ end_word end }
{
    match end {
        PartEnd::Live => "live",
        PartEnd::Halt { code: _, cycle: _ } => "halt",
        PartEnd::Fault { cause: _, cycle: _ } => "fault",
    }
}

// One where a part ended in the way of a word.
fn ended(end: PartEnd, word: &str) -> u64
    ensures { result ≡ ended end word.now }
{
    if end_word(end) == word { 1 } else { 0 }
}

// What a log counts for.
fn log_count(counted: Counted, log: &PartLog) -> u64
    ensures { result ≡ log_count counted log.now }
{
    match counted {
        Counted::Rows => log.rows().len() as u64,
        Counted::Cut => log.cut(),
        Counted::Halts => ended(log.end(), "halt"),
        Counted::Faults => ended(log.end(), "fault"),
        Counted::Lives => ended(log.end(), "live"),
    }
}

// What a part counts for.
fn part_count(counted: Counted, stations: &[Station], label: Label, part: &Part) -> u64
    ensures { result ≡ part_count counted stations.now label part.now }
{
    match part_log(stations, label, part) {
        Some(log) => log_count(counted, log),
        None => 0,
    }
}

// What parts count for, of which there are at most 32.
fn parts_count(counted: Counted, stations: &[Station], label: Label, parts: &[Part]) -> u128
    requires { length parts.now ≤ 32 }
    ensures count { result ≡ sum_by (part_count counted stations.now label) parts.now }
    ensures below { result ≤ 32 * 2 ^ 64 }
{
    let mut sum = 0u128;
    for part in parts {
        sum += u128::from(part_count(counted, stations, label, part));
    }
    sum
}

// What the application of a grant counts for, of which the stations hold what it has alone.
fn app_count(counted: Counted, setup: &Setup, stations: &[Station], grant: &Grant) -> u128
    requires { HoldsAlone setup.now stations.now grant.now }
    ensures count { result ≡ app_count counted setup.now stations.now grant.now }
    ensures below { result ≤ 32 * 2 ^ 64 }
{
    parts_count(counted, stations, grant.label, parts_of(setup, grant))
}

// What the application counts for that a reply of a history grants, if it grants one.
fn reply_count(
    counted: Counted,
    setup: &Setup,
    history: &[Entry],
    stations: &[Station],
    reply: Reply,
) -> u128
    requires { IfSome (grant_by setup.now history.now reply) (HoldsAlone setup.now stations.now) }
    ensures count { result ≡ sum_by (app_count counted setup.now stations.now) (option_to_list (grant_by setup.now history.now reply)) }
    ensures below { result ≤ 32 * 2 ^ 64 }
{
    match reply_grant(setup, history, reply) {
        Some(grant) => app_count(counted, setup, stations, &grant),
        None => 0,
    }
}

/// Counts over the parts of all applications that a history grants. The stations hold of each what it has
/// alone. Takes no memory.
pub fn apps_count(counted: Counted, setup: &Setup, history: &[Entry], stations: &[Station]) -> u128
    requires { All (HoldsAlone setup.now stations.now) (grants_of setup.now history.now) }
    ensures { result ≡ sum_by (app_count counted setup.now stations.now) (grants_of setup.now history.now) }
{
    let mut sum = 0u128;
    for entry in history {
        sum += reply_count(counted, setup, history, stations, entry.reply);
    }
    sum
}
