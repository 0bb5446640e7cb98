//! A row of what grants hold, in order of first bytes.

ghost use Rattle.std.specs.Prelude.{◌≡◌, ◌↔◌, ◌≤◌, ◌<◌, ◌-◌, ◌+◌, min, length, slice_index_or, IsTrue};
ghost use Rattle.vep_manager.specs.declared.owners.held.Held.{Held};
ghost use Rattle.std.specs.Option.{option_map_or};
ghost use Rattle.vep_manager.specs.inner.Places.{low_of, high_of};
ghost use Rattle.vep_manager.specs.inner.Held.{BeginsBefore, IsInOrder, IsInOrderBut, HoldAlike, IsBegun, IsLeastHit, Reaches, hits, lasts_at};

use super::places::{high, low};
use crate::granting::lasts;
use bundle_model::{Grant, Resource, meets};

/// A resource, and the grant that holds it.
#[derive(Clone, Copy, Debug)]
pub struct Held {
    /// The resource.
    pub resource: Resource,
    /// The grant's place in the order of the history.
    pub grant: u16,
    /// A byte behind those of this entry and of all before it in its row.
    pub reach: u64,
}

// Whether the entry at a place begins before the one in front of it.
fn begins_before(row: &[Held], at: usize) -> bool
    requires { at < length row.now }
    ensures { IsTrue result ↔ BeginsBefore at row.now }
{
    at > 0 && low(&row[at].resource) < low(&row[at - 1].resource)
}

// An entry with another reach.
fn with_reach(held: Held, reach: u64) -> Held
    ensures { result ≡ record held { reach = reach } }
{
    Held {
        resource: held.resource,
        grant: held.grant,
        reach,
    }
}

// Exchanges the entry at a place, which begins before the one in front of it, with that one.
fn move_forward(row: &mut [Held], at: usize)
    requires inside { at < length row.old }
    requires order { IsInOrderBut at row.old }
    requires before { BeginsBefore at row.old }
    ensures order { IsInOrderBut (at - 1) row.new }
    ensures held { HoldAlike row.new row.old }
{
    let one = row[at];
    let other = row[at - 1];
    let reach = other.reach.max(high(&one.resource));
    row[at] = with_reach(other, reach);
    row[at - 1] = one;
}

// What the entry in front of a place reaches; 0 where there is none.
fn reach_before(row: &[Held], at: usize) -> u64
    requires { at < length row.now }
    ensures { 0 < at → (d : Held) → (slice_index_or row.now (at - 1) d).reach ≤ result }
{
    if at == 0 { 0 } else { row[at - 1].reach }
}

// Gives the entry at a place its reach, where all entries stand in order.
fn reach_on(row: &mut [Held], at: usize)
    requires inside { at < length row.old }
    requires order { IsInOrderBut at row.old }
    requires here { ¬ (BeginsBefore at row.old) }
    ensures order { IsInOrder row.new }
    ensures held { HoldAlike row.new row.old }
{
    let one = row[at];
    let reach = reach_before(row, at).max(high(&one.resource));
    row[at] = with_reach(one, reach);
}

/// Brings the last entry of a row to its place among the others, which are in order: behind those that
/// begin with it or earlier.
pub fn settle(row: &mut [Held])
    requires some { 0 < length row.old }
    requires order { IsInOrderBut (length row.old - 1) row.old }
    ensures order { IsInOrder row.new }
    ensures held { HoldAlike row.new row.old }
{
    let mut at = row.len() - 1;
    while begins_before(row, at) {
        move_forward(row, at);
        at -= 1;
    }
    reach_on(row, at);
}

// How many entries begin no later than a resource ends.
fn begun(row: &[Held], resource: &Resource) -> usize
    requires { IsInOrder row.now }
    ensures { IsBegun row.now resource.now result }
{
    let end = high(resource);
    row.partition_point(|held| low(&held.resource) <= end)
}

// Whether the grant at a place isn't over before a slot.
fn lasts_from(grants: &[Grant], start: u64, place: u16) -> bool
    ensures { result ≡ lasts_at grants.now start place }
{
    match grants.get(usize::from(place)) {
        Some(grant) => lasts(start, grant),
        None => false,
    }
}

// Whether an entry is in the way of a resource that is asked for from a slot on.
fn hit(grants: &[Grant], start: u64, resource: &Resource, held: &Held) -> bool
    ensures { result ≡ hits grants.now start resource.now held.now }
{
    lasts_from(grants, start, held.grant) && meets(&held.resource, resource)
}

// The lesser one of a place and another, if there is one.
fn lesser(least: Option<u16>, place: u16) -> u16
    ensures { result ≡ option_map_or (λ other. min other place) least place }
{
    match least {
        Some(other) => other.min(place),
        None => place,
    }
}

// Whether the entries in front of a place reach a resource.
fn is_reached(row: &[Held], at: usize, resource: &Resource) -> bool
    requires { at ≤ length row.now }
    ensures { IsTrue result ↔ Reaches at row.now resource.now }
{
    at > 0 && low(resource) <= row[at - 1].reach
}

/// Answers the least place of a grant among the entries of a row that are in the way of a resource which
/// is asked for from slot `start` on. Looks at the entries that begin no later than it ends, from the
/// last one down to where none reaches it.
pub fn least_hit(row: &[Held], grants: &[Grant], start: u64, resource: &Resource) -> Option<u16>
    requires { IsInOrder row.now }
    ensures { IsLeastHit (hits grants.now start resource.now) row.now 0 result }
{
    let mut at = begun(row, resource);
    let mut least = None;
    while is_reached(row, at, resource) {
        at -= 1;
        if hit(grants, start, resource, &row[at]) {
            least = Some(lesser(least, row[at].grant));
        }
    }
    least
}
