//! Whether a list of resources breaks the rules B13 or B14.

ghost use Rattle.std.specs.Prelude.{◌≡◌, ℕ, ◌<◌, ◌+◌, ◌*◌, nat_lt, if◌then◌else◌, false, List, [], ◌∷◌, ◌++◌, length, slice_index_or, Some, None, IfOk, IfSome};
ghost use Rattle.std.specs.List.{list_any};
ghost use Rattle.soc_base.specs.Twins.{has_twin};
ghost use Rattle.soc_base.specs.declared.limits.TheConstants.{MOST_RESOURCES};
ghost use Rattle.bundle_model.specs.declared.rules.BRule.TheVariants.{B14};
ghost use Rattle.bundle_model.specs.Resources.{resources_of};
ghost use Rattle.bundle_model.specs.inner.Stages.{KeepsEarly, first_late};
ghost use Rattle.bundle_model.specs.inner.Places.{network_place, shares_place, AreMarks};

use crate::bundle::Bundle;
use crate::resource::{Resource, resources};
use crate::rules::BRule;
use platform_model::Platform;
use soc_base::{MOST_RESOURCES, NoMemory};
use std::alloc::Global;

/// The numbers of places of the network: one for each pair of bytes of each of the three kinds.
const PLACES: usize = 196_608;

/// Answers the least of the rules B13 and B14 that a bundle breaks which keeps those before.
pub fn first_overdrawn(
    alloc: Global,
    platform: &Platform,
    bundle: &Bundle,
) -> Result<Option<BRule>, NoMemory>
    requires { KeepsEarly platform.now bundle.now }
    ensures { IfOk result (λ rule. rule ≡ first_late (resources_of platform.now bundle.now)) }
{
    let list = resources(alloc, platform, bundle)?;
    let held = list.as_slice();
    if holds_twice(alloc, held)? {
        return Ok(Some(BRule::B13));
    }
    Ok(many(held))
}

// The rule B14, where there are too many resources.
fn many(list: &[Resource]) -> Option<BRule>
    ensures { result ≡ (if nat_lt MOST_RESOURCES (length list.now) then Some B14 else None) }
{
    if list.len() > MOST_RESOURCES {
        Some(BRule::B14)
    } else {
        None
    }
}

// Whether a place of the network stands twice in a list. Each place that was met has a mark, so one
// pass is enough.
fn holds_twice(alloc: Global, list: &[Resource]) -> Result<bool, NoMemory>
    ensures { IfOk result (λ found. found ≡ has_twin shares_place list.now) }
{
    let mut marks = unmarked(alloc, PLACES)?;
    let mut found = false;
    for resource in list {
        found |= mark(&mut marks, *resource);
    }
    Ok(found)
}

// So many marks, none of them set.
fn unmarked(alloc: Global, count: usize) -> Result<Vec<bool>, NoMemory>
    ensures room { IfOk result (λ marks. length marks.items ≡ count) }
    ensures clear { IfOk result (λ marks. (place : ℕ) → slice_index_or marks.items place false ≡ false) }
{
    let marks = vec![in alloc; false; count]?;
    Ok(marks)
}

// Marks the place of a resource. Answers whether it was marked.
fn mark(marks: &mut Vec<bool>, resource: Resource) -> bool
    requires { length marks.old.items ≡ 196608 }
    ensures met { (met : List Resource) → AreMarks marks.old.items met
        → result ≡ list_any (λ one. shares_place one resource) met }
    ensures marked { (met : List Resource) → AreMarks marks.old.items met
        → AreMarks marks.new.items (met ++ resource ∷ []) }
{
    match place(resource) {
        Some(place) => {
            let met = marks[place];
            marks[place] = true;
            met
        }
        None => false,
    }
}

// The number of a resource of the network.
fn place(resource: Resource) -> Option<usize>
    ensures value { result ≡ network_place resource }
    ensures inside { IfSome result (λ place. place < 196608) }
{
    match resource {
        Resource::Inject { tile, slot } => Some(pair(tile, slot)),
        Resource::LinkSlot { link, slot } => Some(65_536 + pair(link, slot)),
        Resource::Deliver { tile, slot } => Some(131_072 + pair(tile, slot)),
        Resource::Partition { .. } | Resource::Span { .. } | Resource::Port { .. } => None,
    }
}

// The number of a pair of bytes.
fn pair(high: u8, low: u8) -> usize
    ensures value { result ≡ high * 256 + low }
    ensures inside { result < 65536 }
{
    usize::from(high) * 256 + usize::from(low)
}
