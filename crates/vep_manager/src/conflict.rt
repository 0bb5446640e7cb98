//! Whether a load's resources are held.

ghost use Rattle.std.specs.Prelude.{◌≡◌, All, IfSome, find};
ghost use Rattle.std.specs.Option.{option_copied};
ghost use Rattle.bundle_model.specs.Grants.{conflicts};
ghost use Rattle.vep_manager.specs.inner.Claims.{HasSmallEnd};
ghost use Rattle.vep_manager.specs.Replies.{first_conflict, taken_by};

use crate::owners::OwnerIndex;
use crate::reply::Reply;
use bundle_model::{Grant, Resource};

// The reply that a grant holds a resource.
fn taken(resource: &Resource, grant: &Grant) -> Reply
    requires { HasSmallEnd grant.now }
    ensures { result ≡ taken_by resource.now grant.now }
{
    let free_from = match grant.end {
        None => None,
        Some(end) => Some(end + 1),
    };
    Reply::Taken {
        resource: *resource,
        owner: grant.label,
        free_from,
    }
}

// The first grant that conflicts with a resource.
fn holder<'o>(owners: &'o OwnerIndex<'_>, start: u64, resource: &Resource) -> Option<&'o Grant>
    requires { All HasSmallEnd owners.now.grants }
    ensures small { IfSome (option_copied result) HasSmallEnd }
    ensures first { option_copied result
        ≡ find (conflicts owners.entry.now.setup.world start resource.now) owners.entry.now.grants }
{
    match owners.first(resource, start) {
        Some(place) => Some(&owners.grants()[usize::from(place)]),
        None => None,
    }
}

/// Answers the first of the resources over which some grant conflicts with a start at this slot, with the
/// first such grant.
pub fn first_conflict(owners: &OwnerIndex<'_>, start: u64, resources: &[Resource]) -> Option<Reply>
    requires { All HasSmallEnd owners.now.grants }
    ensures { result ≡ first_conflict owners.now.setup.world owners.now.grants start resources.now }
{
    for resource in resources {
        if let Some(grant) = holder(owners, start, resource) {
            return Some(taken(resource, grant));
        }
    }
    None
}
