//! What each bundle of a catalog holds of the platform.

ghost use Rattle.std.specs.Prelude.{◌≡◌, IfOk};
ghost use Rattle.bundle_model.specs.declared.world.World.{World};
ghost use Rattle.bundle_model.specs.World.{IsSoundCatalog};
ghost use Rattle.bundle_model.specs.WellFormed.{IsWellFormed};
ghost use Rattle.vep_manager.specs.inner.Claims.{claimed_at, claimed_by, claims_of};

use bundle_model::{Named, Resource, World, resources};
use platform_model::Platform;
use soc_base::{Items, NoMemory};
use std::alloc::Global;

// Lists what a bundle file's bundle holds; nothing where the bundle breaks a rule.
fn claimed(alloc: Global, platform: &Platform, named: &Named) -> Result<Items<Resource>, NoMemory>
    requires { IfOk named.now.judged (IsWellFormed platform.now) }
    ensures { IfOk result (λ list. list ≡ claimed_by platform.now named.now) }
{
    match &named.judged {
        Ok(bundle) => Ok(Items::from_vec(resources(alloc, platform, bundle)?)),
        Err(_) => Ok(Items::new(alloc)),
    }
}

/// Lists what each bundle of a world's catalog holds.
pub fn listed(alloc: Global, world: &World) -> Result<Vec<Items<Resource>>, NoMemory>
    requires { IsSoundCatalog world.now }
    ensures { IfOk result (λ lists. lists.items ≡ claims_of world.now) }
{
    let mut lists = Vec::with_capacity(alloc, world.catalog.len())?;
    for named in world.catalog.as_slice() {
        lists.push_reserved(claimed(alloc, &world.platform, named)?);
    }
    Ok(lists)
}

/// Answers what the bundle at a place of the catalog holds, by such lists: nothing where it breaks a rule
/// or there is none.
pub fn held_by(lists: &[Items<Resource>], place: u16) -> &[Resource]
    ensures { (world : World) → lists.entry.now ≡ claims_of world → result.now ≡ claimed_at world place }
{
    match lists.get(usize::from(place)) {
        Some(list) => list.as_slice(),
        None => &[],
    }
}
