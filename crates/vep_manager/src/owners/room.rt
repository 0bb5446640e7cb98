//! How much room each row of an index of owners needs.

ghost use Rattle.std.specs.Prelude.{◌≡◌, ℕ, ◌≤◌, ◌<◌, ◌^◌, ◌+◌, ◌*◌, ◌==◌, count_by, length, slice_index, All, IfOk};
ghost use Rattle.vep_manager.specs.Setup.{IsSound};
ghost use Rattle.vep_manager.specs.inner.Claims.{claims_of};
ghost use Rattle.vep_manager.specs.inner.Places.{row_of};
ghost use Rattle.vep_manager.specs.inner.Owned.{AreRooms, row_count};

use super::places::{GROUP, row_number};
use crate::claims::held_by;
use crate::setup::Setup;
use bundle_model::Resource;
use platform_model::Platform;
use soc_base::{Items, NoMemory};
use std::alloc::Global;

// How many rows an index for a platform has.
fn row_count(platform: &Platform) -> usize
    ensures count { result ≡ row_count platform.now }
    ensures some { 0 < result }
    ensures few { result ≤ 2 ^ 20 }
{
    (usize::from(platform.tiles) + platform.links.len()) * GROUP
}

// Counts each resource of a list at its row.
fn count_list(counts: &mut [u32], tiles: u8, list: &[Resource])
    requires some { 0 < length counts.old }
    requires low { All (λ count. count + length list.now < 2 ^ 32) counts.old }
    ensures len { length counts.new ≡ length counts.old }
    ensures counted { (n : ℕ) → n < length counts.old → slice_index counts.new n
        ≡ slice_index counts.old n + count_by (λ resource. row_of tiles (length counts.old) resource == n) list.now }
{
    for resource in list {
        let row = row_number(tiles, counts.len(), resource);
        counts[row] += 1;
    }
}

/// Counts for each row how many of the resources that the loads' bundles hold lie in it.
pub fn rooms(alloc: Global, setup: &Setup, lists: &[Items<Resource>]) -> Result<Vec<u32>, NoMemory>
    requires sound { IsSound setup.now }
    requires lists { lists.now ≡ claims_of setup.now.world }
    ensures { IfOk result (λ rooms. AreRooms setup.now rooms.items) }
{
    let tiles = setup.world.platform.tiles;
    let mut counts = vec![in alloc; 0; row_count(&setup.world.platform)]?;
    for load in setup.loads.as_slice() {
        count_list(counts.as_mut_slice(), tiles, held_by(lists, load.bundle));
    }
    Ok(counts)
}
