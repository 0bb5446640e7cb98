//! The catalog and the setup of a run on the plain platform.

ghost use Rattle.std.specs.Prelude.{◌≡◌, ◌<◌, length, nat_lt, All, IfOk};
ghost use Rattle.std.specs.List.{list_all};
ghost use Rattle.bundle_model.specs.WellFormed.{IsWellFormed};
ghost use Rattle.bundle_model.specs.World.{IsSoundCatalog};
ghost use Rattle.vep_manager.specs.Setup.{IsSound};
ghost use Rattle.vep_manager.specs.inner.Small.{IsSmallScript};

use crate::{Setup, named_loads};
use bundle_model::{BundleFault, LoadName, Named, RawBundle, RawPart, World, check};
use platform_model::Platform;
use script_file::Script;
use soc_base::{Items, MOST_SCRIPTS, Text};
use std::alloc::Global;
use std::test::Fail;

/// A bundle file of one part: its name, its partition slots, as the first one and the one after the last,
/// and the base and length of its region.
pub type File = (&'static str, i64, i64, i64, i64);

// The bundle files of the catalog. The second `a` is never loaded.
const FILES: [File; 6] = [
    ("a", 0, 1, 0, 64),
    ("b", 1, 2, 64, 64),
    ("over", 1, 2, 48, 64),
    ("both", 0, 2, 0, 128),
    ("none", 0, 0, 0, 64),
    ("a", 1, 2, 512, 64),
];

// The partition slots from one to the one before another.
fn slots(alloc: Global, from: i64, to: i64) -> Result<Items<i64>, Fail> {
    let mut slots = Items::new(alloc);
    for slot in from..to {
        slots.push(slot)?;
    }
    Ok(slots)
}

// A bundle of one part with these partition slots and this region.
fn raw(alloc: Global, slots: Items<i64>, base: i64, len: i64) -> Result<RawBundle, Fail> {
    let part = RawPart {
        tile: 0,
        slots,
        base,
        len,
        image: Some(Items::from_vec(vec![in alloc; 0x0000_0073]?)),
        entry: 0,
        trace: 16,
        kinds: Items::new(alloc),
        ports: Items::new(alloc),
    };
    Ok(RawBundle {
        version: 1,
        parts: Items::from_vec(vec![in alloc; part]?),
        pairs: Items::new(alloc),
    })
}

// A bundle file, judged.
fn named(alloc: Global, platform: &Platform, name: &str, raw: &RawBundle) -> Result<Named, Fail>
    ensures { IfOk result (λ named. IfOk named.judged (IsWellFormed platform.now)) }
{
    let name = Text::from_str(alloc, name)?;
    match check(alloc, raw, platform) {
        Ok(bundle) => Ok(Named {
            name,
            judged: Ok(bundle),
        }),
        Err(BundleFault::Rule(rule)) => Ok(Named {
            name,
            judged: Err(rule),
        }),
        Err(BundleFault::NoMemory) => Err(Fail::new("no memory")),
    }
}

/// The plain platform with the catalog.
pub fn world(alloc: Global) -> Result<World, Fail>
    ensures { IfOk result IsSoundCatalog }
{
    world_of(alloc, &FILES)
}

/// The plain platform with a catalog of these bundle files.
pub fn world_of(alloc: Global, files: &[File]) -> Result<World, Fail>
    ensures { IfOk result IsSoundCatalog }
{
    let mut world = World {
        platform: Platform::plain(alloc)?,
        catalog: Items::new(alloc),
    };
    for (name, from, to, base, len) in files {
        let raw = raw(alloc, slots(alloc, *from, *to)?, *base, *len)?;
        let named = named(alloc, &world.platform, name, &raw)?;
        world.catalog.push(named)?;
    }
    Ok(world)
}

// Whether each load names a bundle file of the catalog.
fn are_known(loads: &[LoadName], world: &World) -> bool
    ensures { result ≡ list_all (λ load. nat_lt load.bundle (length world.now.catalog)) loads.now }
{
    loads
        .iter()
        .all(|load| usize::from(load.bundle) < world.catalog.len())
}

/// The setup of a run of 1 to 16 small scripts.
pub fn setup(
    alloc: Global,
    world: World,
    budget: u64,
    scripts: Items<Script>,
) -> Result<Setup, Fail>
    requires catalog { IsSoundCatalog world }
    requires small { All IsSmallScript scripts }
    ensures { IfOk result IsSound }
{
    if scripts.len() == 0
        || scripts.len() > MOST_SCRIPTS
        || world.catalog.len() > 100
        || budget > 1000
    {
        return Err(Fail::new("the run is too long"));
    }
    let list = named_loads(alloc, world.catalog.as_slice(), scripts.as_slice())?;
    let loads = Items::from_vec(list);
    if !are_known(loads.as_slice(), &world) {
        return Err(Fail::new("a load names no bundle file"));
    }
    Ok(Setup {
        world,
        budget,
        scripts,
        loads,
    })
}
