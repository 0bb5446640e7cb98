//! Two bundles of one part, the world of both, and a tile that is followed over its slots.

ghost use Rattle.std.specs.Prelude.{◌≡◌, ◌≢◌, ◌*◌, ◌≤◌, [], ◌∷◌, length, Ok, IfOk, IfSome, IsSome};
ghost use Rattle.std.specs.List.{list_any};
ghost use Rattle.bundle_model.specs.Resources.{meets_of};
ghost use Rattle.bundle_model.specs.Grants.{IsApart, bundle_at, grant_resources};
ghost use Rattle.bundle_model.specs.World.{IsSoundCatalog, IsSoundWorld, AreOfLoads};
ghost use Rattle.bundle_model.specs.WellFormed.{IsWellFormed};
ghost use Rattle.soc_base.specs.declared.limits.TheConstants.{LAST_CYCLE};
ghost use Rattle.tile_core.specs.Fit.{IsMadeFor, IsFit};

use crate::tile::Tile;
use bundle_model::{
    Bundle, Grant, LoadName, Named, RawBundle, RawPart, Resource, Schedule, World, check, meets,
    resources,
};
use platform_model::Platform;
use soc_base::{Flit, Items, Label, Text};
use std::alloc::Global;
use std::process::Abort;
use std::test::Fail;

/// The first load, of the first bundle.
pub const FIRST: LoadName = LoadName {
    label: Label {
        session: 1,
        load: 1,
    },
    bundle: 0,
};

/// The second load, of the second bundle.
pub const SECOND: LoadName = LoadName {
    label: Label {
        session: 1,
        load: 2,
    },
    bundle: 1,
};

/// A bundle of one part that traces 7 and ends: its instructions take 1, 1, 4 and 1 cycles.
pub fn bundle(alloc: Global, platform: &Platform, slot: i64, base: i64) -> Result<Bundle, Fail>
    ensures { IfOk result (IsWellFormed platform.now) }
{
    let image = vec![in alloc;
        0x0070_0293, // addi x5, x0, 7
        0x8000_0337, // lui x6, 0x80000
        0x0053_2023, // sw x5, 0(x6)
        0x0000_0073, // ecall
    ]?;
    let part = RawPart {
        tile: 0,
        slots: Items::from_vec(vec![in alloc; slot]?),
        base,
        len: 64,
        image: Some(Items::from_vec(image)),
        entry: 0,
        trace: 16,
        kinds: Items::from_vec(vec![in alloc; Text::from_str(alloc, "word")?]?),
        ports: Items::new(alloc),
    };
    let raw = RawBundle {
        version: 1,
        parts: Items::from_vec(vec![in alloc; part]?),
        pairs: Items::new(alloc),
    };
    Ok(check(alloc, &raw, platform)?)
}

fn named(alloc: Global, name: &str, bundle: Bundle) -> Result<Named, Fail>
    ensures { IfOk result (λ named. named.judged ≡ Ok bundle) }
{
    Ok(Named {
        name: Text::from_str(alloc, name)?,
        judged: Ok(bundle),
    })
}

/// A bundle, and one in partition slot 1 of tile 0 from byte 64 on.
pub fn world_with(alloc: Global, platform: Platform, first: Bundle) -> Result<World, Fail>
    requires { IsWellFormed platform first }
    ensures sound { IfOk result IsSoundCatalog }
    ensures two { IfOk result (λ world. length world.catalog ≡ 2) }
{
    let first = named(alloc, "first", first)?;
    let second = named(alloc, "second", bundle(alloc, &platform, 1, 64)?)?;
    Ok(World {
        platform,
        catalog: Items::from_vec(vec![in alloc; first, second]?),
    })
}

/// The plain platform, whose two partition slots are served from cycles 72 and 200 on, and again 256
/// cycles later, and two bundles: one in partition slot 0 from byte 0 on, and one in partition slot 1
/// from byte 64 on.
pub fn world(alloc: Global) -> Result<World, Fail>
    ensures sound { IfOk result IsSoundCatalog }
    ensures two { IfOk result (λ world. length world.catalog ≡ 2) }
{
    let platform = Platform::plain(alloc)?;
    let first = bundle(alloc, &platform, 0, 0)?;
    world_with(alloc, platform, first)
}

// What a grant holds.
fn held<A: Abort>(
    rt: &A,
    alloc: Global,
    world: &World,
    grant: &Grant,
) -> Result<Vec<Resource>, Fail>
    requires { IsSoundCatalog world.now }
    ensures known { IfOk result (λ held. IsSome (bundle_at world.now grant.now.bundle)) }
    ensures held { IfOk result (λ held. held.items ≡ grant_resources world.now grant.now) }
{
    let Some(bundle) = world.bundle(grant.bundle) else {
        panic!(rt; "no bundle");
    };
    Ok(resources(alloc, &world.platform, bundle)?)
}

fn meets_some(held: &[Resource], resource: &Resource) -> bool
    ensures { result ≡ list_any (λ one. meets_of one resource.now) held.now }
{
    held.iter().any(|one| meets(one, resource))
}

fn do_meet(one: &[Resource], other: &[Resource]) -> bool
    ensures { result ≡ list_any (λ resource. list_any (λ held. meets_of held resource) one.now) other.now }
{
    other.iter().any(|resource| meets_some(one, resource))
}

/// A schedule of two grants that hold nothing together.
pub fn schedule<A: Abort>(
    rt: &A,
    alloc: Global,
    world: &World,
    first: Grant,
    second: Grant,
    horizon: u64,
) -> Result<Schedule, Fail>
    requires sound { IsSoundCatalog world.now }
    requires labels { first.label ≢ second.label }
    requires begins { IfSome first.end (λ end. first.start ≤ end) }
    requires follows { IfSome second.end (λ end. second.start ≤ end) }
    ensures grants { IfOk result (λ schedule. schedule.grants.items ≡ first ∷ second ∷ []) }
    ensures horizon { IfOk result (λ schedule. schedule.horizon ≡ horizon) }
    ensures apart { IfOk result (λ schedule. IsApart world.now schedule.grants.items) }
{
    let one = held(rt, alloc, world, &first)?;
    let other = held(rt, alloc, world, &second)?;
    if do_meet(one.as_slice(), other.as_slice()) {
        panic!(rt; "the grants meet");
    }
    let grants = vec![in alloc; first, second]?;
    Ok(Schedule { grants, horizon })
}

const IDLE: Flit = Flit {
    word: None,
    credits: 0,
};

// What the inputs carry in a slot: from slot `from` on input 1 has the slot's number.
fn inputs_in(slot: u64, from: u64) -> [Flit; 7] {
    let mut inputs = [IDLE; 7];
    if slot >= from {
        inputs[1] = Flit {
            word: Some((slot % 64) as u32),
            credits: 0,
        };
    }
    inputs
}

// Does all slots of a tile up to the schedule's horizon, and answers the last flit with a word that it put on
// its output 0, with the slot in which it did so.
#[tactic(auto, using(crate::proofs::SlotMade::slot_at))]
fn run_slots(
    world: &World,
    loads: &[LoadName],
    schedule: &Schedule,
    tile: &mut Tile,
    from: u64,
) -> Option<(u64, Flit)>
    requires sound { IsSoundWorld world.now loads.now }
    requires made { IsMadeFor world.now loads.now tile.old }
    requires apart { IsApart world.now schedule.now.grants.items }
    requires of_loads { AreOfLoads loads.now schedule.now.grants.items }
    requires fits { IsFit world.now schedule.now.grants.items tile.old }
    requires first { tile.old.at ≡ 0 }
    requires bounded { schedule.now.horizon * world.now.platform.slot_cycles ≤ LAST_CYCLE }
    ensures { IsMadeFor world.now loads.now tile.new }
{
    let mut sent = None;
    for slot in 0..schedule.horizon {
        let inputs = inputs_in(slot, from);
        let outputs = tile.slot(world, schedule, &inputs);
        let flit = outputs[0];
        if flit.word.is_some() {
            sent = Some((slot, flit));
        }
    }
    sent
}

/// A tile after its slots.
#[derive(Drop)]
pub struct FedTile {
    /// The tile.
    pub tile: Tile,
    /// The last word that it put on its output 0, with the slot.
    pub sent: Option<(u64, Flit)>,
}

/// Follows a tile with both loads from its beginning over so many slots, with words on input 1 from a slot on.
pub fn fed<A: Abort>(
    rt: &A,
    alloc: Global,
    world: &World,
    first: Grant,
    second: Grant,
    slots: u64,
    from: u64,
) -> Result<FedTile, Fail>
    requires sound { IsSoundCatalog world.now }
    requires two { length world.now.catalog ≡ 2 }
    requires labels { (first.label ≡ record { session = 1; load = 1 })
        × (second.label ≡ record { session = 1; load = 2 }) }
    requires bundles { (first.bundle ≡ 0) × (second.bundle ≡ 1) }
    requires begins { IfSome first.end (λ end. first.start ≤ end) }
    requires follows { IfSome second.end (λ end. second.start ≤ end) }
    requires bounded { slots * world.now.platform.slot_cycles ≤ LAST_CYCLE }
    ensures memory { IfOk result (λ done. length done.tile.memory ≡ world.now.platform.mem_bytes) }
    ensures ports { IfOk result (λ done. length done.tile.ports ≡ world.now.platform.ports) }
{
    let loads = [FIRST, SECOND];
    let schedule = schedule(rt, alloc, world, first, second, slots)?;
    let mut tile = Tile::new(alloc, world, &loads, 0)?;
    let sent = run_slots(world, &loads, &schedule, &mut tile, from);
    assert_eq!(rt; tile.at(), slots);
    Ok(FedTile { tile, sent })
}

/// The same with idle inputs.
pub fn followed<A: Abort>(
    rt: &A,
    alloc: Global,
    world: &World,
    first: Grant,
    second: Grant,
    slots: u64,
) -> Result<Tile, Fail>
    requires sound { IsSoundCatalog world.now }
    requires two { length world.now.catalog ≡ 2 }
    requires labels { (first.label ≡ record { session = 1; load = 1 })
        × (second.label ≡ record { session = 1; load = 2 }) }
    requires bundles { (first.bundle ≡ 0) × (second.bundle ≡ 1) }
    requires begins { IfSome first.end (λ end. first.start ≤ end) }
    requires follows { IfSome second.end (λ end. second.start ≤ end) }
    requires bounded { slots * world.now.platform.slot_cycles ≤ LAST_CYCLE }
    ensures { IfOk result (λ tile. length tile.memory ≡ world.now.platform.mem_bytes) }
{
    let done = fed(rt, alloc, world, first, second, slots, slots)?;
    Ok(done.tile)
}

/// A grant of a load.
pub fn granted(load: LoadName, start: u64, end: Option<u64>) -> Grant
    ensures { result ≡ record { label = load.label; bundle = load.bundle; start = start; end = end } }
{
    Grant {
        label: load.label,
        bundle: load.bundle,
        start,
        end,
    }
}
