//! Two grants of two bundles on three tiles in a row.

ghost use Rattle.std.specs.Prelude.{◌≡◌, ◌≢◌, ◌≤◌, [], ◌∷◌, length, Ok, IfOk, IfSome, IsSome, IsTrue};
ghost use Rattle.std.specs.List.{list_any};
ghost use Rattle.bundle_model.specs.Resources.{meets_of};
ghost use Rattle.bundle_model.specs.Grants.{IsApart, EndsBefore, bundle_at, grant_resources};
ghost use Rattle.bundle_model.specs.World.{IsSoundCatalog};
ghost use Rattle.bundle_model.specs.WellFormed.{IsWellFormed};

use bundle_model::{
    Bundle, Grant, Named, RawBundle, RawChannel, RawPair, RawPart, Resource, World, check, meets,
    resources,
};
use platform_model::{Platform, RawLink, RawPlatform};
use soc_base::{Items, Label, Text};
use std::alloc::Global;
use std::process::Abort;
use std::test::Fail;

/// The label of the first load.
pub const FIRST: Label = Label {
    session: 1,
    load: 1,
};

/// The label of the second load.
pub const SECOND: Label = Label {
    session: 1,
    load: 2,
};

/// Links there (0, 1) and back (2, 3), and one past the middle (4): each with its tile and output, and the tile
/// and input that it enters.
pub const LINKS: [[i64; 4]; 5] = [
    [0, 0, 1, 0],
    [1, 0, 2, 0],
    [2, 0, 1, 1],
    [1, 1, 0, 0],
    [0, 1, 2, 1],
];

/// A pair between ports of one number of tiles 0 and 2, on each of which the bundle has a part in the
/// partition slot of that number. Tile 1 is passed by, without a part.
#[derive(Clone, Copy)]
pub struct PairRow<'a> {
    /// The number of the ports, and of the partition slots.
    pub port: i64,
    /// The path and the injection slots from tile 0 to tile 2.
    pub there: (&'a [i64], &'a [i64]),
    /// The same from tile 2 to tile 0.
    pub back: (&'a [i64], &'a [i64]),
}

/// Injects twice there, the second time past the last row, and once back.
pub const LONG: PairRow<'static> = PairRow {
    port: 0,
    there: (&[0, 1], &[1, 6]),
    back: (&[2, 3], &[5]),
};

/// Shares nothing with it.
pub const SHORT: PairRow<'static> = PairRow {
    port: 1,
    there: (&[4], &[3]),
    back: (&[2, 3], &[0]),
};

/// A list as items.
pub fn items(alloc: Global, list: &[i64]) -> Result<Items<i64>, Fail> {
    let mut items = Items::new(alloc);
    for item in list {
        items.push(*item)?;
    }
    Ok(items)
}

/// A channel of a path and injection slots.
pub fn channel(alloc: Global, row: (&[i64], &[i64])) -> Result<RawChannel, Fail> {
    Ok(RawChannel {
        path: items(alloc, row.0)?,
        slots: items(alloc, row.1)?,
    })
}

/// A part of one instruction on a tile, with the partition slot and the port of one number.
pub fn part(alloc: Global, tile: i64, port: i64) -> Result<RawPart, Fail> {
    Ok(RawPart {
        tile,
        slots: items(alloc, &[port])?,
        base: if port == 0 { 0 } else { 64 },
        len: 64,
        image: Some(Items::from_vec(vec![in alloc; 0x13]?)),
        entry: 0,
        trace: 16,
        kinds: Items::new(alloc),
        ports: items(alloc, &[port])?,
    })
}

/// The bundle of a pair, as a bundle file of the catalog.
pub fn named(alloc: Global, platform: &Platform, row: PairRow) -> Result<Named, Fail>
    ensures { IfOk result (λ named. IfOk named.judged (IsWellFormed platform.now)) }
{
    let pair = RawPair {
        a: items(alloc, &[0, row.port])?,
        b: items(alloc, &[2, row.port])?,
        there: channel(alloc, row.there)?,
        back: channel(alloc, row.back)?,
    };
    let parts = vec![in alloc; part(alloc, 0, row.port)?, part(alloc, 2, row.port)?]?;
    let raw = RawBundle {
        version: 1,
        parts: Items::from_vec(parts),
        pairs: Items::from_vec(vec![in alloc; pair]?),
    };
    let bundle = check(alloc, &raw, platform)?;
    Ok(Named {
        name: Text::from_str(alloc, "pair")?,
        judged: Ok(bundle),
    })
}

/// A platform of three tiles in a line, with tables of so many slots.
pub fn platform(alloc: Global, table_slots: i64) -> Result<Platform, Fail> {
    let mut links = Items::new(alloc);
    for [from, out, to, input] in &LINKS {
        links.push(RawLink {
            from: *from,
            out: *out,
            to: *to,
            input: *input,
        })?;
    }
    let raw = RawPlatform {
        tiles: 3,
        table_slots,
        links,
        ..RawPlatform::plain(alloc)
    };
    Ok(Platform::check(alloc, &raw)?)
}

/// A platform with tables of so many slots, and two bundles of one pair each.
pub fn world(
    alloc: Global,
    table_slots: i64,
    first: PairRow,
    second: PairRow,
) -> Result<World, Fail>
    ensures { IfOk result IsSoundCatalog }
{
    let platform = platform(alloc, table_slots)?;
    let first = named(alloc, &platform, first)?;
    let second = named(alloc, &platform, second)?;
    let catalog = Items::from_vec(vec![in alloc; first, second]?);
    Ok(World { platform, catalog })
}

/// What a grant holds.
pub fn held<A: Abort>(
    rt: &A,
    alloc: Global,
    world: &World,
    grant: &Grant,
) -> Result<Vec<Resource>, Fail>
    requires { IsSoundCatalog world.now }
    ensures known { IfOk result (λ held. IsSome (bundle_at world.now grant.now.bundle)) }
    ensures held { IfOk result (λ held. held.items ≡ grant_resources world.now grant.now) }
{
    let Some(bundle) = world.bundle(grant.bundle) else {
        panic!(rt; "no bundle");
    };
    Ok(resources(alloc, &world.platform, bundle)?)
}

/// Whether a resource shares something with one of those that are held.
pub fn meets_some(held: &[Resource], resource: &Resource) -> bool
    ensures { result ≡ list_any (λ one. meets_of one resource.now) held.now }
{
    held.iter().any(|one| meets(one, resource))
}

/// Whether two lists of resources share something.
pub fn do_meet(one: &[Resource], other: &[Resource]) -> bool
    ensures { result ≡ list_any (λ resource. list_any (λ held. meets_of held resource) one.now) other.now }
{
    other.iter().any(|resource| meets_some(one, resource))
}

/// Whether a grant ends before another begins.
pub fn ends_before(one: &Grant, other: &Grant) -> bool
    ensures { IsTrue result → EndsBefore one.now other.now }
{
    match one.end {
        Some(end) => end < other.start,
        None => false,
    }
}

/// Checks that the first grant ends before the second begins, or that they hold nothing together.
pub fn check_apart<A: Abort>(
    rt: &A,
    alloc: Global,
    world: &World,
    first: &Grant,
    second: &Grant,
) -> Result<(), Fail>
    requires sound { IsSoundCatalog world.now }
    requires labels { first.now.label ≢ second.now.label }
    requires begins { IfSome first.now.end (λ end. first.now.start ≤ end) }
    requires follows { IfSome second.now.end (λ end. second.now.start ≤ end) }
    ensures { IfOk result (λ done. IsApart world.now (first.now ∷ second.now ∷ [])) }
{
    let one = held(rt, alloc, world, first)?;
    let other = held(rt, alloc, world, second)?;
    if ends_before(first, second) {
        return Ok(());
    }
    if do_meet(one.as_slice(), other.as_slice()) {
        panic!(rt; "the grants meet");
    }
    Ok(())
}

/// A grant to the load of a label, of the bundle at this place of the catalog, from the slot `start` on. It
/// ends in the slot `end`, or never.
pub fn grant(label: Label, bundle: u16, start: u64, end: Option<u64>) -> Grant
    ensures { result ≡ record { label = label; bundle = bundle; start = start; end = end } }
{
    Grant {
        label,
        bundle,
        start,
        end,
    }
}
