//! The setup of a run of short scripts, on the plain platform or on two tiles.

ghost use Rattle.std.specs.Prelude.{◌≡◌, ◌≤◌, length, nat_lt, All, IfOk};
ghost use Rattle.std.specs.List.{list_all};
ghost use Rattle.bundle_model.specs.WellFormed.{IsWellFormed};
ghost use Rattle.bundle_model.specs.World.{IsSoundCatalog};
ghost use Rattle.vep_manager.specs.Setup.{IsSound};
ghost use Rattle.live_run.specs.inner.Small.{IsSmallCommand, IsSmallScript};

use bundle_model::{Bundle, LoadName, Named, RawBundle, RawPart, World, check};
use platform_model::{Platform, RawLink, RawPlatform};
use script_file::{Command, Script};
use soc_base::{Items, MOST_SCRIPTS, Text};
use std::alloc::Global;
use std::test::Fail;
use vep_manager::{Setup, named_loads};

/// The platform of a run.
#[derive(Clone, Copy)]
pub enum Tiles {
    /// The plain platform, of one tile.
    One,
    /// Two such tiles, joined both ways.
    Joined,
    /// 32 such tiles, each joined to the next one and the last to the first.
    Ring,
}

/// A command, which states a cycle.
#[derive(Clone, Copy)]
pub enum Ask {
    /// Load the only bundle.
    Load(u16),
    /// Stop the session's first load.
    Stop(u16),
    /// Ask for nothing below the cycle.
    Until(u16),
}

// A bundle of one part in partition slot 0 of tile 0 that traces 7 and ends: its instructions take 1, 1, 4 and
// 1 cycles. On the plain platform the slot is served from cycle 72 on, and again 256 cycles later.
fn bundle(alloc: Global, platform: &Platform) -> Result<Bundle, Fail>
    ensures { IfOk result (IsWellFormed platform.now) }
{
    let image = vec![in alloc;
        0x0070_0293, // addi x5, x0, 7
        0x8000_0337, // lui x6, 0x80000
        0x0053_2023, // sw x5, 0(x6)
        0x0000_0073, // ecall
    ]?;
    let part = RawPart {
        tile: 0,
        slots: Items::from_vec(vec![in alloc; 0]?),
        base: 0,
        len: 64,
        image: Some(Items::from_vec(image)),
        entry: 0,
        trace: 16,
        kinds: Items::from_vec(vec![in alloc; Text::from_str(alloc, "word")?]?),
        ports: Items::new(alloc),
    };
    let raw = RawBundle {
        version: 1,
        parts: Items::from_vec(vec![in alloc; part]?),
        pairs: Items::new(alloc),
    };
    Ok(check(alloc, &raw, platform)?)
}

// Output 0 of each tile leads to input 0 of the other.
fn joined(alloc: Global) -> Result<Platform, Fail> {
    let mut raw = RawPlatform::plain(alloc);
    raw.tiles = 2;
    raw.links.push(RawLink {
        from: 0,
        out: 0,
        to: 1,
        input: 0,
    })?;
    raw.links.push(RawLink {
        from: 1,
        out: 0,
        to: 0,
        input: 0,
    })?;
    Ok(Platform::check(alloc, &raw)?)
}

// Output 0 of each tile leads to input 0 of the next.
fn ring(alloc: Global) -> Result<Platform, Fail> {
    let mut raw = RawPlatform::plain(alloc);
    raw.tiles = 32;
    for tile in 0..32i64 {
        raw.links.push(RawLink {
            from: tile,
            out: 0,
            to: (tile + 1) % 32,
            input: 0,
        })?;
    }
    Ok(Platform::check(alloc, &raw)?)
}

fn platform(alloc: Global, tiles: Tiles) -> Result<Platform, Fail> {
    match tiles {
        Tiles::One => Ok(Platform::plain(alloc)?),
        Tiles::Joined => joined(alloc),
        Tiles::Ring => ring(alloc),
    }
}

// The platform and one bundle file.
fn world(alloc: Global, tiles: Tiles) -> Result<World, Fail>
    ensures sound { IfOk result IsSoundCatalog }
    ensures one { IfOk result (λ world. length world.catalog ≡ 1) }
{
    let platform = platform(alloc, tiles)?;
    let named = Named {
        name: Text::from_str(alloc, "app")?,
        judged: Ok(bundle(alloc, &platform)?),
    };
    Ok(World {
        platform,
        catalog: Items::from_vec(vec![in alloc; named]?),
    })
}

// The command that a table asks for.
fn command(alloc: Global, ask: Ask) -> Result<Command, Fail>
    ensures { IfOk result IsSmallCommand }
{
    match ask {
        Ask::Load(cycle) => {
            let name = Text::from_str(alloc, "app")?;
            let cycle = u64::from(cycle);
            Ok(Command::Load { name, cycle })
        }
        Ask::Stop(cycle) => Ok(Command::Stop {
            load: 1,
            cycle: u64::from(cycle),
        }),
        Ask::Until(cycle) => Ok(Command::Until {
            cycle: u64::from(cycle),
        }),
    }
}

// The script of at most 16 commands that a row of a table asks for.
fn script(alloc: Global, asks: &[Ask]) -> Result<Script, Fail>
    ensures { IfOk result IsSmallScript }
{
    let mut commands = Vec::new(alloc);
    for ask in asks {
        commands.push(command(alloc, *ask)?)?;
    }
    if commands.len() > 16 {
        return Err(Fail::new("a script is too long"));
    }
    Ok(Script {
        commands: Items::from_vec(commands),
    })
}

// The scripts that a table asks for.
fn scripts(alloc: Global, table: &[&[Ask]]) -> Result<Items<Script>, Fail>
    ensures { IfOk result (All IsSmallScript) }
{
    let mut scripts = Vec::new(alloc);
    for asks in table {
        scripts.push(script(alloc, asks)?)?;
    }
    Ok(Items::from_vec(scripts))
}

// Whether each load names a bundle file of the catalog.
fn are_known(loads: &[LoadName], world: &World) -> bool
    ensures { result ≡ list_all (λ load. nat_lt load.bundle (length world.now.catalog)) loads.now }
{
    loads
        .iter()
        .all(|load| usize::from(load.bundle) < world.catalog.len())
}

/// The setup of a run of 1 to 16 sessions, each of at most 16 commands, over so many slots, at most 1,000. On
/// these platforms a slot has 8 cycles.
pub fn setup(alloc: Global, tiles: Tiles, table: &[&[Ask]], budget: u64) -> Result<Setup, Fail>
    requires { budget ≤ 1000 }
    ensures { IfOk result IsSound }
{
    let world = world(alloc, tiles)?;
    let scripts = scripts(alloc, table)?;
    if scripts.len() == 0 || scripts.len() > MOST_SCRIPTS {
        return Err(Fail::new("there are no sessions or too many"));
    }
    let list = named_loads(alloc, world.catalog.as_slice(), scripts.as_slice())?;
    let loads = Items::from_vec(list);
    if !are_known(loads.as_slice(), &world) {
        return Err(Fail::new("a load names no bundle file"));
    }
    Ok(Setup {
        world,
        budget,
        scripts,
        loads,
    })
}
