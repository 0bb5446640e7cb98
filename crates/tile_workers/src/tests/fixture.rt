//! The setup of a run of two tiles, of which the one writes to the other, by one session that makes one promise.

ghost use Rattle.std.specs.Prelude.{◌≡◌, ◌<◌, ◌≤◌, length, All, IfOk};
ghost use Rattle.vep_manager.specs.Setup.{IsSound, stated_cycle};

use bundle_model::World;
use platform_model::{Platform, RawLink, RawPlatform};
use script_file::{Command, Script};
use soc_base::Items;
use std::alloc::Global;
use std::test::Fail;
use vep_manager::{Setup, named_loads};

/// The slot at which the run ends.
pub const BUDGET: u64 = 100;

// Two tiles. A link leads from output 0 of tile 0 to input 0 of tile 1, and none leads back.
fn platform(alloc: Global) -> Result<Platform, Fail> {
    let mut raw = RawPlatform::plain(alloc);
    raw.tiles = 2;
    raw.links.push(RawLink {
        from: 0,
        out: 0,
        to: 1,
        input: 0,
    })?;
    Ok(Platform::check(alloc, &raw)?)
}

// One script, which promises to ask for nothing before cycle 8.
fn scripts(alloc: Global) -> Result<Items<Script>, Fail>
    ensures one { IfOk result (λ scripts. length scripts ≡ 1) }
    ensures short { IfOk result (All (λ script. length script.commands ≡ 1)) }
    ensures low { IfOk result (All (λ script. All (λ command. stated_cycle command ≤ 8) script.commands)) }
{
    let promise = Command::Until { cycle: 8 };
    let script = Script {
        commands: Items::from_vec(vec![in alloc; promise]?),
    };
    Ok(Items::from_vec(vec![in alloc; script]?))
}

/// The setup of a run over 100 slots without applications, whose horizon is 0 until the session's command is
/// committed, and then the budget.
pub fn setup(alloc: Global) -> Result<Setup, Fail>
    ensures { IfOk result IsSound }
{
    let world = World {
        platform: platform(alloc)?,
        catalog: Items::new(alloc),
    };
    let scripts = scripts(alloc)?;
    let list = named_loads(alloc, world.catalog.as_slice(), scripts.as_slice())?;
    let loads = Items::from_vec(list);
    if !loads.is_empty() {
        return Err(Fail::new("a script without loads has loads"));
    }
    Ok(Setup {
        world,
        budget: BUDGET,
        scripts,
        loads,
    })
}
