//! The setup that the files of a `run` give.

ghost use Rattle.std.specs.Prelude.{◌≡◌, ◌*◌, ◌<◌, ◌≤◌, ◌⊎◌, length, map, All, IfOk, IfErr};
ghost use Rattle.soc_base.specs.Time.{slot_up_of};
ghost use Rattle.vep_manager.specs.Setup.{IsSound};
ghost use Rattle.soc_top.specs.declared.fault.TopFault.TheVariants.{NoMemory as Unheld};
ghost use Rattle.command_words.specs.Request.{IsRunInForm};
ghost use Rattle.soc_top.specs.Wants.Input.{BundleRead};
ghost use Rattle.soc_top.specs.Order.{AreRead, Cause};
ghost use Rattle.soc_top.specs.Run.{bundle_names, bundles_order, run_order, GivesSetup};
ghost use Rattle.soc_top.specs.inner.Naming.{all_commands, InTime, catalog_names, AreWellFormed};

use crate::catalog::{bundle_names, read_catalog};
use crate::fault::TopFault;
use crate::file::load_platform;
use crate::script::load_scripts;
use bundle_model::{Named, World};
use command_words::RunWords;
use platform_model::Platform;
use script_file::Script;
use soc_base::{
    Items, LAST_CYCLE, LAST_STATED_CYCLE, MOST_COMMANDS, MOST_SCRIPTS, NoMemory, slot_up,
};
use soc_io::Files;
use std::alloc::Global;
use vep_manager::{Setup, named_loads};

// The slot at which a run ends.
fn end_slot(budget: u64, platform: &Platform) -> u64
    requires { budget ≤ LAST_STATED_CYCLE }
    ensures granted { result ≡ slot_up_of budget platform.now.slot_cycles }
    ensures bounded { result * platform.now.slot_cycles ≤ LAST_CYCLE }
{
    slot_up(budget, platform.slot_cycles)
}

// The setup of a run, of which the catalog has each bundle file that the scripts name.
fn setup_of(
    alloc: Global,
    platform: Platform,
    catalog: Vec<Named>,
    scripts: Vec<Script>,
    budget: u64,
) -> Result<Setup, NoMemory>
    requires names { catalog_names catalog.items ≡ bundle_names (all_commands scripts.items) }
    requires sound { AreWellFormed platform catalog.items }
    requires some { 0 < length scripts.items }
    requires most { length scripts.items ≤ MOST_SCRIPTS }
    requires few { length (all_commands scripts.items) ≤ MOST_COMMANDS }
    requires cycles { All InTime scripts.items }
    requires budget { budget ≤ LAST_STATED_CYCLE }
    ensures platform { IfOk result (λ setup. setup.world.platform ≡ platform) }
    ensures catalog { IfOk result (λ setup. setup.world.catalog ≡ catalog.items) }
    ensures scripts { IfOk result (λ setup. setup.scripts ≡ scripts.items) }
    ensures budget { IfOk result (λ setup. setup.budget ≡ slot_up_of budget platform.slot_cycles) }
    ensures sound { IfOk result IsSound }
{
    let budget = end_slot(budget, &platform);
    let loads = named_loads(alloc, catalog.as_slice(), scripts.as_slice())?;
    let loads = Items::from_vec(loads);
    let catalog = Items::from_vec(catalog);
    let scripts = Items::from_vec(scripts);
    Ok(Setup {
        world: World { platform, catalog },
        budget,
        scripts,
        loads,
    })
}

// Reads and judges the bundle files that scripts name.
fn catalog_of<F: Files>(
    alloc: Global,
    platform: &Platform,
    scripts: &[Script],
    files: &mut F,
) -> Result<Vec<Named>, TopFault>
    ensures same { F.holds files.new ≡ F.holds files.old }
    ensures counted { F.faults files.old ≤ F.faults files.new }
    ensures read { IfOk result (λ catalog. AreRead (F.holds files.old)
        (bundles_order platform.now (bundle_names (all_commands scripts.now))) (map BundleRead catalog.items)) }
    ensures sound { IfOk result (λ catalog. AreWellFormed platform.now catalog.items) }
    ensures stopped { IfErr result (λ fault. (fault ≡ Unheld)
        ⊎ Cause (F.holds files.old) (F.faults files.old) (F.faults files.new)
        (bundles_order platform.now (bundle_names (all_commands scripts.now))) fault) }
{
    let names = bundle_names(alloc, scripts)?;
    read_catalog(alloc, platform, names.as_slice(), files)
}

/// Reads and judges the files of a request, in this order: the platform, each script, and each bundle file
/// in the order of its first naming; a bundle file that breaks a rule is part of the setup as such. Refuses
/// by the first event that does: the platform is absent, unread or breaks a rule; a script is absent, unread,
/// too long or has a fault; a bundle file is absent or unread.
#[tactic(auto, using(crate::proofs::Orders::stopped_first, crate::proofs::Turns::run_memory))]
pub fn read_setup<F: Files>(
    alloc: Global,
    request: &RunWords,
    files: &mut F,
) -> Result<Setup, TopFault>
    requires { IsRunInForm request.now }
    ensures same { F.holds files.new ≡ F.holds files.old }
    ensures counted { F.faults files.old ≤ F.faults files.new }
    ensures read { IfOk result (GivesSetup (F.holds files.old) request.now) }
    ensures sound { IfOk result IsSound }
    ensures stopped { IfErr result (Cause (F.holds files.old) (F.faults files.old) (F.faults files.new)
        (run_order request.now)) }
{
    let platform = match load_platform(alloc, &request.platform, files) {
        Ok(platform) => platform,
        Err(fault) => return Err(fault),
    };
    let scripts = match load_scripts(alloc, request.scripts.as_slice(), files) {
        Ok(scripts) => scripts,
        Err(fault) => return Err(fault),
    };
    let catalog = match catalog_of(alloc, &platform, scripts.as_slice(), files) {
        Ok(catalog) => catalog,
        Err(fault) => return Err(fault),
    };
    let setup = setup_of(alloc, platform, catalog, scripts, request.budget)?;
    Ok(setup)
}
