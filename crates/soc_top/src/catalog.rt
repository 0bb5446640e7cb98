//! The bundle files that scripts name, each read once.

ghost use Rattle.std.specs.Prelude.{◌≡◌, ◌≤◌, ◌++◌, ◌∷◌, [], fold, map, IfOk, IfErr, OnOk};
ghost use Rattle.bundle_model.specs.Sets.{names};
ghost use Rattle.soc_top.specs.Wants.{Gives, Refuses};
ghost use Rattle.soc_top.specs.Wants.Want.{JudgedWant};
ghost use Rattle.soc_top.specs.Wants.Input.{BundleRead};
ghost use Rattle.soc_top.specs.Order.{AreRead, Cause};
ghost use Rattle.soc_top.specs.Run.{with_name, bundle_names, bundles_order};
ghost use Rattle.soc_top.specs.inner.Naming.{with_command, all_commands, IsJudged, AreWellFormed};

use crate::fault::TopFault;
use crate::file::load_bundle;
use bundle_model::Named;
use platform_model::Platform;
use script_file::{Command, Script};
use soc_base::{NoMemory, Text};
use soc_io::Files;
use std::alloc::Global;

// Whether a name stands in the list.
fn is_known(known: &[Text], name: &Text) -> bool
    ensures { result ≡ names known.now name.now }
{
    known.iter().any(|other| other.as_str() == name.as_str())
}

/// Appends a name that isn't in the list.
pub fn add_name(alloc: Global, known: &mut Vec<Text>, name: &Text) -> Result<(), NoMemory>
    ensures { OnOk result (known.new.items ≡ with_name known.old.items name.now) }
{
    if !is_known(known.as_slice(), name) {
        known.push(Text::from_str(alloc, name.as_str())?)?;
    }
    Ok(())
}

// Appends the name of the bundle file that a command names, where it isn't in the list.
fn add_named(alloc: Global, known: &mut Vec<Text>, command: &Command) -> Result<(), NoMemory>
    ensures { OnOk result (known.new.items ≡ with_command known.old.items command.now) }
{
    match command {
        Command::Load { name, .. } => add_name(alloc, known, name),
        Command::Stop { .. } | Command::Until { .. } => Ok(()),
    }
}

// Appends the names of the bundle files that a script names, each where it isn't in the list.
fn add_names(alloc: Global, known: &mut Vec<Text>, script: &Script) -> Result<(), NoMemory>
    ensures { OnOk result (known.new.items ≡ fold with_command known.old.items script.now.commands) }
{
    for command in script.commands.as_slice() {
        add_named(alloc, known, command)?;
    }
    Ok(())
}

/// Lists the bundle files that scripts name, each once, where it is named first.
pub fn bundle_names(alloc: Global, scripts: &[Script]) -> Result<Vec<Text>, NoMemory>
    ensures { IfOk result (λ known. known.items ≡ bundle_names (all_commands scripts.now)) }
{
    let mut known = Vec::new(alloc);
    for script in scripts {
        add_names(alloc, &mut known, script)?;
    }
    Ok(known)
}

// Reads and judges a bundle file, and appends it.
#[tactic(auto, using(crate::proofs::Sound::formed_push))]
fn add_bundle<F: Files>(
    alloc: Global,
    platform: &Platform,
    name: &Text,
    files: &mut F,
    catalog: &mut Vec<Named>,
) -> Result<(), TopFault>
    ensures same { F.holds files.new ≡ F.holds files.old }
    ensures counted { F.faults files.old ≤ F.faults files.new }
    ensures judged { OnOk result (IsJudged (F.holds files.old) platform.now name.now catalog.old.items
        catalog.new.items) }
    ensures sound { OnOk result (AreWellFormed platform.now catalog.old.items
        → AreWellFormed platform.now catalog.new.items) }
    ensures refused { IfErr result (Refuses (F.holds files.old) (F.faults files.old) (F.faults files.new)
        (JudgedWant platform.now name.now)) }
{
    let named = match load_bundle(alloc, platform, name, files) {
        Ok(named) => named,
        Err(fault) => return Err(fault),
    };
    match catalog.push(named) {
        Ok(()) => Ok(()),
        Err(_) => Err(TopFault::NoMemory),
    }
}

/// Reads and judges the bundle files of these names, in their order. Refuses by the first that is absent
/// or not read.
pub fn read_catalog<F: Files>(
    alloc: Global,
    platform: &Platform,
    names: &[Text],
    files: &mut F,
) -> Result<Vec<Named>, TopFault>
    ensures same { F.holds files.new ≡ F.holds files.old }
    ensures counted { F.faults files.old ≤ F.faults files.new }
    ensures read { IfOk result (λ catalog. AreRead (F.holds files.old) (bundles_order platform.now names.now)
        (map BundleRead catalog.items)) }
    ensures sound { IfOk result (λ catalog. AreWellFormed platform.now catalog.items) }
    ensures stopped { IfErr result (Cause (F.holds files.old) (F.faults files.old) (F.faults files.new)
        (bundles_order platform.now names.now)) }
{
    let mut catalog = Vec::new(alloc);
    for name in names {
        match add_bundle(alloc, platform, name, files, &mut catalog) {
            Ok(()) => {}
            Err(fault) => return Err(fault),
        }
    }
    Ok(catalog)
}
