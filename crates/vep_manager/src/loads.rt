//! The load commands of a run, by name.

ghost use Rattle.std.specs.Prelude.{◌≡◌, ◌≤◌, ◌+◌, ◌<◌, ◌^◌, ◌++◌, length, position, All, IfOk, OnOk};
ghost use Rattle.std.specs.Option.{option_to_list};
ghost use Rattle.std.specs.Str.{bytes_eq};
ghost use Rattle.vep_manager.specs.Loads.{catalog_place, loaded_name, loads_of, loads_of_session};
ghost use Rattle.vep_manager.specs.inner.Loading.{load_as};

use bundle_model::{LoadName, Named};
use script_file::{Command, Script};
use soc_base::{Label, MOST_COMMANDS, MOST_SCRIPTS, NoMemory};
use std::alloc::Global;

// The place of the first bundle file of a name, if there is one.
fn first_of(catalog: &[Named], name: &str) -> Option<usize>
    ensures { result ≡ position (λ named. bytes_eq named.name name.now) catalog.now }
{
    catalog.iter().position(|named| named.name.as_str() == name)
}

// The place of the first bundle file of a name; the length of the catalog where there is none.
fn place(catalog: &[Named], name: &str) -> u16
    requires { length catalog.now < 2 ^ 16 }
    ensures { result ≡ catalog_place catalog.now name.now }
{
    match first_of(catalog, name) {
        Some(place) => place as u16,
        None => catalog.len() as u16,
    }
}

// Appends the load of a command, if it is one, and answers the number of the next load.
fn add_command(
    loads: &mut Vec<LoadName>,
    catalog: &[Named],
    label: Label,
    command: &Command,
) -> Result<u16, NoMemory>
    requires catalog { length catalog.now < 2 ^ 16 }
    requires few { label.load ≤ MOST_COMMANDS }
    ensures added { OnOk result (loads.new.items ≡ loads.old.items ++ load_as catalog.now label command.now) }
    ensures next { IfOk result (λ next. next ≡ label.load + length (option_to_list (loaded_name command.now))) }
{
    match command {
        Command::Load { name, cycle: _ } => {
            let bundle = place(catalog, name.as_str());
            loads.push(LoadName { label, bundle })?;
            Ok(label.load + 1)
        }
        Command::Stop { .. } | Command::Until { .. } => Ok(label.load),
    }
}

// Appends the loads of a session's commands.
fn add_session(
    loads: &mut Vec<LoadName>,
    catalog: &[Named],
    session: u8,
    commands: &[Command],
) -> Result<(), NoMemory>
    requires catalog { length catalog.now < 2 ^ 16 }
    requires few { length commands.now ≤ MOST_COMMANDS }
    ensures { OnOk result (loads.new.items ≡ loads.old.items ++ loads_of_session catalog.now session commands.now) }
{
    let mut load = 1;
    for command in commands {
        load = add_command(loads, catalog, Label { session, load }, command)?;
    }
    Ok(())
}

/// Lists the load commands of scripts, each once: by its session and its number among the session's load
/// commands, both counted from 1, with the place in the catalog of the first bundle file of its name, or the
/// catalog's length where there is none. They come in the order of the sessions, and within a session in that
/// of its script. There are at most 16 scripts, with at most 256 commands each.
#[tactic(auto, unfolding(crate::specs::Loads::loads_of))]
pub fn named_loads(
    alloc: Global,
    catalog: &[Named],
    scripts: &[Script],
) -> Result<Vec<LoadName>, NoMemory>
    requires catalog { length catalog.now < 2 ^ 16 }
    requires scripts { length scripts.now ≤ MOST_SCRIPTS }
    requires commands { All (λ script. length script.commands ≤ MOST_COMMANDS) scripts.now }
    ensures { IfOk result (λ loads. loads.items ≡ loads_of catalog.now scripts.now) }
{
    let mut loads = Vec::new(alloc);
    let mut session = 1;
    for script in scripts {
        add_session(&mut loads, catalog, session, script.commands.as_slice())?;
        session += 1;
    }
    Ok(loads)
}
