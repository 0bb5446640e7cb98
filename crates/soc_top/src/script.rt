//! Reading and judging the scripts of a run. A file is read where it is first named, and its bytes are
//! kept: where it is named again they are judged again, since another session has room for other commands.

ghost use Rattle.std.specs.Prelude.{◌≡◌, ◌≤◌, ◌++◌, ◌∷◌, [], length, find, IfOk, IfErr, OnOk};
ghost use Rattle.std.specs.Option.{option_copied};
ghost use Rattle.std.specs.Str.{bytes_eq};
ghost use Rattle.platform_model.specs.declared.platform.Platform.{Platform};
ghost use Rattle.soc_top.specs.Wants.{Means, Gives, Refuses};
ghost use Rattle.soc_top.specs.Wants.Want.{ScriptWant};
ghost use Rattle.soc_top.specs.Wants.Input.{ScriptRead};
ghost use Rattle.soc_top.specs.Order.{Cause};
ghost use Rattle.soc_top.specs.Run.{scripts_order};
ghost use Rattle.soc_top.specs.inner.Loading.{FaultsScript, AreKept};
ghost use Rattle.soc_top.specs.inner.Naming.{InTime, IsAdded, AreScripts};

use crate::fault::TopFault;
use crate::file::{Content, copied, read_file};
use script_file::{Script, ScriptFault, read_script};
use soc_base::{Items, MOST_COMMANDS, MOST_FILE_BYTES, NoMemory, Text};
use soc_io::Files;
use std::alloc::Global;

/// The bytes of a script's file.
#[derive(Debug, Drop)]
pub struct Source {
    /// The file's name.
    pub name: Text,
    /// Its bytes.
    pub bytes: Items<u8>,
}

// Judges the bytes of a script of a name.
#[tactic(auto, using(crate::proofs::Scripts::cycles_stated))]
fn judge_script(alloc: Global, name: &Text, bytes: &[u8], room: u16) -> Result<Script, TopFault>
    requires { length bytes.now ≤ MOST_FILE_BYTES }
    ensures means { IfOk result (λ script. Means (ScriptWant name.now room) bytes.now (ScriptRead script)) }
    ensures few { IfOk result (λ script. length script.commands ≤ room) }
    ensures in_time { IfOk result InTime }
    ensures faults { IfErr result (FaultsScript name.now room bytes.now) }
{
    match read_script(alloc, bytes, room) {
        Ok(script) => Ok(script),
        Err(ScriptFault::NoMemory) => Err(TopFault::NoMemory),
        Err(fault) => Err(TopFault::Script(copied(alloc, name)?, fault)),
    }
}

// The bytes that were kept of a name, if there are any.
fn kept<'a>(sources: &'a [Source], name: &Text) -> Option<&'a Source>
    ensures { option_copied result ≡ find (λ source. bytes_eq source.name name.now) sources.entry.now }
{
    sources
        .iter()
        .find(|source| source.name.as_str() == name.as_str())
}

// Keeps the bytes of a script's file.
fn keep(
    alloc: Global,
    name: &Text,
    bytes: Items<u8>,
    sources: &mut Vec<Source>,
) -> Result<(), NoMemory>
    ensures { OnOk result (sources.new.items ≡ sources.old.items ++ (record { name = name.now; bytes = bytes }) ∷ []) }
{
    let name = copied(alloc, name)?;
    sources.push(Source { name, bytes })?;
    Ok(())
}

// Reads and judges a script of which no bytes were kept, and keeps them.
#[tactic(auto, using(crate::proofs::Missing::missed, crate::proofs::Sources::faulty_script, crate::proofs::Sources::one_more_kept))]
fn first_script<F: Files>(
    alloc: Global,
    name: &Text,
    room: u16,
    sources: &mut Vec<Source>,
    files: &mut F,
) -> Result<Script, TopFault>
    requires { AreKept (F.holds files.now) sources.now.items }
    ensures same { F.holds files.new ≡ F.holds files.old }
    ensures counted { F.faults files.old ≤ F.faults files.new }
    ensures kept { OnOk result (AreKept (F.holds files.old) sources.new.items) }
    ensures gives { IfOk result (λ script. Gives (F.holds files.old) (ScriptWant name.now room) (ScriptRead script)) }
    ensures few { IfOk result (λ script. length script.commands ≤ room) }
    ensures in_time { IfOk result InTime }
    ensures refused { IfErr result (Refuses (F.holds files.old) (F.faults files.old) (F.faults files.new)
        (ScriptWant name.now room)) }
{
    let bytes = match read_file(alloc, name, files) {
        Ok(Content::Whole(bytes)) => bytes,
        Ok(Content::TooLong) => return Err(TopFault::ScriptTooLong(copied(alloc, name)?)),
        Err(fault) => return Err(fault),
    };
    let script = match judge_script(alloc, name, bytes.as_slice(), room) {
        Ok(script) => script,
        Err(fault) => return Err(fault),
    };
    keep(alloc, name, bytes, sources)?;
    Ok(script)
}

// Judges a script, for which its file is read if no bytes of it were kept.
#[tactic(auto, using(crate::proofs::Sources::faulty_script, crate::proofs::Sources::found_kept))]
fn next_script<F: Files>(
    alloc: Global,
    name: &Text,
    room: u16,
    sources: &mut Vec<Source>,
    files: &mut F,
) -> Result<Script, TopFault>
    requires { AreKept (F.holds files.now) sources.now.items }
    ensures same { F.holds files.new ≡ F.holds files.old }
    ensures counted { F.faults files.old ≤ F.faults files.new }
    ensures kept { OnOk result (AreKept (F.holds files.old) sources.new.items) }
    ensures gives { IfOk result (λ script. Gives (F.holds files.old) (ScriptWant name.now room) (ScriptRead script)) }
    ensures few { IfOk result (λ script. length script.commands ≤ room) }
    ensures in_time { IfOk result InTime }
    ensures refused { IfErr result (Refuses (F.holds files.old) (F.faults files.old) (F.faults files.new)
        (ScriptWant name.now room)) }
{
    match kept(sources.as_slice(), name) {
        Some(source) => judge_script(alloc, name, source.bytes.as_slice(), room),
        None => first_script(alloc, name, room, sources, files),
    }
}

// Judges a script and appends it. Answers how many commands there is room for after it.
fn add_script<F: Files>(
    alloc: Global,
    name: &Text,
    room: u16,
    sources: &mut Vec<Source>,
    scripts: &mut Vec<Script>,
    files: &mut F,
) -> Result<u16, TopFault>
    requires { AreKept (F.holds files.now) sources.now.items }
    ensures same { F.holds files.new ≡ F.holds files.old }
    ensures counted { F.faults files.old ≤ F.faults files.new }
    ensures kept { OnOk result (AreKept (F.holds files.old) sources.new.items) }
    ensures added { IfOk result (IsAdded (F.holds files.old) name.now room scripts.old.items scripts.new.items) }
    ensures refused { IfErr result (Refuses (F.holds files.old) (F.faults files.old) (F.faults files.new)
        (ScriptWant name.now room)) }
{
    let script = match next_script(alloc, name, room, sources, files) {
        Ok(script) => script,
        Err(fault) => return Err(fault),
    };
    let left = room - script.commands.len() as u16;
    match scripts.push(script) {
        Ok(()) => Ok(left),
        Err(_) => Err(TopFault::NoMemory),
    }
}

/// Reads and judges the scripts of these names in order, each with room for what those before it leave of
/// `MOST_COMMANDS` commands. Refuses by the first that is absent, unread, too long or has a fault.
pub fn load_scripts<F: Files>(
    alloc: Global,
    names: &[Text],
    files: &mut F,
) -> Result<Vec<Script>, TopFault>
    ensures same { F.holds files.new ≡ F.holds files.old }
    ensures counted { F.faults files.old ≤ F.faults files.new }
    ensures read { IfOk result (λ scripts. AreScripts (F.holds files.old) names.now scripts.items) }
    ensures stopped { IfErr result (λ fault. (platform : Platform)
        → Cause (F.holds files.old) (F.faults files.old) (F.faults files.new) (scripts_order platform names.now [])
        fault) }
{
    let mut sources = Vec::new(alloc);
    let mut scripts = Vec::new(alloc);
    let mut room = MOST_COMMANDS;
    for name in names {
        match add_script(alloc, name, room, &mut sources, &mut scripts, files) {
            Ok(left) => room = left,
            Err(fault) => return Err(fault),
        }
    }
    Ok(scripts)
}
