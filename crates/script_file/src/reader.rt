//! Reading a whole script.

ghost use Rattle.std.specs.Prelude.{◌≡◌, ◌+◌, ◌<◌, ◌≤◌, ◌^◌, ◌-◌, [], length, All, IfOk, OnOk};
ghost use Rattle.std.specs.List.{cons_option};
ghost use Rattle.script_file.specs.Commands.{script_meant, AnswersMeaning, IsStated};
ghost use Rattle.script_file.specs.inner.Keeping.{kept_with};

use crate::command::{Command, Script};
use crate::line::judge;
use crate::rules::ScriptFault;
use soc_base::{Items, MOST_FILE_BYTES, NoMemory};
use std::alloc::Global;

/// Reads a script of at most 4,194,304 bytes, where there is room for so many commands. Refuses with
/// the first line that breaks a rule and the least rule that it breaks, or else where there are more
/// commands than there is room for.
#[tactic(auto, unfolding(crate::specs::Commands::script_meant))]
pub fn read_script(alloc: Global, bytes: &[u8], room: u16) -> Result<Script, ScriptFault>
    requires { length bytes.now ≤ MOST_FILE_BYTES }
    ensures meaning { AnswersMeaning (script_meant bytes.now room) result }
    ensures few { IfOk result (λ script. length script.commands ≤ room) }
    ensures stated { IfOk result (λ script. All IsStated script.commands) }
{
    let mut kept = Kept {
        commands: Items::new(alloc),
        count: 0,
    };
    let mut number = 1;
    for line in bytes.split(|byte| *byte == b'\n') {
        let Ok(meaning) = judge(alloc, line) else {
            return Err(ScriptFault::NoMemory);
        };
        match meaning {
            Ok(command) => {
                let Ok(()) = kept.add(command, room) else {
                    return Err(ScriptFault::NoMemory);
                };
            }
            Err(rule) => return Err(ScriptFault::Line(number, rule)),
        }
        number += 1;
    }
    if kept.count > u32::from(room) {
        return Err(ScriptFault::TooMany);
    }
    Ok(Script {
        commands: kept.commands,
    })
}

// The commands of the lines so far.
#[derive(Drop)]
struct Kept {
    // Those that there is room for.
    commands: Items<Command>,
    // How many there are.
    count: u32,
}

impl Kept {
    // Counts the command of a line, where there is one, and keeps it where there is room.
    fn add(&mut self, command: Option<Command>, room: u16) -> Result<(), NoMemory>
        requires { self.old.count < 2 ^ 32 - 1 }
        ensures count { OnOk result (self.new.count ≡ self.old.count + length (cons_option command [])) }
        ensures commands { OnOk result (self.new.commands ≡ kept_with self.old.commands self.old.count room command) }
    {
        let Some(command) = command else {
            return Ok(());
        };
        if self.count < u32::from(room) {
            self.commands.push(command)?;
        }
        self.count += 1;
        Ok(())
    }
}
