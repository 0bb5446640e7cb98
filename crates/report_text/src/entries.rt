//! The entries of a history.

ghost use Rattle.std.specs.Prelude.{◌≡◌, ◌≤◌, ◌++◌, codes, decimal};
ghost use Rattle.std.specs.Option.{option_copied};
ghost use Rattle.std.specs.List.{flat_map};
ghost use Rattle.arrayvec.specs.ArrayString.{array_string_len};
ghost use Rattle.vep_manager.specs.History.{numbered, commands_of};
ghost use Rattle.report_text.specs.Rows.{line_end};
ghost use Rattle.report_text.specs.Commands.{command_text, pair_text, reply_text, entry_text};
ghost use Rattle.soc_io.specs.Printing.{PrintsMore};

use crate::commands::{push_pair, push_reply};
use script_file::Command;
use soc_base::{Line, push_number};
use soc_io::{Printer, Sink};
use vep_manager::{Entry, Reply, Setup};

// The item of a number, counted from 1, if there is one.
fn numbered_item<T>(items: &[T], number: usize) -> Option<&T>
    ensures { option_copied result ≡ numbered items.now number }
{
    if number == 0 {
        return None;
    }
    items.get(number - 1)
}

// The command that an entry is of, if there is one.
fn command_of<'s>(setup: &'s Setup, entry: &Entry) -> Option<&'s Command>
    ensures { option_copied result ≡ numbered (commands_of setup.entry.now entry.now.session) entry.now.index }
{
    let script = numbered_item(setup.scripts.as_slice(), usize::from(entry.session))?;
    numbered_item(script.commands.as_slice(), usize::from(entry.index))
}

// How an entry's line begins.
fn entry_front(entry: &Entry) -> Line
    ensures text { result.bytes ≡ codes "command " ++ pair_text entry.now.session entry.now.index ++ codes " " }
    ensures len { array_string_len result ≤ 60 }
{
    let mut line = Line::new();
    line.push_str("command ");
    push_pair(&mut line, u64::from(entry.session), u64::from(entry.index));
    line.push_str(" ");
    line
}

/// Makes the end of an entry's line: its reply, in slots of so many cycles.
pub fn entry_back(slot_cycles: u8, reply: Reply) -> Line
    ensures text { result.bytes ≡ codes ": " ++ reply_text slot_cycles reply ++ line_end }
    ensures len { array_string_len result ≤ 210 }
{
    let mut line = Line::new();
    line.push_str(": ");
    push_reply(&mut line, slot_cycles, reply);
    line.push_str("\n");
    line
}

// A cycle that a command states, and the end of the line.
fn at_line(cycle: u64, back: &Line) -> Line
    requires { array_string_len back.now ≤ 210 }
    ensures text { result.bytes ≡ codes " at " ++ decimal cycle ++ back.now.bytes }
    ensures len { array_string_len result ≤ 240 }
{
    let mut line = Line::new();
    line.push_str(" at ");
    push_number(&mut line, cycle);
    line.push_str(back.as_str());
    line
}

/// Prints a command between the front of its line, of at most 60 bytes, and the back, of at most 210.
pub fn put_command<S: Sink>(
    printer: &mut Printer<'_, S>,
    mut front: Line,
    command: &Command,
    back: &Line,
)
    requires front { array_string_len front ≤ 60 }
    requires back { array_string_len back.now ≤ 210 }
    ensures printed { PrintsMore S.written S.faults printer.old printer.new (front.bytes ++ command_text command.now ++ back.now.bytes) }
    ensures same { printer.new.sink.ghost_name ≡ printer.old.sink.ghost_name }
{
    match command {
        Command::Load { name, cycle } => {
            front.push_str("load ");
            printer.put_named(
                front.as_str(),
                name.as_str(),
                at_line(*cycle, back).as_str(),
            );
        }
        Command::Stop { load, cycle } => {
            front.push_str("stop ");
            push_number(&mut front, u64::from(*load));
            printer.put_named(front.as_str(), "", at_line(*cycle, back).as_str());
        }
        Command::Until { cycle } => {
            front.push_str("until ");
            push_number(&mut front, *cycle);
            printer.put_named(front.as_str(), "", back.as_str());
        }
    }
}

/// Prints an entry of a history of the setup.
#[tactic(auto, unfolding(crate::specs::Commands::entry_text))]
pub fn put_entry<S: Sink>(printer: &mut Printer<'_, S>, setup: &Setup, entry: &Entry)
    ensures printed { PrintsMore S.written S.faults printer.old printer.new (entry_text setup.now entry.now) }
    ensures same { printer.new.sink.ghost_name ≡ printer.old.sink.ghost_name }
{
    let front = entry_front(entry);
    let back = entry_back(setup.world.platform.slot_cycles, entry.reply);
    match command_of(setup, entry) {
        Some(command) => put_command(printer, front, command, &back),
        None => printer.put_named(front.as_str(), "", back.as_str()),
    }
}

/// Prints a history.
pub fn put_history<S: Sink>(printer: &mut Printer<'_, S>, setup: &Setup, history: &[Entry])
    ensures printed { PrintsMore S.written S.faults printer.old printer.new (flat_map (entry_text setup.now) history.now) }
    ensures same { printer.new.sink.ghost_name ≡ printer.old.sink.ghost_name }
{
    for entry in history {
        put_entry(printer, setup, entry);
    }
}
