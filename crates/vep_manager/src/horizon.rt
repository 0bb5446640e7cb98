//! How far the sessions have come, and what they promise.

ghost use Rattle.std.specs.Prelude.{◌≡◌, ℕ, ◌≤◌, ◌+◌, ◌==◌, if◌then◌else◌, max, fold, length, slice_get};
ghost use Rattle.std.specs.List.{filter_map};
ghost use Rattle.std.specs.Option.{option_copied, option_to_list};
ghost use Rattle.vep_manager.specs.History.{IsSession, commands_of, count_of, granted_slot, until_slot, promise_of, horizon_with};
ghost use Rattle.vep_manager.specs.inner.Keeping.{counted};

use crate::reply::Entry;
use crate::setup::Setup;
use script_file::Command;
use soc_base::{MOST_COMMANDS, MOST_SCRIPTS, slot_up};

/// Answers how many commands of a session stand in a history.
pub fn count(history: &[Entry], session: u8) -> usize
    ensures { result ≡ count_of history.now session }
{
    history
        .iter()
        .filter(|entry| entry.session == session)
        .count()
}

/// Answers the commands of a session.
pub fn commands<'s>(setup: &'s Setup, session: u8) -> &'s [Command]
    requires { IsSession setup.now session }
    ensures { result.now ≡ commands_of setup.entry.now session }
{
    let script = &setup.scripts.as_slice()[usize::from(session) - 1];
    script.commands.as_slice()
}

/// Answers the command of a session that comes after so many, if there is one.
pub fn command_after<'s>(setup: &'s Setup, session: u8, done: usize) -> Option<&'s Command>
    requires { IsSession setup.now session }
    ensures { option_copied result ≡ slice_get (commands_of setup.entry.now session) done }
{
    commands(setup, session).get(done)
}

/// Answers the slot granted for a cycle.
pub fn slot_for(setup: &Setup, cycle: u64) -> u64
    ensures { result ≡ granted_slot setup.now cycle }
{
    slot_up(cycle, setup.world.platform.slot_cycles)
}

// The slot of an `until`; none for other commands.
fn promised(setup: &Setup, command: &Command) -> Option<u64>
    ensures { result ≡ until_slot setup.now command.now }
{
    match command {
        Command::Until { cycle } => Some(slot_for(setup, *cycle)),
        Command::Load { .. } | Command::Stop { .. } => None,
    }
}

// The greater one of a slot and that of a command, if it is an `until`.
fn raised(setup: &Setup, most: u64, command: &Command) -> u64
    ensures { result ≡ fold (λ most slot. max most slot) most (option_to_list (until_slot setup.now command.now)) }
{
    match promised(setup, command) {
        Some(slot) => most.max(slot),
        None => most,
    }
}

// The greatest slot of the `until` commands among some commands; 0 where there is none.
#[tactic(auto, using(crate::proofs::Growth::greatest_more))]
fn greatest(setup: &Setup, commands: &[Command]) -> u64
    ensures { result ≡ fold (λ most slot. max most slot) 0 (filter_map (until_slot setup.now) commands.now) }
{
    let mut most = 0;
    for command in commands {
        most = raised(setup, most, command);
    }
    most
}

// The slot below which a session asks for nothing any more, where so many of its commands stand in
// the history.
fn promise(setup: &Setup, session: u8, done: usize) -> u64
    requires { IsSession setup.now session }
    ensures { result ≡ promise_of setup.now session done }
{
    let commands = commands(setup, session);
    if commands.len() <= done {
        return setup.budget;
    }
    setup.budget.min(greatest(setup, &commands[..done]))
}

// How many commands of a session stand in a history; one more where the session is `next`.
fn with_next(history: &[Entry], next: Option<u8>, session: u8) -> usize
    requires { length history.now ≤ MOST_COMMANDS }
    ensures { result ≡ counted next history.now session }
{
    let done = count(history, session);
    if next == Some(session) {
        done + 1
    } else {
        done
    }
}

/// Answers the horizon of a history, with one command more of session `next`, if one is given.
pub fn horizon(setup: &Setup, history: &[Entry], next: Option<u8>) -> u64
    requires sessions { length setup.now.scripts ≤ MOST_SCRIPTS }
    requires few { length history.now ≤ MOST_COMMANDS }
    ensures { result ≡ horizon_with setup.now (counted next history.now) }
{
    let end = setup.scripts.len() as u8 + 1;
    let mut least = setup.budget;
    for session in 1..end {
        let done = with_next(history, next, session);
        least = least.min(promise(setup, session, done));
    }
    least
}
