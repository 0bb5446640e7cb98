//! The command `run`.

ghost use Rattle.std.specs.Prelude.{◌≡◌, Err, None, Some, IfOk};
ghost use Rattle.clap.specs.Walk.{texts};
ghost use Rattle.clap.specs.Words.{app_of, found_of, rows_of};
ghost use Rattle.command_words.specs.Commands.{run_app};
ghost use Rattle.command_words.specs.Request.{AreInForm, asked_by, run_in};

use crate::arguments::{required, several, state, workers};
use crate::matching::matched;
use crate::request::{MOST_WORKERS, Request, RunWords, WordsFault};
use crate::values::{flag, names, word};
use clap::{ArgMatches, Command};
use soc_base::{LAST_STATED_CYCLE, MOST_SCRIPTS, Text, read_number};
use std::alloc::{AllocError, Global};

// The command and its arguments.
fn run_command<'a>(alloc: Global) -> Result<Command<'a>, AllocError>
    ensures { IfOk result (λ command. app_of command ≡ run_app) }
{
    Command::new(alloc, "run")
        .arg(required(alloc, "platform"))?
        .arg(required(alloc, "budget"))?
        .arg(several(alloc, "script", MOST_SCRIPTS))?
        .arg(workers(alloc))?
        .arg(state(alloc))
}

// What the arguments of the command ask for.
#[tactic(auto, unfolding(crate::specs::Request::run_in))]
fn run_request(alloc: Global, matches: &ArgMatches<'_>) -> Result<Request, WordsFault>
    ensures usage { result ≡ Err WordsFault.Usage → run_in (rows_of (found_of matches.now)) ≡ None }
    ensures request { IfOk result (λ request. run_in (rows_of (found_of matches.now)) ≡ Some request) }
    ensures in_form { IfOk result AreInForm }
{
    let (Ok(budget), Ok(workers)) = (
        read_number(word(matches, "budget").as_bytes(), LAST_STATED_CYCLE),
        read_number(word(matches, "workers").as_bytes(), MOST_WORKERS),
    ) else {
        return Err(WordsFault::Usage);
    };
    let (Ok(platform), Ok(scripts)) = (
        Text::from_str(alloc, word(matches, "platform")),
        names(alloc, matches, "script"),
    ) else {
        return Err(WordsFault::NoMemory);
    };
    if scripts.len() == 0 || scripts.len() > MOST_SCRIPTS {
        return Err(WordsFault::Usage);
    }
    Ok(Request::Run(RunWords {
        platform,
        budget,
        scripts,
        workers: workers as u8,
        state: flag(matches, "state"),
    }))
}

// Reads words of which the first is `run`.
pub(crate) fn read_run<'a>(alloc: Global, words: &'a [&'a str]) -> Result<Request, WordsFault>
    ensures usage { result ≡ Err WordsFault.Usage → asked_by run_app run_in (texts words.entry.now) ≡ None }
    ensures request { IfOk result (λ request. asked_by run_app run_in (texts words.entry.now) ≡ Some request) }
    ensures in_form { IfOk result AreInForm }
{
    let Ok(command) = run_command(alloc) else {
        return Err(WordsFault::NoMemory);
    };
    match matched(command, words) {
        Ok(matches) => run_request(alloc, &matches),
        Err(fault) => Err(fault),
    }
}
