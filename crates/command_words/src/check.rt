//! The command `check`.

ghost use Rattle.std.specs.Prelude.{◌≡◌, Err, None, Some, IfOk};
ghost use Rattle.clap.specs.Walk.{texts};
ghost use Rattle.clap.specs.Words.{app_of, found_of, rows_of};
ghost use Rattle.command_words.specs.Commands.{check_app};
ghost use Rattle.command_words.specs.Request.{AreInForm, asked_by, check_in};

use crate::arguments::{required, several};
use crate::matching::matched;
use crate::request::{CheckWords, MOST_CHECKED, Request, WordsFault};
use crate::values::{names, word};
use clap::{ArgMatches, Command};
use soc_base::Text;
use std::alloc::{AllocError, Global};

// The command and its arguments.
fn check_command<'a>(alloc: Global) -> Result<Command<'a>, AllocError>
    ensures { IfOk result (λ command. app_of command ≡ check_app) }
{
    Command::new(alloc, "check")
        .arg(required(alloc, "platform"))?
        .arg(several(alloc, "bundle", MOST_CHECKED))
}

// What the arguments of the command ask for.
#[tactic(auto, unfolding(crate::specs::Request::check_in))]
fn check_request(alloc: Global, matches: &ArgMatches<'_>) -> Result<Request, WordsFault>
    ensures usage { result ≡ Err WordsFault.Usage → check_in (rows_of (found_of matches.now)) ≡ None }
    ensures request { IfOk result (λ request. check_in (rows_of (found_of matches.now)) ≡ Some request) }
    ensures in_form { IfOk result AreInForm }
{
    let (Ok(platform), Ok(bundles)) = (
        Text::from_str(alloc, word(matches, "platform")),
        names(alloc, matches, "bundle"),
    ) else {
        return Err(WordsFault::NoMemory);
    };
    if bundles.len() == 0 || bundles.len() > MOST_CHECKED {
        return Err(WordsFault::Usage);
    }
    Ok(Request::Check(CheckWords { platform, bundles }))
}

// Reads words of which the first is `check`.
pub(crate) fn read_check<'a>(alloc: Global, words: &'a [&'a str]) -> Result<Request, WordsFault>
    ensures usage { result ≡ Err WordsFault.Usage → asked_by check_app check_in (texts words.entry.now) ≡ None }
    ensures request { IfOk result (λ request. asked_by check_app check_in (texts words.entry.now) ≡ Some request) }
    ensures in_form { IfOk result AreInForm }
{
    let Ok(command) = check_command(alloc) else {
        return Err(WordsFault::NoMemory);
    };
    match matched(command, words) {
        Ok(matches) => check_request(alloc, &matches),
        Err(fault) => Err(fault),
    }
}
