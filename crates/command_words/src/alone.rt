//! The command `alone`.

ghost use Rattle.std.specs.Prelude.{◌≡◌, Err, None, Some, IfOk};
ghost use Rattle.clap.specs.Walk.{texts};
ghost use Rattle.clap.specs.Words.{app_of, found_of, rows_of};
ghost use Rattle.command_words.specs.Commands.{alone_app};
ghost use Rattle.command_words.specs.Request.{AreInForm, asked_by, alone_in};

use crate::arguments::required;
use crate::matching::matched;
use crate::request::{AloneWords, Request, WordsFault};
use crate::values::word;
use clap::{ArgMatches, Command};
use soc_base::{LAST_STATED_CYCLE, Text, read_number};
use std::alloc::{AllocError, Global};

// The command and its arguments.
fn alone_command<'a>(alloc: Global) -> Result<Command<'a>, AllocError>
    ensures { IfOk result (λ command. app_of command ≡ alone_app) }
{
    Command::new(alloc, "alone")
        .arg(required(alloc, "platform"))?
        .arg(required(alloc, "bundle"))?
        .arg(required(alloc, "start"))?
        .arg(required(alloc, "budget"))
}

// What the arguments of the command ask for.
#[tactic(auto, unfolding(crate::specs::Request::alone_in))]
fn alone_request(alloc: Global, matches: &ArgMatches<'_>) -> Result<Request, WordsFault>
    ensures usage { result ≡ Err WordsFault.Usage → alone_in (rows_of (found_of matches.now)) ≡ None }
    ensures request { IfOk result (λ request. alone_in (rows_of (found_of matches.now)) ≡ Some request) }
    ensures in_form { IfOk result AreInForm }
{
    let (Ok(start), Ok(budget)) = (
        read_number(word(matches, "start").as_bytes(), LAST_STATED_CYCLE),
        read_number(word(matches, "budget").as_bytes(), LAST_STATED_CYCLE),
    ) else {
        return Err(WordsFault::Usage);
    };
    let (Ok(platform), Ok(bundle)) = (
        Text::from_str(alloc, word(matches, "platform")),
        Text::from_str(alloc, word(matches, "bundle")),
    ) else {
        return Err(WordsFault::NoMemory);
    };
    Ok(Request::Alone(AloneWords {
        platform,
        bundle,
        start,
        budget,
    }))
}

// Reads words of which the first is `alone`.
pub(crate) fn read_alone<'a>(alloc: Global, words: &'a [&'a str]) -> Result<Request, WordsFault>
    ensures usage { result ≡ Err WordsFault.Usage → asked_by alone_app alone_in (texts words.entry.now) ≡ None }
    ensures request { IfOk result (λ request. asked_by alone_app alone_in (texts words.entry.now) ≡ Some request) }
    ensures in_form { IfOk result AreInForm }
{
    let Ok(command) = alone_command(alloc) else {
        return Err(WordsFault::NoMemory);
    };
    match matched(command, words) {
        Ok(matches) => alone_request(alloc, &matches),
        Err(fault) => Err(fault),
    }
}
