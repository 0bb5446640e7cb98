//! The command `generate`.

ghost use Rattle.std.specs.Prelude.{◌≡◌, Err, None, Some, IfOk};
ghost use Rattle.clap.specs.Walk.{texts};
ghost use Rattle.clap.specs.Words.{app_of, found_of, rows_of};
ghost use Rattle.command_words.specs.Commands.{generate_app};
ghost use Rattle.command_words.specs.Request.{AreInForm, asked_by, generate_in};

use crate::arguments::required;
use crate::matching::matched;
use crate::request::{Request, WordsFault};
use crate::values::word;
use clap::{ArgMatches, Command};
use soc_base::read_number;
use std::alloc::{AllocError, Global};

// The command and its argument.
fn generate_command<'a>(alloc: Global) -> Result<Command<'a>, AllocError>
    ensures { IfOk result (λ command. app_of command ≡ generate_app) }
{
    Command::new(alloc, "generate").arg(required(alloc, "number"))
}

// What the argument of the command asks for.
#[tactic(auto, unfolding(crate::specs::Request::generate_in))]
fn generate_request(matches: &ArgMatches<'_>) -> Result<Request, WordsFault>
    ensures usage { result ≡ Err WordsFault.Usage → generate_in (rows_of (found_of matches.now)) ≡ None }
    ensures request { IfOk result (λ request. generate_in (rows_of (found_of matches.now)) ≡ Some request) }
    ensures in_form { IfOk result AreInForm }
{
    match read_number(word(matches, "number").as_bytes(), u64::from(u32::MAX)) {
        Ok(number) => Ok(Request::Generate(number as u32)),
        Err(_) => Err(WordsFault::Usage),
    }
}

// Reads words of which the first is `generate`.
pub(crate) fn read_generate<'a>(alloc: Global, words: &'a [&'a str]) -> Result<Request, WordsFault>
    ensures usage { result ≡ Err WordsFault.Usage → asked_by generate_app generate_in (texts words.entry.now) ≡ None }
    ensures request { IfOk result (λ request. asked_by generate_app generate_in (texts words.entry.now) ≡ Some request) }
    ensures in_form { IfOk result AreInForm }
{
    let Ok(command) = generate_command(alloc) else {
        return Err(WordsFault::NoMemory);
    };
    match matched(command, words) {
        Ok(matches) => generate_request(&matches),
        Err(fault) => Err(fault),
    }
}
