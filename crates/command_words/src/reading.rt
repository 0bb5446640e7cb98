//! The reader of words.

ghost use Rattle.std.specs.Prelude.{◌≡◌, Err, None, Some, IfOk};
ghost use Rattle.clap.specs.Walk.{texts};
ghost use Rattle.command_words.specs.Request.{AreInForm, asked_of, command_word};

use crate::alone::read_alone;
use crate::check::read_check;
use crate::generate::read_generate;
use crate::request::{Request, WordsFault};
use crate::run::read_run;
use soc_base::{NoMemory, Words};
use std::alloc::Global;

/// Reads what words ask for, of which the first is the command and the others are its own:
///
/// - `run PLATFORM BUDGET SCRIPT.. [--workers N] [--state]`, with 1 to 16 scripts and 0 to 32 workers,
/// - `alone PLATFORM BUNDLE START BUDGET`,
/// - `check PLATFORM BUNDLE..`, with 1 to 64 bundles,
/// - `generate NUMBER`, the number below 2^32.
///
/// Cycles are from 0 to 1,000,000,000,000, and numbers are decimal digits. An option stands at any place before
/// a `--`, and once at most. Refuses with `Usage` only where the words ask for nothing.
pub fn read_words(alloc: Global, words: &Words) -> Result<Request, WordsFault>
    ensures usage { result ≡ Err WordsFault.Usage → asked_of words.now ≡ None }
    ensures request { IfOk result (λ request. asked_of words.now ≡ Some request) }
    ensures in_form { IfOk result AreInForm }
{
    let Ok(all) = all_words(alloc, words) else {
        return Err(WordsFault::NoMemory);
    };
    read_all(alloc, all.as_slice())
}

// The words, one after another.
fn all_words<'a>(alloc: Global, words: &'a Words) -> Result<Vec<&'a str>, NoMemory>
    ensures { IfOk result (λ all. texts all.items ≡ words.entry.now) }
{
    let mut all = Vec::new(alloc);
    for n in 0..words.len() {
        all.push(words.word(n))?;
    }
    Ok(all)
}

// Reads words by the command that the first one names.
#[tactic(auto, unfolding(crate::specs::Request::asked_of))]
fn read_all<'a>(alloc: Global, words: &'a [&'a str]) -> Result<Request, WordsFault>
    ensures usage { result ≡ Err WordsFault.Usage → asked_of (texts words.entry.now) ≡ None }
    ensures request { IfOk result (λ request. asked_of (texts words.entry.now) ≡ Some request) }
    ensures in_form { IfOk result AreInForm }
{
    let command = first_word(words);
    if command == "run" {
        read_run(alloc, words)
    } else if command == "alone" {
        read_alone(alloc, words)
    } else if command == "check" {
        read_check(alloc, words)
    } else if command == "generate" {
        read_generate(alloc, words)
    } else {
        Err(WordsFault::Usage)
    }
}

// The first word, empty where there is none.
fn first_word<'a>(words: &[&'a str]) -> &'a str
    ensures { result.now ≡ command_word (texts words.now) }
{
    match words.first() {
        Some(word) => word,
        None => "",
    }
}
