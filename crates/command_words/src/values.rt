//! What words give an argument.

ghost use Rattle.std.specs.Prelude.{◌≡◌, IfOk};
ghost use Rattle.clap.specs.Walk.{texts};
ghost use Rattle.clap.specs.Words.{found_of, rows_of};
ghost use Rattle.command_words.specs.Request.{word_of, words_of, is_set};

use clap::ArgMatches;
use soc_base::{Items, NoMemory, Text};
use std::alloc::Global;

// The word of an argument of one word, empty where it isn't given.
pub(crate) fn word<'a>(matches: &ArgMatches<'a>, id: &str) -> &'a str
    ensures { result.now ≡ word_of id.now (rows_of (found_of matches.now)) }
{
    match matches.get_str(id) {
        Some(word) => word,
        None => "",
    }
}

// Whether a flag is set.
pub(crate) fn flag(matches: &ArgMatches<'_>, id: &str) -> bool
    ensures { result ≡ is_set id.now (rows_of (found_of matches.now)) }
{
    match matches.get_one::<bool>(id) {
        Some(value) => value,
        None => false,
    }
}

// Copies of the words of an argument of several.
pub(crate) fn names(
    alloc: Global,
    matches: &ArgMatches<'_>,
    id: &str,
) -> Result<Items<Text>, NoMemory>
    ensures { IfOk result (λ names. names ≡ words_of id.now (rows_of (found_of matches.now))) }
{
    match matches.get_strs(id) {
        Some(words) => copies_of(alloc, words),
        None => Ok(Items::new(alloc)),
    }
}

// Copies of words.
fn copies_of(alloc: Global, words: &[&str]) -> Result<Items<Text>, NoMemory>
    ensures { IfOk result (λ copies. copies ≡ texts words.now) }
{
    let mut copies = Items::new(alloc);
    for word in words {
        copies.push(Text::from_str(alloc, word)?)?;
    }
    Ok(copies)
}
