//! Judging one line.

ghost use Rattle.std.specs.Prelude.{◌≡◌, [], ◌∷◌, map, take, IfOk, IsTrue};
ghost use Rattle.std.specs.List.{list_all};
ghost use Rattle.std.specs.Str.{bytes_eq};
ghost use Rattle.std.specs.Str.Lines.{strip_carriage_return};
ghost use Rattle.script_file.specs.Lines.{is_blank, words_of};
ghost use Rattle.script_file.specs.Commands.{is_name, is_name_byte as is_byte_of_name, is_between as is_byte_between, line_meaning, command_of, load_command_of, stop_command_of, until_command_of, words_meaning};

use crate::command::Command;
use crate::rules::{MOST_NAME_BYTES, SRule};
use soc_base::{LAST_STATED_CYCLE, MOST_COMMANDS, NoMemory, Text, read_number};
use std::alloc::{AllocError, Global};

/// How many words of a line are looked at: one more than the longest command has, so that a line with
/// too many words is told from it, and memory for words does not grow with the line.
const WORDS_READ: usize = 5;

/// Answers what a line means, given with its carriage return, if it has one: a command, or none in a blank
/// line and in a comment, or the least rule that the line breaks.
pub fn judge(alloc: Global, line: &[u8]) -> Result<Result<Option<Command>, SRule>, NoMemory>
    ensures { IfOk result (λ meaning. meaning ≡ line_meaning (strip_carriage_return line.now)) }
{
    let words = words(alloc, without_return(line))?;
    judge_words(alloc, &words)
}

// The line without one carriage return at its end.
fn without_return(line: &[u8]) -> &[u8]
    ensures { result.now ≡ strip_carriage_return line.now }
{
    match line.split_last() {
        Some((last, front)) if *last == b'\r' => front,
        _ => line,
    }
}

// The first five words of a line.
fn words(alloc: Global, line: &[u8]) -> Result<Vec<&[u8]>, AllocError>
    ensures { IfOk result (λ words. map (λ word. word.now) words.items ≡ take 5 (words_of line.now)) }
{
    line.split(|byte| is_separator(*byte))
        .filter(|word| word.len() > 0)
        .take(WORDS_READ)
        .collect(alloc)
}

// Whether a byte separates words.
fn is_separator(byte: u8) -> bool
    ensures { result ≡ is_blank byte }
{
    byte == b' ' || byte == b'\t'
}

// What the words of a line mean.
fn judge_words(alloc: Global, words: &[&[u8]]) -> Result<Result<Option<Command>, SRule>, NoMemory>
    ensures { let said = map (λ word. word.now) words.now in IfOk result (λ meaning. meaning ≡ words_meaning said) }
{
    match words {
        [] => Ok(Ok(None)),
        [first, ..] if first.starts_with(b"#") => Ok(Ok(None)),
        [key, what, at, cycle] => judge_four(alloc, key, what, at, cycle),
        [key, cycle] => Ok(judge_two(key, cycle)),
        _ => Ok(Err(SRule::S1)),
    }
}

// The command of four words: a load or a stop.
fn judge_four(
    alloc: Global,
    key: &[u8],
    what: &[u8],
    at: &[u8],
    cycle: &[u8],
) -> Result<Result<Option<Command>, SRule>, NoMemory>
    ensures { let said = key.now ∷ what.now ∷ at.now ∷ cycle.now ∷ [] in IfOk result (λ meaning. meaning ≡ command_of said) }
{
    if is_word(key, "load") && is_word(at, "at") {
        return load_command(alloc, what, cycle);
    }
    if is_word(key, "stop") && is_word(at, "at") {
        return Ok(stop_command(what, cycle));
    }
    Ok(Err(SRule::S1))
}

// The command of two words: a promise.
fn judge_two(key: &[u8], cycle: &[u8]) -> Result<Option<Command>, SRule>
    ensures { result ≡ command_of (key.now ∷ cycle.now ∷ []) }
{
    if is_word(key, "until") {
        return until_command(cycle);
    }
    Err(SRule::S1)
}

// Whether a word is this key word.
fn is_word(word: &[u8], key: &str) -> bool
    ensures { result ≡ bytes_eq word.now key.now }
{
    word == key.as_bytes()
}

// The command to load what this name names from this cycle on.
fn load_command(
    alloc: Global,
    name: &[u8],
    cycle: &[u8],
) -> Result<Result<Option<Command>, SRule>, NoMemory>
    ensures { IfOk result (λ meaning. meaning ≡ load_command_of name.now cycle.now) }
{
    if !is_bundle_name(name) {
        return Ok(Err(SRule::S2));
    }
    let Ok(cycle) = read_number(cycle, LAST_STATED_CYCLE) else {
        return Ok(Err(SRule::S3));
    };
    let name = name_text(alloc, name)?;
    Ok(Ok(Some(Command::Load { name, cycle })))
}

// The command to stop what the load command of this number granted, at this cycle.
fn stop_command(load: &[u8], cycle: &[u8]) -> Result<Option<Command>, SRule>
    ensures { result ≡ stop_command_of load.now cycle.now }
{
    let Ok(load) = read_number(load, u64::from(MOST_COMMANDS)) else {
        return Err(SRule::S3);
    };
    let Ok(cycle) = read_number(cycle, LAST_STATED_CYCLE) else {
        return Err(SRule::S3);
    };
    if load == 0 {
        return Err(SRule::S3);
    }
    let load = load as u16;
    Ok(Some(Command::Stop { load, cycle }))
}

// The promise to ask for nothing before this cycle.
fn until_command(cycle: &[u8]) -> Result<Option<Command>, SRule>
    ensures { result ≡ until_command_of cycle.now }
{
    match read_number(cycle, LAST_STATED_CYCLE) {
        Ok(cycle) => Ok(Some(Command::Until { cycle })),
        Err(_) => Err(SRule::S3),
    }
}

// Whether a word is the name of a bundle file.
fn is_bundle_name(word: &[u8]) -> bool
    ensures { result ≡ is_name word.now }
{
    word.len() <= MOST_NAME_BYTES && has_name_bytes(word)
}

// Whether each byte may stand in a name.
fn has_name_bytes(word: &[u8]) -> bool
    ensures { result ≡ list_all is_byte_of_name word.now }
{
    word.iter().all(|byte| is_name_byte(*byte))
}

// Whether a byte may stand in a name.
fn is_name_byte(byte: u8) -> bool
    ensures { result ≡ is_byte_of_name byte }
{
    is_between(byte, b'a', b'z')
        || is_between(byte, b'A', b'Z')
        || is_between(byte, b'0', b'9')
        || byte == b'.'
        || byte == b'_'
        || byte == b'-'
        || byte == b'/'
}

// Whether a byte is from this to that one.
fn is_between(byte: u8, least: u8, most: u8) -> bool
    ensures { result ≡ is_byte_between byte least most }
{
    least <= byte && byte <= most
}

// The text of a name, whose bytes are all ASCII.
#[tactic(auto, using(crate::proofs::Names::IsUtf8_from_name))]
fn name_text(alloc: Global, name: &[u8]) -> Result<Text, NoMemory>
    requires { IsTrue (is_name name.now) }
    ensures { IfOk result (λ text. text ≡ name.now) }
{
    match std::str::from_utf8(name) {
        Ok(name) => Ok(Text::from_str(alloc, name)?),
        Err(_) => unreachable!(),
    }
}
