//! The arguments of commands, as `clap` takes them.

ghost use Rattle.std.specs.Prelude.{◌≡◌, ◌≤◌, false};
ghost use Rattle.clap.specs.Words.{rule_of};
ghost use Rattle.command_words.specs.Commands.{required_rule, several_rule, workers_rule, state_rule};

use clap::{Arg, ArgAction};
use std::alloc::Global;

// An argument that has to be given, by its place.
pub(crate) fn required<'a>(alloc: Global, id: &'a str) -> Arg<'a>
    ensures rule { rule_of result ≡ required_rule id.entry.now }
    ensures local { result.global ≡ false }
{
    Arg::new(alloc, id).required(true).action(ArgAction::Set)
}

// An argument that has to be given, of one to `most` words.
pub(crate) fn several<'a>(alloc: Global, id: &'a str, most: usize) -> Arg<'a>
    requires { 1 ≤ most }
    ensures rule { rule_of result ≡ several_rule id.entry.now most }
    ensures local { result.global ≡ false }
{
    Arg::new(alloc, id)
        .required(true)
        .action(ArgAction::Append)
        .num_args(1..=most)
}

// `--workers N`.
pub(crate) fn workers<'a>(alloc: Global) -> Arg<'a>
    ensures rule { rule_of result ≡ workers_rule }
    ensures local { result.global ≡ false }
{
    Arg::new(alloc, "workers")
        .long("workers")
        .action(ArgAction::Set)
        .default_value("2")
}

// `--state`.
pub(crate) fn state<'a>(alloc: Global) -> Arg<'a>
    ensures rule { rule_of result ≡ state_rule }
    ensures local { result.global ≡ false }
{
    Arg::new(alloc, "state")
        .long("state")
        .action(ArgAction::SetTrue)
}
