//! The loads by name, and the grants that replies give and end.

ghost use Rattle.std.specs.Prelude.{◌≡◌, ◌≢◌, ◌≤◌, find, map, length, position, AllPairs, IfSome, Some};
ghost use Rattle.std.specs.Option.{option_copied, option_to_list};
ghost use Rattle.bundle_model.specs.Grants.{lasts_to};
ghost use Rattle.bundle_model.specs.World.{same_label};
ghost use Rattle.vep_manager.specs.Loads.{loaded_name, loaded_names};
ghost use Rattle.vep_manager.specs.Owners.{CanAdd};
ghost use Rattle.vep_manager.specs.History.{loaded_place, end_by, end_in, grant_by};
ghost use Rattle.vep_manager.specs.inner.Keeping.{ended_by, grants_after, is_open_of, opened_by};

use crate::owners::OwnerIndex;
use crate::reply::{Entry, Reply};
use crate::setup::Setup;
use bundle_model::{Grant, LoadName};
use script_file::Command;
use soc_base::{Label, MOST_COMMANDS};

// 1 for a load, 0 for another command.
fn load_in(command: &Command) -> usize
    ensures { result ≡ length (option_to_list (loaded_name command.now)) }
{
    match command {
        Command::Load { .. } => 1,
        Command::Stop { .. } | Command::Until { .. } => 0,
    }
}

/// Answers how many of some commands are loads.
#[tactic(auto, using(crate::proofs::Growth::loads_more))]
pub fn load_count(commands: &[Command]) -> usize
    requires { length commands.now ≤ MOST_COMMANDS }
    ensures count { result ≡ length (loaded_names commands.now) }
    ensures few { result ≤ MOST_COMMANDS }
{
    let mut loads = 0;
    for command in commands {
        loads += load_in(command);
    }
    loads
}

/// Answers the load of a label, if there is one.
pub fn named_load<'s>(loads: &'s [LoadName], label: Label) -> Option<&'s LoadName>
    ensures { option_copied result ≡ find (λ load. same_label load.label label) loads.entry.now }
{
    loads.iter().find(|load| load.label == label)
}

// The place in the catalog of the bundle that a load names.
fn place_of(setup: &Setup, label: Label) -> u16
    ensures { result ≡ loaded_place setup.now label }
{
    match named_load(setup.loads.as_slice(), label) {
        Some(load) => load.bundle,
        None => 0,
    }
}

/// Answers the grant of a label, if there is one.
pub fn named_grant<'g>(grants: &'g [Grant], label: Label) -> Option<&'g Grant>
    ensures { option_copied result ≡ find (λ grant. same_label grant.label label) grants.entry.now }
{
    grants.iter().find(|grant| grant.label == label)
}

// The end that a reply gives a load.
fn reply_end(label: Label, reply: Reply) -> Option<u64>
    ensures { result ≡ end_by label reply }
{
    match reply {
        Reply::Stopped {
            label: stopped,
            end,
        } if stopped == label => Some(end),
        _ => None,
    }
}

// The end of a load, where the history stops it.
fn load_end(history: &[Entry], label: Label) -> Option<u64>
    ensures { result ≡ end_in history.now label }
{
    for entry in history {
        let end = reply_end(label, entry.reply);
        if end.is_some() {
            return end;
        }
    }
    None
}

/// Answers the grant that a reply gives, with its end in the history that the reply stands in.
pub fn reply_grant(setup: &Setup, history: &[Entry], reply: Reply) -> Option<Grant>
    ensures { result ≡ grant_by setup.now history.now reply }
{
    match reply {
        Reply::Granted { label, start } => {
            Some(Grant {
                label,
                bundle: place_of(setup, label),
                start,
                end: load_end(history, label),
            })
        }
        _ => None,
    }
}

/// Answers whether a grant isn't over before a slot.
pub fn lasts(slot: u64, grant: &Grant) -> bool
    ensures { result ≡ lasts_to slot grant.now.end }
{
    match grant.end {
        None => true,
        Some(end) => slot <= end,
    }
}

// Whether a grant is of a label and has no end.
fn is_open(grant: &Grant, label: Label) -> bool
    ensures { result ≡ is_open_of label grant.now }
{
    grant.label == label && grant.end.is_none()
}

// The place of the first grant of a label that has no end, if there is one.
fn first_open(grants: &[Grant], label: Label) -> Option<usize>
    ensures { result ≡ position (is_open_of label) grants.now }
{
    grants.iter().position(|grant| is_open(grant, label))
}

// Gives the grant of a label this end, where it has none.
fn end_open(owners: &mut OwnerIndex<'_>, label: Label, end: u64)
    requires few { length owners.old.grants ≤ MOST_COMMANDS }
    requires labelled { AllPairs (λ one other. one.label ≢ other.label) owners.old.grants }
    ensures { owners.new ≡ record owners.old { grants = map (ended_by (Reply.Stopped label end)) owners.old.grants } }
{
    if let Some(place) = first_open(owners.grants(), label) {
        owners.set_end(place as u16, end);
    }
}

// The grant of a load from a slot on, still open.
fn opened(setup: &Setup, label: Label, start: u64) -> Grant
    ensures { Some result ≡ opened_by setup.now (Reply.Granted label start) }
{
    Grant {
        label,
        bundle: place_of(setup, label),
        start,
        end: None,
    }
}

/// Brings an index of owners up to date with a reply. Takes no memory.
pub fn follow(setup: &Setup, owners: &mut OwnerIndex<'_>, reply: Reply)
    requires same { setup.now ≡ owners.old.setup }
    requires few { length owners.old.grants ≤ MOST_COMMANDS }
    requires labelled { AllPairs (λ one other. one.label ≢ other.label) owners.old.grants }
    requires can { IfSome (opened_by setup.now reply) (CanAdd owners.old) }
    ensures { owners.new ≡ record owners.old { grants = grants_after setup.now reply owners.old.grants } }
{
    match reply {
        Reply::Granted { label, start } => owners.add(setup, &opened(setup, label, start)),
        Reply::Stopped { label, end } => end_open(owners, label, end),
        Reply::Malformed(_)
        | Reply::Past(_)
        | Reply::Taken { .. }
        | Reply::NoLoad
        | Reply::Already(_)
        | Reply::Horizon(_) => {}
    }
}
