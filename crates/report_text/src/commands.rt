//! Pieces of the lines of commands and their replies.

ghost use Rattle.std.specs.Prelude.{◌≡◌, ◌+◌, ◌*◌, ◌≤◌, ◌++◌, length, decimal};
ghost use Rattle.arrayvec.specs.ArrayString.{array_string_len};
ghost use Rattle.report_text.specs.Commands.{label_text, pair_text, resource_text, free_text, reply_text};

use crate::lines::push_cycle;
use bundle_model::Resource;
use soc_base::{Label, Line, push_number};
use vep_manager::Reply;

/// Appends a load, at most 41 bytes.
pub fn push_label(line: &mut Line, label: Label)
    requires { array_string_len line.old + 41 ≤ 512 }
    ensures text { line.new.bytes ≡ line.old.bytes ++ label_text label }
    ensures len { array_string_len line.new ≤ array_string_len line.old + 41 }
{
    push_number(line, u64::from(label.session));
    line.push_str(".");
    push_number(line, u64::from(label.load));
}

/// Appends two numbers, at most 41 bytes.
pub fn push_pair(line: &mut Line, first: u64, second: u64)
    requires { array_string_len line.old + 41 ≤ 512 }
    ensures text { line.new.bytes ≡ line.old.bytes ++ pair_text first second }
    ensures len { array_string_len line.new ≤ array_string_len line.old + 41 }
{
    push_number(line, first);
    line.push_str(" ");
    push_number(line, second);
}

// Appends a resource, at most 80 bytes.
fn push_resource(line: &mut Line, resource: Resource)
    requires { array_string_len line.old + 80 ≤ 512 }
    ensures text { line.new.bytes ≡ line.old.bytes ++ resource_text resource }
    ensures len { array_string_len line.new ≤ array_string_len line.old + 80 }
{
    match resource {
        Resource::Partition { tile, slot } => {
            line.push_str("partition ");
            push_pair(line, u64::from(tile), u64::from(slot));
        }
        Resource::Span { tile, base, len } => {
            line.push_str("span ");
            push_pair(line, u64::from(tile), u64::from(base));
            line.push_str(" ");
            push_number(line, u64::from(len));
        }
        Resource::Port { tile, port } => {
            line.push_str("port ");
            push_pair(line, u64::from(tile), u64::from(port));
        }
        Resource::Inject { tile, slot } => {
            line.push_str("inject ");
            push_pair(line, u64::from(tile), u64::from(slot));
        }
        Resource::LinkSlot { link, slot } => {
            line.push_str("link ");
            push_pair(line, u64::from(link), u64::from(slot));
        }
        Resource::Deliver { tile, slot } => {
            line.push_str("deliver ");
            push_pair(line, u64::from(tile), u64::from(slot));
        }
    }
}

// Appends from when on a resource is free, at most 40 bytes.
fn push_free(line: &mut Line, slot_cycles: u8, free_from: Option<u64>)
    requires { array_string_len line.old + 40 ≤ 512 }
    ensures text { line.new.bytes ≡ line.old.bytes ++ free_text slot_cycles free_from }
    ensures len { array_string_len line.new ≤ array_string_len line.old + 40 }
{
    match free_from {
        Some(slot) => push_cycle(line, slot_cycles, slot),
        None => line.push_str("none"),
    }
}

// Appends a word, and the cycle at which a slot begins: at most 60 bytes.
fn push_at(line: &mut Line, word: &str, slot_cycles: u8, slot: u64)
    requires room { array_string_len line.old + 60 ≤ 512 }
    requires short { length word.now ≤ 20 }
    ensures text { line.new.bytes ≡ line.old.bytes ++ word.now ++ decimal (slot * slot_cycles) }
    ensures len { array_string_len line.new ≤ array_string_len line.old + 60 }
{
    line.push_str(word);
    push_cycle(line, slot_cycles, slot);
}

/// Appends a reply, in slots of so many cycles, at most 200 bytes.
#[tactic(auto, unfolding(crate::specs::Commands::reply_text))]
pub fn push_reply(line: &mut Line, slot_cycles: u8, reply: Reply)
    requires { array_string_len line.old + 200 ≤ 512 }
    ensures text { line.new.bytes ≡ line.old.bytes ++ reply_text slot_cycles reply }
    ensures len { array_string_len line.new ≤ array_string_len line.old + 200 }
{
    match reply {
        Reply::Malformed(rule) => {
            line.push_str("malformed ");
            line.push_str(rule.word());
        }
        Reply::Past(horizon) => push_at(line, "past ", slot_cycles, horizon),
        Reply::Taken {
            resource,
            owner,
            free_from,
        } => {
            line.push_str("taken ");
            push_resource(line, resource);
            line.push_str(" by ");
            push_label(line, owner);
            line.push_str(" free ");
            push_free(line, slot_cycles, free_from);
        }
        Reply::Granted { label, start } => {
            line.push_str("granted ");
            push_label(line, label);
            push_at(line, " at ", slot_cycles, start);
        }
        Reply::NoLoad => line.push_str("no load"),
        Reply::Already(end) => push_at(line, "already ", slot_cycles, end),
        Reply::Stopped { label, end } => {
            line.push_str("stopped ");
            push_label(line, label);
            push_at(line, " at ", slot_cycles, end);
        }
        Reply::Horizon(horizon) => push_at(line, "horizon ", slot_cycles, horizon),
    }
}
