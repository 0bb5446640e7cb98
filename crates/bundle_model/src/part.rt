//! Making the parts of a bundle of the raw values that mean them.

ghost use Rattle.std.specs.Prelude.{◌≡◌, ◌^◌, ◌≤◌, [], pos, nat_abs, map, unwrap_or, IsTrue, IfOk};
ghost use Rattle.std.specs.List.{list_all};
ghost use Rattle.platform_model.specs.Limits.{is_within};
ghost use Rattle.bundle_model.specs.Sets.{slot_set, kind_bit, kind_set, names};
ghost use Rattle.trace_log.specs.Kinds.{phase_of};
ghost use Rattle.bundle_model.specs.Rules.{has_tile, is_slot, has_slots, has_region, has_entry, has_trace, has_ports};
ghost use Rattle.bundle_model.specs.Bundle.{part_of};

use crate::bundle::Part;
use crate::pair::bytes;
use crate::raw::RawPart;
use platform_model::Platform;
use soc_base::{Items, NoMemory, Region, Text};
use std::alloc::Global;
use trace_log::Kind;

/// Makes the parts that raw values mean which keep the rules.
pub fn parts_of(alloc: Global, raw: &[RawPart], platform: &Platform) -> Result<Vec<Part>, NoMemory>
    requires tiles { IsTrue (list_all (has_tile platform.now) raw.now) }
    requires slots { IsTrue (list_all (has_slots platform.now) raw.now) }
    requires regions { IsTrue (list_all (has_region platform.now) raw.now) }
    requires entries { IsTrue (list_all has_entry raw.now) }
    requires traces { IsTrue (list_all has_trace raw.now) }
    requires ports { IsTrue (list_all (has_ports platform.now) raw.now) }
    ensures { IfOk result (λ parts. parts.items ≡ map part_of raw.now) }
{
    let mut parts = Vec::new(alloc);
    for one in raw {
        parts.push(made(alloc, one, platform)?)?;
    }
    Ok(parts)
}

// The part that raw values mean.
fn made(alloc: Global, raw: &RawPart, platform: &Platform) -> Result<Part, NoMemory>
    requires tile { IsTrue (has_tile platform.now raw.now) }
    requires slots { IsTrue (has_slots platform.now raw.now) }
    requires region { IsTrue (has_region platform.now raw.now) }
    requires entry { IsTrue (has_entry raw.now) }
    requires trace { IsTrue (has_trace raw.now) }
    requires ports { IsTrue (has_ports platform.now raw.now) }
    ensures { IfOk result (λ part. part ≡ part_of raw.now) }
{
    let image = image(alloc, &raw.image)?;
    let ports = bytes(alloc, raw.ports.as_slice())?;
    Ok(Part {
        tile: tile(raw, platform),
        slots: slots(raw.slots.as_slice(), platform),
        region: region(raw, platform),
        image: Items::from_vec(image),
        entry: entry(raw, platform),
        trace: trace(raw),
        kinds: kinds(raw.kinds.as_slice()),
        ports,
    })
}

// The tile of a part.
fn tile(raw: &RawPart, platform: &Platform) -> u8
    requires { IsTrue (has_tile platform.now raw.now) }
    ensures { result ≡ nat_abs raw.now.tile }
{
    raw.tile as u8
}

// The region of a part.
fn region(raw: &RawPart, platform: &Platform) -> Region
    requires { IsTrue (has_region platform.now raw.now) }
    ensures base { result.base ≡ nat_abs raw.now.base }
    ensures len { result.len ≡ nat_abs raw.now.len }
{
    Region {
        base: raw.base as u32,
        len: raw.len as u32,
    }
}

// The address at which a part begins.
fn entry(raw: &RawPart, platform: &Platform) -> u32
    requires region { IsTrue (has_region platform.now raw.now) }
    requires entry { IsTrue (has_entry raw.now) }
    ensures { result ≡ nat_abs raw.now.entry }
{
    raw.entry as u32
}

// How many rows a part's trace keeps.
fn trace(raw: &RawPart) -> u32
    requires { IsTrue (has_trace raw.now) }
    ensures { result ≡ nat_abs raw.now.trace }
{
    raw.trace as u32
}

// The words of an image.
fn image(alloc: Global, raw: &Option<Items<u32>>) -> Result<Vec<u32>, NoMemory>
    ensures { IfOk result (λ image. image.items ≡ unwrap_or raw.now []) }
{
    let mut image = Vec::new(alloc);
    if let Some(words) = raw {
        image.extend_from_slice(words.as_slice())?;
    }
    Ok(image)
}

// The set of these slots.
fn slots(raw: &[i64], platform: &Platform) -> u16
    requires { IsTrue (list_all (is_slot platform.now) raw.now) }
    ensures { result ≡ slot_set raw.now }
{
    let mut set = 0;
    for slot in raw {
        set |= bit(*slot);
    }
    set
}

// The set of one slot.
fn bit(slot: i64) -> u16
    requires { IsTrue (is_within slot (pos 0) (pos 15)) }
    ensures { result ≡ 2 ^ nat_abs slot }
{
    1 << slot as u16
}

// The set of these kinds of rows.
fn kinds(raw: &[Text]) -> u8
    ensures { result ≡ kind_set raw.now }
{
    kind_bit(raw, Kind::Word)
        + kind_bit(raw, Kind::Send)
        + kind_bit(raw, Kind::Recv)
        + kind_bit(raw, Kind::Step)
}

// The set that has a kind of rows alone, where its word is among these names.
fn kind_bit(raw: &[Text], kind: Kind) -> u8
    ensures value { result ≡ kind_bit raw.now kind }
    ensures most { result ≤ 2 ^ phase_of kind }
{
    if is_named(raw, kind.word()) {
        1 << kind.phase()
    } else {
        0
    }
}

// Whether a name stands in the list.
fn is_named(raw: &[Text], name: &str) -> bool
    ensures { result ≡ names raw.now name.now }
{
    raw.iter().any(|other| other.as_str() == name)
}
