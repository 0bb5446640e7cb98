//! The values of a bundle file whose keys have their types.

ghost use Rattle.std.specs.Prelude.{◌≡◌, codes, map, IfOk};
ghost use Rattle.toml_keys.specs.Level.{level_members};
ghost use Rattle.toml_keys.specs.Values.{tables_at};
ghost use Rattle.bundle_file.specs.Reading.{raw_part, raw_channel, raw_pair, raw_bundle};

use crate::image::image_of;
use bundle_model::{RawBundle, RawChannel, RawPair, RawPart};
use soc_base::{Items, NoMemory};
use std::alloc::Global;
use toml_keys::Level;

// The values of a part.
#[tactic(auto, unfolding(crate::specs::Reading::raw_part))]
fn raw_part(alloc: Global, part: &Level) -> Result<RawPart, NoMemory>
    ensures { IfOk result (λ raw. raw ≡ raw_part (level_members part.now)) }
{
    let slots = part.integers(alloc, "slots")?;
    let image = image_of(alloc, part.text("image"))?;
    let kinds = part.texts(alloc, "kinds")?;
    let ports = part.integers(alloc, "ports")?;
    Ok(RawPart {
        tile: part.integer("tile"),
        slots,
        base: part.integer("base"),
        len: part.integer("len"),
        image,
        entry: part.integer("entry"),
        trace: part.integer("trace"),
        kinds,
        ports,
    })
}

// The values of parts, in order.
fn raw_parts(alloc: Global, tables: &[Level]) -> Result<Items<RawPart>, NoMemory>
    ensures { IfOk result (λ parts. parts ≡ map raw_part (map level_members tables.now)) }
{
    let mut parts = Items::new(alloc);
    for table in tables {
        parts.push(raw_part(alloc, table)?)?;
    }
    Ok(parts)
}

// The values of a channel.
#[tactic(auto, unfolding(crate::specs::Reading::raw_channel))]
fn raw_channel(alloc: Global, channel: &Level) -> Result<RawChannel, NoMemory>
    ensures { IfOk result (λ raw. raw ≡ raw_channel (level_members channel.now)) }
{
    let path = channel.integers(alloc, "path")?;
    let slots = channel.integers(alloc, "slots")?;
    Ok(RawChannel { path, slots })
}

// The values of a channel pair.
#[tactic(auto, unfolding(crate::specs::Reading::raw_pair))]
fn raw_pair(alloc: Global, pair: &Level) -> Result<RawPair, NoMemory>
    ensures { IfOk result (λ raw. raw ≡ raw_pair (level_members pair.now)) }
{
    let a = pair.integers(alloc, "a")?;
    let b = pair.integers(alloc, "b")?;
    let there = raw_channel(alloc, &pair.table("there"))?;
    let back = raw_channel(alloc, &pair.table("back"))?;
    Ok(RawPair { a, b, there, back })
}

// The values of channel pairs, in order.
fn raw_pairs(alloc: Global, tables: &[Level]) -> Result<Items<RawPair>, NoMemory>
    ensures { IfOk result (λ pairs. pairs ≡ map raw_pair (map level_members tables.now)) }
{
    let mut pairs = Items::new(alloc);
    for table in tables {
        pairs.push(raw_pair(alloc, table)?)?;
    }
    Ok(pairs)
}

/// Answers the values of a file, of which these are the channel pairs.
#[tactic(auto, unfolding(crate::specs::Reading::raw_bundle))]
pub fn raw_bundle(alloc: Global, file: &Level, pairs: &[Level]) -> Result<RawBundle, NoMemory>
    requires { map level_members pairs.now ≡ tables_at (codes "pair") (level_members file.now) }
    ensures { IfOk result (λ raw. raw ≡ raw_bundle (level_members file.now)) }
{
    let parts = file.tables(alloc, "part")?;
    let parts = raw_parts(alloc, &parts)?;
    let pairs = raw_pairs(alloc, pairs)?;
    Ok(RawBundle {
        version: file.integer("version"),
        parts,
        pairs,
    })
}
