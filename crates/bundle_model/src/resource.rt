//! What an application holds of a platform.

ghost use Rattle.std.specs.Prelude.{◌≡◌, ◌<◌, ◌+◌, ◌++◌, max, min, map, nat_lt, IfOk, OnOk};
ghost use Rattle.std.specs.List.{flat_map};
ghost use Rattle.bundle_model.specs.Resources.{part_resources, pair_resources, resources_of, meets_of, shares_byte};
ghost use Rattle.soc_base.specs.Slots.{slots_of, slots_at};
ghost use Rattle.bundle_model.specs.declared.resource.Resource.TheVariants.{Partition, Port};

use crate::bundle::{Bundle, Pair, Part};
use crate::claims::add_pair;
use platform_model::Platform;
use soc_base::NoMemory;
use std::alloc::Global;

/// A resource of a platform, which one application holds at a time.
#[derive(Clone, Copy, Debug, PartialEq, Eq)]
pub enum Resource {
    /// A partition slot of a tile.
    Partition {
        /// The tile.
        tile: u8,
        /// The partition slot.
        slot: u8,
    },
    /// Bytes of a tile's memory.
    Span {
        /// The tile.
        tile: u8,
        /// The first byte.
        base: u32,
        /// The number of bytes.
        len: u32,
    },
    /// A port of a tile's network interface.
    Port {
        /// The tile.
        tile: u8,
        /// The port.
        port: u8,
    },
    /// A slot in which a tile's network interface injects.
    Inject {
        /// The tile.
        tile: u8,
        /// The slot of its table.
        slot: u8,
    },
    /// A slot of a link.
    LinkSlot {
        /// The link's place in the platform's list.
        link: u8,
        /// The slot of its table.
        slot: u8,
    },
    /// A slot in which a tile's network interface receives.
    Deliver {
        /// The tile.
        tile: u8,
        /// The slot of its table.
        slot: u8,
    },
}

/// Answers whether two applications can't both hold these resources: they are equal, or spans of
/// one tile that share a byte.
pub fn meets(a: &Resource, b: &Resource) -> bool
    ensures { result ≡ meets_of a.now b.now }
{
    a == b || share_byte(a, b)
}

// Whether two ranges of bytes share one.
fn overlap(base: u32, len: u32, other: u32, other_len: u32) -> bool
    ensures { result ≡ nat_lt (max base other) (min (base + len) (other + other_len)) }
{
    let end = u64::from(base) + u64::from(len);
    let other_end = u64::from(other) + u64::from(other_len);
    u64::from(base.max(other)) < end.min(other_end)
}

// Whether the two are spans of one tile that share a byte.
fn share_byte(a: &Resource, b: &Resource) -> bool
    ensures { result ≡ shares_byte a.now b.now }
{
    match (*a, *b) {
        (
            Resource::Span { tile, base, len },
            Resource::Span {
                tile: other,
                base: at,
                len: size,
            },
        ) => tile == other && overlap(base, len, at, size),
        _ => false,
    }
}

/// Lists the resources of a bundle on a platform: each part's partition
/// slots, its span and its ports, then what each channel pair claims of the network.
pub fn resources(
    alloc: Global,
    platform: &Platform,
    bundle: &Bundle,
) -> Result<Vec<Resource>, NoMemory>
    ensures { IfOk result (λ list. list.items ≡ resources_of platform.now bundle.now) }
{
    let mut list = Vec::new(alloc);
    add_parts(&mut list, bundle.parts.as_slice())?;
    add_pairs(&mut list, platform, bundle.pairs.as_slice())?;
    Ok(list)
}

// Appends what parts hold.
fn add_parts(list: &mut Vec<Resource>, parts: &[Part]) -> Result<(), NoMemory>
    ensures { OnOk result (list.new.items ≡ list.old.items ++ flat_map part_resources parts.now) }
{
    for part in parts {
        add_part(list, part)?;
    }
    Ok(())
}

// Appends what channel pairs claim.
fn add_pairs(list: &mut Vec<Resource>, platform: &Platform, pairs: &[Pair]) -> Result<(), NoMemory>
    ensures { OnOk result (list.new.items ≡ list.old.items
        ++ flat_map (pair_resources platform.now.table_slots) pairs.now) }
{
    for pair in pairs {
        add_pair(list, platform, pair)?;
    }
    Ok(())
}

// Appends what a part holds.
fn add_part(list: &mut Vec<Resource>, part: &Part) -> Result<(), NoMemory>
    ensures { OnOk result (list.new.items ≡ list.old.items ++ part_resources part.now) }
{
    add_slots(list, part)?;
    list.push(Resource::Span {
        tile: part.tile,
        base: part.region.base,
        len: part.region.len,
    })?;
    add_ports(list, part.tile, part.ports.as_slice())
}

// Appends a part's partition slots.
fn add_slots(list: &mut Vec<Resource>, part: &Part) -> Result<(), NoMemory>
    ensures { OnOk result (list.new.items ≡ list.old.items ++ map (Partition part.now.tile) (slots_of part.now.slots)) }
{
    for slot in 0..16 {
        add_slot(list, part, slot)?;
    }
    Ok(())
}

// Appends a partition slot, if the part has it.
fn add_slot(list: &mut Vec<Resource>, part: &Part, slot: u8) -> Result<(), NoMemory>
    requires { slot < 16 }
    ensures { OnOk result (list.new.items ≡ list.old.items
        ++ map (Partition part.now.tile) (slots_at part.now.slots slot)) }
{
    if part.has_slot(slot) {
        list.push(Resource::Partition {
            tile: part.tile,
            slot,
        })?;
    }
    Ok(())
}

// Appends the ports of a tile that a part holds.
fn add_ports(list: &mut Vec<Resource>, tile: u8, ports: &[u8]) -> Result<(), NoMemory>
    ensures { OnOk result (list.new.items ≡ list.old.items ++ map (Port tile) ports.now) }
{
    for port in ports {
        list.push(Resource::Port { tile, port: *port })?;
    }
    Ok(())
}
