//! What channel pairs claim of the network.

ghost use Rattle.std.specs.Prelude.{◌≡◌, ◌≤◌, ◌+◌, ◌^◌, ◌++◌, ◌%◌, OnOk};
ghost use Rattle.bundle_model.specs.Resources.{link_claims, slot_claims, channel_claims, pair_resources};

use crate::bundle::{Channel, Pair};
use crate::resource::Resource;
use platform_model::Platform;
use soc_base::NoMemory;

/// Appends what the channels of a pair claim, there and back. After want of memory the list's end is
/// unknown.
pub fn add_pair(list: &mut Vec<Resource>, platform: &Platform, pair: &Pair) -> Result<(), NoMemory>
    ensures { OnOk result (list.new.items ≡ list.old.items ++ pair_resources platform.now.table_slots pair.now) }
{
    add_channel(list, platform, pair.a.tile, pair.b.tile, &pair.there)?;
    add_channel(list, platform, pair.b.tile, pair.a.tile, &pair.back)
}

// Appends what a channel claims from one tile to another.
fn add_channel(
    list: &mut Vec<Resource>,
    platform: &Platform,
    from: u8,
    to: u8,
    channel: &Channel,
) -> Result<(), NoMemory>
    ensures { OnOk result (list.new.items ≡ list.old.items ++ channel_claims platform.now.table_slots from to channel.now) }
{
    let path = channel.path.as_slice();
    for slot in channel.slots.as_slice() {
        add_slot(list, platform, from, to, path, *slot)?;
    }
    Ok(())
}

// Appends what an injection slot claims: itself, a slot of each link, and the slot of the delivery.
fn add_slot(
    list: &mut Vec<Resource>,
    platform: &Platform,
    from: u8,
    to: u8,
    path: &[u8],
    slot: u8,
) -> Result<(), NoMemory>
    ensures { OnOk result (list.new.items ≡ list.old.items ++ slot_claims platform.now.table_slots from to path.now slot) }
{
    list.push(Resource::Inject { tile: from, slot })?;
    add_links(list, platform, path, slot)?;
    let slot = slots_later(platform, slot, path.len());
    list.push(Resource::Deliver { tile: to, slot })?;
    Ok(())
}

// Appends the slots of the links of a path that a flit passes which is injected in a slot.
fn add_links(
    list: &mut Vec<Resource>,
    platform: &Platform,
    path: &[u8],
    slot: u8,
) -> Result<(), NoMemory>
    ensures { OnOk result (list.new.items ≡ list.old.items ++ link_claims platform.now.table_slots (slot + 1) path.now) }
{
    for (hop, link) in path.iter().enumerate() {
        let slot = slots_later(platform, slot, hop + 1);
        list.push(Resource::LinkSlot { link: *link, slot })?;
    }
    Ok(())
}

// The slot of the tables so many slots after a slot.
fn slots_later(platform: &Platform, slot: u8, count: usize) -> u8
    requires { count ≤ 2 ^ 63 }
    ensures { result ≡ (slot + count) % platform.now.table_slots }
{
    let later = (usize::from(slot) + count) % usize::from(platform.table_slots);
    later as u8
}
