//! Whether channels lead along links of the platform, in slots of its tables.
//!
//! Lists come from a file and may be long: a path is followed only once it is known to be short,
//! and slots are compared only once they are known to be slots.

ghost use Rattle.std.specs.Prelude.{◌≡◌};
ghost use Rattle.std.specs.List.{list_all};
ghost use Rattle.bundle_model.specs.Rules.{link_at, leads, is_path, is_table_slot, is_channel, has_channels};

use crate::broken::ascend;
use crate::joined::tile_of;
use crate::raw::{RawChannel, RawPair};
use platform_model::{Link, Platform};
use soc_base::MOST_PATH;

/// Answers whether both channels of each pair lead from its one tile to its other.
pub fn have_channels(pairs: &[RawPair], platform: &Platform) -> bool
    ensures { result ≡ list_all (has_channels platform.now) pairs.now }
{
    pairs.iter().all(|pair| are_channels(pair, platform))
}

// Whether both channels of the pair lead from its one tile to its other.
fn are_channels(pair: &RawPair, platform: &Platform) -> bool
    ensures { result ≡ has_channels platform.now pair.now }
{
    let a = tile_of(pair.a.as_slice()).unsigned_abs();
    let b = tile_of(pair.b.as_slice()).unsigned_abs();
    is_channel(a, b, &pair.there, platform) && is_channel(b, a, &pair.back, platform)
}

// Whether the channel has a path from one tile to another, and injection slots.
fn is_channel(from: u64, to: u64, channel: &RawChannel, platform: &Platform) -> bool
    ensures { result ≡ is_channel platform.now from to channel.now }
{
    let slots = channel.slots.as_slice();
    is_path(from, to, channel.path.as_slice(), platform)
        && slots.len() != 0
        && exist(slots, platform)
        && ascend(slots)
}

// Whether each number is a slot of the platform's slot tables.
fn exist(slots: &[i64], platform: &Platform) -> bool
    ensures { result ≡ list_all (is_table_slot platform.now) slots.now }
{
    let count = i64::from(platform.table_slots);
    slots.iter().all(|slot| 0 <= *slot && *slot < count)
}

// Whether the links lead from one tile to another: at least one, and at most the most.
fn is_path(from: u64, to: u64, path: &[i64], platform: &Platform) -> bool
    ensures { result ≡ is_path platform.now from to path.now }
{
    path.len() != 0 && path.len() <= MOST_PATH && leads(from, to, path, platform)
}

// Whether the links lead from one tile to another, each from where the one before ends.
fn leads(from: u64, to: u64, path: &[i64], platform: &Platform) -> bool
    ensures { result ≡ leads platform.now from to path.now }
{
    match path {
        [] => from == to,
        [number, rest @ ..] => match link_at(*number, platform) {
            Some(link) => {
                u64::from(link.from) == from && leads(u64::from(link.to), to, rest, platform)
            }
            None => false,
        },
    }
}

// The link of the platform that a number names, if there is one.
fn link_at(number: i64, platform: &Platform) -> Option<Link>
    ensures { result ≡ link_at platform.now number }
{
    match usize::try_from(number) {
        Ok(place) => platform.links.get(place).copied(),
        Err(_) => None,
    }
}
