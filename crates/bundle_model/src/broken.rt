//! Whether the raw values of a bundle file break a rule, and the least that they break.

ghost use Rattle.std.specs.Prelude.{◌≡◌, ◌*◌, ◌+ℤ◌, pos, int_le};
ghost use Rattle.std.specs.List.{list_all};
ghost use Rattle.bundle_model.specs.Rules.{has_tile, is_slot, ascends, has_slots, has_region, has_image, has_entry, is_kind, has_trace};
ghost use Rattle.bundle_model.specs.inner.Stages.{breaks_early, first_early};

use crate::joined::fit_together;
use crate::path::have_channels;
use crate::raw::{RawBundle, RawPart};
use crate::rules::BRule;
use platform_model::{Platform, divides, is_between};
use soc_base::{Likeness, MOST_ROWS, Text, has_twin};
use trace_log::Kind;

/// The rules that are judged without a list of resources, in their order.
const EARLY_RULES: [BRule; 9] = [
    BRule::B4,
    BRule::B5,
    BRule::B6,
    BRule::B7,
    BRule::B8,
    BRule::B9,
    BRule::B10,
    BRule::B11,
    BRule::B12,
];

/// Answers the least rule of B4 to B12 that the raw values break on a platform.
pub fn first_broken(raw: &RawBundle, platform: &Platform) -> Option<BRule>
    ensures { result ≡ first_early platform.now raw.now }
{
    EARLY_RULES
        .iter()
        .copied()
        .find(|rule| is_broken(*rule, raw, platform))
}

// Whether the raw values break a rule of B4 to B12 on a platform.
fn is_broken(rule: BRule, raw: &RawBundle, platform: &Platform) -> bool
    ensures { result ≡ breaks_early rule platform.now raw.now }
{
    let parts = raw.parts.as_slice();
    match rule {
        BRule::B4 => raw.version != 1,
        BRule::B5 => parts.len() == 0
            || !have_tiles(parts, platform)
            || has_twin::<RawPart, OneTile>(parts),
        BRule::B6 => !have_slots(parts, platform),
        BRule::B7 => !have_regions(parts, platform),
        BRule::B8 => !have_images(parts),
        BRule::B9 => !have_entries(parts),
        BRule::B10 => !have_traces(parts),
        BRule::B11 => !fit_together(raw, platform),
        BRule::B12 => !have_channels(raw.pairs.as_slice(), platform),
        BRule::B13 | BRule::B14 => false,
        BRule::B1 | BRule::B2 | BRule::B3 => false,
    }
}

// Whether each part stands on a tile of the platform.
fn have_tiles(parts: &[RawPart], platform: &Platform) -> bool
    ensures { result ≡ list_all (has_tile platform.now) parts.now }
{
    let tiles = i64::from(platform.tiles);
    parts.iter().all(|part| 0 <= part.tile && part.tile < tiles)
}

// Parts that stand on one tile.
struct OneTile;

impl Likeness<RawPart> for OneTile {
    ghost use Rattle.bundle_model.specs.Rules.{shares_tile};

    ghost alike = { shares_tile };

    fn are_alike(one: &RawPart, other: &RawPart) -> bool {
        one.tile == other.tile
    }
}

// Whether each part's slots are partition slots of the platform.
fn have_slots(parts: &[RawPart], platform: &Platform) -> bool
    ensures { result ≡ list_all (has_slots platform.now) parts.now }
{
    parts.iter().all(|part| are_slots(part, platform))
}

// Whether the part has slots, and they are partition slots of the platform, ascending.
fn are_slots(part: &RawPart, platform: &Platform) -> bool
    ensures { result ≡ has_slots platform.now part.now }
{
    let slots = part.slots.as_slice();
    slots.len() != 0 && exist(slots, platform) && ascend(slots)
}

// Whether each number is a partition slot of the platform.
fn exist(slots: &[i64], platform: &Platform) -> bool
    ensures { result ≡ list_all (is_slot platform.now) slots.now }
{
    let count = i64::from(platform.partition_slots);
    slots.iter().all(|slot| 0 <= *slot && *slot < count)
}

/// Answers whether each number is below the next. The depth of the recursion is the length of the
/// ascending beginning.
pub fn ascend(numbers: &[i64]) -> bool
    ensures { result ≡ ascends numbers.now }
{
    match numbers {
        [number, rest @ ..] => match rest {
            [next, ..] => number < next && ascend(rest),
            [] => true,
        },
        [] => true,
    }
}

// Whether each part's region lies in the tile's memory.
fn have_regions(parts: &[RawPart], platform: &Platform) -> bool
    ensures { result ≡ list_all (has_region platform.now) parts.now }
{
    parts.iter().all(|part| is_region(part, platform))
}

// Whether the part's region lies in the tile's memory, by multiples of 16.
fn is_region(part: &RawPart, platform: &Platform) -> bool
    ensures { result ≡ has_region platform.now part.now }
{
    0 <= part.base
        && divides(16, part.base)
        && 16 <= part.len
        && divides(16, part.len)
        && ends_within(part.base, part.len, platform.mem_bytes)
}

// Whether so many bytes from a place on end within a memory.
fn ends_within(base: i64, len: i64, mem_bytes: u32) -> bool
    ensures { result ≡ int_le (base +ℤ len) (pos mem_bytes) }
{
    base.saturating_add(len) <= i64::from(mem_bytes)
}

// Whether each part's image is there and fits.
fn have_images(parts: &[RawPart]) -> bool
    ensures { result ≡ list_all has_image parts.now }
{
    parts.iter().all(|part| is_image(part))
}

// Whether there is an image, and it fits the part's region.
fn is_image(part: &RawPart) -> bool
    ensures { result ≡ has_image part.now }
{
    match &part.image {
        Some(words) => fit(words.len(), part.len),
        None => false,
    }
}

// Whether so many words fit in so many bytes.
fn fit(words: usize, len: i64) -> bool
    ensures { result ≡ int_le (pos (4 * words)) len }
{
    match u64::try_from(len) {
        Ok(bytes) => words as u64 <= bytes / 4,
        Err(_) => false,
    }
}

// Whether each part begins at a word of its region.
fn have_entries(parts: &[RawPart]) -> bool
    ensures { result ≡ list_all has_entry parts.now }
{
    parts.iter().all(|part| is_entry(part))
}

// Whether the part begins at a word of its region.
fn is_entry(part: &RawPart) -> bool
    ensures { result ≡ has_entry part.now }
{
    match part.len.checked_sub(4) {
        Some(last) => is_between(part.entry, 0, last) && divides(4, part.entry),
        None => false,
    }
}

// Whether each part's trace and kinds are in range.
fn have_traces(parts: &[RawPart]) -> bool
    ensures { result ≡ list_all has_trace parts.now }
{
    parts.iter().all(|part| is_trace(part))
}

// Whether the part keeps no more rows than the most, of different kinds.
fn is_trace(part: &RawPart) -> bool
    ensures { result ≡ has_trace part.now }
{
    let kinds = part.kinds.as_slice();
    is_between(part.trace, 0, i64::from(MOST_ROWS))
        && are_known(kinds)
        && !has_twin::<Text, OneName>(kinds)
}

// Whether each name is that of a kind of rows.
fn are_known(names: &[Text]) -> bool
    ensures { result ≡ list_all is_kind names.now }
{
    names.iter().all(|name| is_known(name))
}

// Whether a name is that of a kind of rows.
fn is_known(name: &Text) -> bool
    ensures { result ≡ is_kind name.now }
{
    let name = name.as_str();
    name == Kind::Word.word()
        || name == Kind::Send.word()
        || name == Kind::Recv.word()
        || name == Kind::Step.word()
}

// Names that are one.
struct OneName;

impl Likeness<Text> for OneName {
    ghost use Rattle.std.specs.Str.{bytes_eq};

    ghost alike = { bytes_eq };

    fn are_alike(one: &Text, other: &Text) -> bool {
        one.as_str() == other.as_str()
    }
}
