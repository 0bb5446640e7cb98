//! Whether a bundle file's keys are known, and have their types.

ghost use Rattle.std.specs.Prelude.{◌≡◌, codes, map};
ghost use Rattle.std.specs.List.{list_all};
ghost use Rattle.toml_keys.specs.Level.{level_members};
ghost use Rattle.toml_keys.specs.Keys.{has_only, has_types};
ghost use Rattle.toml_keys.specs.Values.{tables_at};
ghost use Rattle.bundle_file.specs.Reading.{pair_passes, passes};

use crate::format::{channel_keys, pair_keys, part_keys, top_keys};
use toml_keys::Level;

// Whether each key of a channel pair and of its channels stands in its place.
#[tactic(auto, unfolding(crate::specs::Reading::pair_passes))]
fn knows_pair_keys(pair: &Level) -> bool
    ensures { result ≡ pair_passes has_only (level_members pair.now) }
{
    let ends = pair.has_only(&pair_keys());
    let there = pair.table("there").has_only(&channel_keys());
    let back = pair.table("back").has_only(&channel_keys());
    ends && there && back
}

// Whether each channel pair has its keys alone.
fn all_know_keys(pairs: &[Level]) -> bool
    ensures { result ≡ list_all (pair_passes has_only) (map level_members pairs.now) }
{
    for pair in pairs {
        if !knows_pair_keys(pair) {
            return false;
        }
    }
    true
}

/// Answers whether each key of a file, of which these are the channel pairs, is one that bundle
/// files have.
#[tactic(auto, unfolding(crate::specs::Reading::passes))]
pub fn knows_keys(file: &Level, pairs: &[Level]) -> bool
    requires { map level_members pairs.now ≡ tables_at (codes "pair") (level_members file.now) }
    ensures { result ≡ passes has_only (level_members file.now) }
{
    let top = file.has_only(&top_keys());
    let parts = file.tables_have_only("part", &part_keys());
    let pairs = all_know_keys(pairs);
    top && parts && pairs
}

// Whether a channel pair and its channels have each required key, and each key has its type.
#[tactic(auto, unfolding(crate::specs::Reading::pair_passes))]
fn knows_pair_types(pair: &Level) -> bool
    ensures { result ≡ pair_passes has_types (level_members pair.now) }
{
    let ends = pair.has_types(&pair_keys());
    let there = pair.table("there").has_types(&channel_keys());
    let back = pair.table("back").has_types(&channel_keys());
    ends && there && back
}

// Whether each channel pair has its types.
fn all_know_types(pairs: &[Level]) -> bool
    ensures { result ≡ list_all (pair_passes has_types) (map level_members pairs.now) }
{
    for pair in pairs {
        if !knows_pair_types(pair) {
            return false;
        }
    }
    true
}

/// Answers whether each required key of a file, of which these are the channel pairs, is there, and
/// each key has its type.
#[tactic(auto, unfolding(crate::specs::Reading::passes))]
pub fn knows_types(file: &Level, pairs: &[Level]) -> bool
    requires { map level_members pairs.now ≡ tables_at (codes "pair") (level_members file.now) }
    ensures { result ≡ passes has_types (level_members file.now) }
{
    let top = file.has_types(&top_keys());
    let parts = file.tables_have_types("part", &part_keys());
    let pairs = all_know_types(pairs);
    top && parts && pairs
}
