//! The format of bundle files: the keys of each of its tables.

ghost use Rattle.std.specs.Prelude.{◌≡◌};
ghost use Rattle.bundle_file.specs.Format.{top_keys, part_keys, pair_keys, channel_keys};

use toml_keys::{Key, Shape, optional, required};

/// Answers the keys at the top of the file.
#[tactic(auto, unfolding(crate::specs::Format::top_keys))]
pub fn top_keys() -> [Key; 3]
    ensures { result ≡ top_keys }
{
    [
        required("version", Shape::INTEGER),
        required("part", Shape::TABLES),
        optional("pair", Shape::TABLES),
    ]
}

/// Answers the keys of a part.
#[tactic(auto, unfolding(crate::specs::Format::part_keys))]
pub fn part_keys() -> [Key; 9]
    ensures { result ≡ part_keys }
{
    [
        required("tile", Shape::INTEGER),
        required("slots", Shape::INTEGERS),
        required("base", Shape::INTEGER),
        required("len", Shape::INTEGER),
        required("entry", Shape::INTEGER),
        required("trace", Shape::INTEGER),
        required("image", Shape::TEXT),
        optional("kinds", Shape::TEXTS),
        optional("ports", Shape::INTEGERS),
    ]
}

/// Answers the keys of a channel pair.
#[tactic(auto, unfolding(crate::specs::Format::pair_keys))]
pub fn pair_keys() -> [Key; 4]
    ensures { result ≡ pair_keys }
{
    [
        required("a", Shape::INTEGERS),
        required("b", Shape::INTEGERS),
        required("there", Shape::TABLE),
        required("back", Shape::TABLE),
    ]
}

/// Answers the keys of a channel.
#[tactic(auto, unfolding(crate::specs::Format::channel_keys))]
pub fn channel_keys() -> [Key; 2]
    ensures { result ≡ channel_keys }
{
    [
        required("path", Shape::INTEGERS),
        required("slots", Shape::INTEGERS),
    ]
}
