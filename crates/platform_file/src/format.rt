//! The format of platform files: the keys of each of its tables.

ghost use Rattle.std.specs.Prelude.{◌≡◌};
ghost use Rattle.platform_file.specs.Format.{top_keys, link_keys, cost_keys};

use toml_keys::{Key, Shape, optional, required};

/// Answers the keys at the top of the file.
#[tactic(auto, unfolding(crate::specs::Format::top_keys))]
pub fn top_keys() -> [Key; 11]
    ensures { result ≡ top_keys }
{
    [
        required("tiles", Shape::INTEGER),
        required("mem_bytes", Shape::INTEGER),
        required("slot_cycles", Shape::INTEGER),
        required("table_slots", Shape::INTEGER),
        required("kernel_cycles", Shape::INTEGER),
        required("partition_cycles", Shape::INTEGER),
        required("partition_slots", Shape::INTEGER),
        required("ports", Shape::INTEGER),
        required("queue", Shape::INTEGER),
        optional("link", Shape::TABLES),
        optional("costs", Shape::TABLE),
    ]
}

/// Answers the keys of a link.
#[tactic(auto, unfolding(crate::specs::Format::link_keys))]
pub fn link_keys() -> [Key; 4]
    ensures { result ≡ link_keys }
{
    [
        required("from", Shape::INTEGER),
        required("out", Shape::INTEGER),
        required("to", Shape::INTEGER),
        required("input", Shape::INTEGER),
    ]
}

/// Answers the keys of the costs.
#[tactic(auto, unfolding(crate::specs::Format::cost_keys))]
pub fn cost_keys() -> [Key; 10]
    ensures { result ≡ cost_keys }
{
    [
        optional("integer", Shape::INTEGER),
        optional("mul", Shape::INTEGER),
        optional("div", Shape::INTEGER),
        optional("load", Shape::INTEGER),
        optional("store", Shape::INTEGER),
        optional("taken", Shape::INTEGER),
        optional("untaken", Shape::INTEGER),
        optional("jump", Shape::INTEGER),
        optional("device", Shape::INTEGER),
        optional("system", Shape::INTEGER),
    ]
}
