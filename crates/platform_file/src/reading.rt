//! Reading a platform file: its document, its keys, their types, and then its numbers.

ghost use Rattle.std.specs.Prelude.{◌≡◌, codes, Some, None, IfOk, map};
ghost use Rattle.toml.specs.View.{table_view};
ghost use Rattle.toml_keys.specs.Keys.{has_only, has_types};
ghost use Rattle.toml_keys.specs.Values.{table_at, tables_at};
ghost use Rattle.toml_keys.specs.Level.{level_members};
ghost use Rattle.platform_model.specs.Platform.{raw_of};
ghost use Rattle.platform_file.specs.Reading.{passes, link_of, costs_of, platform_of, least_rule, MeansPlatform, Breaks, Gives};

use crate::format::{cost_keys, link_keys, top_keys};
use platform_model::{
    DEFAULT_COSTS, PRule, Platform, PlatformFault, RawCosts, RawLink, RawPlatform,
};
use soc_base::{Items, NoMemory};
use std::alloc::Global;
use toml::Table;
use toml_keys::{DocumentFault, Level, read_document};

// Whether each key is one that platform files have.
#[tactic(auto, unfolding(crate::specs::Reading::passes))]
fn knows_keys(file: &Level) -> bool
    ensures { result ≡ passes has_only (level_members file.now) }
{
    let top = file.has_only(&top_keys());
    let links = file.tables_have_only("link", &link_keys());
    let costs = file.table("costs").has_only(&cost_keys());
    top && links && costs
}

// Whether each required key is there, and each key has its type.
#[tactic(auto, unfolding(crate::specs::Reading::passes))]
fn knows_types(file: &Level) -> bool
    ensures { result ≡ passes has_types (level_members file.now) }
{
    let top = file.has_types(&top_keys());
    let links = file.tables_have_types("link", &link_keys());
    let costs = file.table("costs").has_types(&cost_keys());
    top && links && costs
}

// The numbers of a link.
#[tactic(auto, unfolding(crate::specs::Reading::link_of))]
fn link_of(link: &Level) -> RawLink
    ensures { result ≡ link_of (level_members link.now) }
{
    RawLink {
        from: link.integer("from"),
        out: link.integer("out"),
        to: link.integer("to"),
        input: link.integer("input"),
    }
}

// The costs, each with its default.
#[tactic(auto, unfolding(crate::specs::Reading::costs_of))]
fn costs_of(costs: &Level) -> RawCosts
    ensures { result ≡ costs_of (level_members costs.now) }
{
    RawCosts {
        integer: costs.integer_or("integer", DEFAULT_COSTS.integer),
        mul: costs.integer_or("mul", DEFAULT_COSTS.mul),
        div: costs.integer_or("div", DEFAULT_COSTS.div),
        load: costs.integer_or("load", DEFAULT_COSTS.load),
        store: costs.integer_or("store", DEFAULT_COSTS.store),
        taken: costs.integer_or("taken", DEFAULT_COSTS.taken),
        untaken: costs.integer_or("untaken", DEFAULT_COSTS.untaken),
        jump: costs.integer_or("jump", DEFAULT_COSTS.jump),
        device: costs.integer_or("device", DEFAULT_COSTS.device),
        system: costs.integer_or("system", DEFAULT_COSTS.system),
    }
}

// The numbers of links, in order.
fn links_of(alloc: Global, tables: &[Level]) -> Result<Items<RawLink>, NoMemory>
    ensures { IfOk result (λ links. links ≡ map link_of (map level_members tables.now)) }
{
    let mut links = Items::new(alloc);
    for table in tables {
        links.push(link_of(table))?;
    }
    Ok(links)
}

// The numbers of a file whose keys have their types, of which these are its links and its costs.
#[tactic(auto, unfolding(crate::specs::Reading::platform_of))]
fn numbers_of(file: &Level, links: Items<RawLink>, costs: RawCosts) -> RawPlatform
    requires links { links ≡ map link_of (tables_at (codes "link") (level_members file.now)) }
    requires costs { costs ≡ costs_of (table_at (codes "costs") (level_members file.now)) }
    ensures { result ≡ platform_of (level_members file.now) }
{
    RawPlatform {
        tiles: file.integer("tiles"),
        mem_bytes: file.integer("mem_bytes"),
        slot_cycles: file.integer("slot_cycles"),
        table_slots: file.integer("table_slots"),
        kernel_cycles: file.integer("kernel_cycles"),
        partition_cycles: file.integer("partition_cycles"),
        partition_slots: file.integer("partition_slots"),
        ports: file.integer("ports"),
        queue: file.integer("queue"),
        links,
        costs,
    }
}

// The numbers of a file whose keys have their types.
fn platform_of(alloc: Global, file: &Level) -> Result<RawPlatform, NoMemory>
    ensures { IfOk result (λ raw. raw ≡ platform_of (level_members file.now)) }
{
    let tables = file.tables(alloc, "link")?;
    let links = links_of(alloc, &tables)?;
    let costs = costs_of(&file.table("costs"));
    Ok(numbers_of(file, links, costs))
}

// The platform that a document gives.
#[tactic(auto, unfolding(crate::specs::Reading::least_rule))]
fn judge(alloc: Global, table: &Table) -> Result<Platform, PlatformFault>
    ensures value { IfOk result (MeansPlatform (table_view table.now)) }
    ensures rule { (r : _) → result ≡ Err (PlatformFault.Rule r) →
        least_rule (Some (table_view table.now)) ≡ Some r }
{
    let file = Level::new(table);
    if !knows_keys(&file) {
        return Err(PlatformFault::Rule(PRule::P2));
    }
    if !knows_types(&file) {
        return Err(PlatformFault::Rule(PRule::P3));
    }
    let raw = platform_of(alloc, &file)?;
    Platform::check(alloc, &raw)
}

/// Reads a platform file. Refuses the least rule of P1 to P12 that its bytes break: P1 where they
/// are no TOML document of at most `MOST_FILE_BYTES`, P2 where a key isn't one that platform files have, P3
/// where a required key is missing or a key has another type, and the others as `Platform::check`.
#[tactic(auto, unfolding(crate::specs::Reading::least_rule))]
pub fn read_platform(alloc: Global, bytes: &[u8]) -> Result<Platform, PlatformFault>
    ensures value { IfOk result (Gives bytes.now) }
    ensures rule { (r : _) → result ≡ Err (PlatformFault.Rule r) → Breaks bytes.now r }
{
    match read_document(alloc, bytes) {
        Ok(table) => judge(alloc, &table),
        Err(DocumentFault::NoDocument) => Err(PlatformFault::Rule(PRule::P1)),
        Err(DocumentFault::NoMemory) => Err(PlatformFault::NoMemory),
    }
}
