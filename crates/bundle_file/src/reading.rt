//! Reading a bundle file: its document, its keys, their types, and then its values.

ghost use Rattle.std.specs.Prelude.{◌≡◌, Some, None, IfOk};
ghost use Rattle.toml.specs.View.{table_view};
ghost use Rattle.bundle_model.specs.Bundle.{bundle_of};
ghost use Rattle.bundle_model.specs.WellFormed.{IsWellFormed};
ghost use Rattle.bundle_file.specs.Reading.{raw_bundle, least_rule, MeansBundle, Breaks, Gives};

use crate::keys::{knows_keys, knows_types};
use crate::values::raw_bundle;
use bundle_model::{BRule, Bundle, BundleFault, check};
use platform_model::Platform;
use std::alloc::Global;
use toml::Table;
use toml_keys::{DocumentFault, Level, read_document};

// The bundle that a document gives.
#[tactic(auto, unfolding(crate::specs::Reading::least_rule))]
fn judge(alloc: Global, table: &Table, platform: &Platform) -> Result<Bundle, BundleFault>
    ensures value { IfOk result (MeansBundle platform.now (table_view table.now)) }
    ensures well_formed { IfOk result (IsWellFormed platform.now) }
    ensures rule { (r : _) → result ≡ Err (BundleFault.Rule r) →
        least_rule platform.now (Some (table_view table.now)) ≡ Some r }
{
    let file = Level::new(table);
    let pairs = file.tables(alloc, "pair")?;
    if !knows_keys(&file, &pairs) {
        return Err(BundleFault::Rule(BRule::B2));
    }
    if !knows_types(&file, &pairs) {
        return Err(BundleFault::Rule(BRule::B3));
    }
    let raw = raw_bundle(alloc, &file, &pairs)?;
    check(alloc, &raw, platform)
}

/// Reads a bundle file for a platform. Refuses the least rule of B1 to B14 that its bytes break: B1
/// where they are no TOML document of at most `MOST_FILE_BYTES`, B2 where a key isn't one that bundle files
/// have, B3 where a required key is missing or a key has another type, and the others as
/// `bundle_model::check`.
#[tactic(auto, unfolding(crate::specs::Reading::least_rule))]
pub fn read_bundle(alloc: Global, bytes: &[u8], platform: &Platform) -> Result<Bundle, BundleFault>
    ensures value { IfOk result (Gives platform.now bytes.now) }
    ensures well_formed { IfOk result (IsWellFormed platform.now) }
    ensures rule { (r : _) → result ≡ Err (BundleFault.Rule r) → Breaks platform.now bytes.now r }
{
    match read_document(alloc, bytes) {
        Ok(table) => judge(alloc, &table, platform),
        Err(DocumentFault::NoDocument) => Err(BundleFault::Rule(BRule::B1)),
        Err(DocumentFault::NoMemory) => Err(BundleFault::NoMemory),
    }
}
