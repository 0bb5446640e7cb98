//! Judging the raw values of a bundle file.

ghost use Rattle.std.specs.Prelude.{◌≡◌, None, IfOk};
ghost use Rattle.bundle_model.specs.Rules.{first_rule};
ghost use Rattle.bundle_model.specs.Bundle.{Judges, bundle_of};
ghost use Rattle.bundle_model.specs.WellFormed.{IsWellFormed};
ghost use Rattle.bundle_model.specs.inner.Stages.{first_early};

use crate::broken::first_broken;
use crate::bundle::Bundle;
use crate::doubled::first_overdrawn;
use crate::pair::pairs_of;
use crate::part::parts_of;
use crate::raw::RawBundle;
use crate::rules::BundleFault;
use platform_model::Platform;
use soc_base::{Items, NoMemory};
use std::alloc::Global;

/// Makes the bundle that raw values mean on a platform. Refuses the least rule of B4 to B14 that
/// they break. The rules up to B12 are judged first: they bound the lists of which the others speak.
pub fn check(alloc: Global, raw: &RawBundle, platform: &Platform) -> Result<Bundle, BundleFault>
    ensures rule { Judges (first_rule platform.now raw.now) result }
    ensures value { IfOk result (λ bundle. bundle ≡ bundle_of raw.now) }
    ensures well_formed { IfOk result (IsWellFormed platform.now) }
{
    if let Some(rule) = first_broken(raw, platform) {
        return Err(BundleFault::Rule(rule));
    }
    let bundle = unbroken(alloc, raw, platform)?;
    if let Some(rule) = first_overdrawn(alloc, platform, &bundle)? {
        return Err(BundleFault::Rule(rule));
    }
    Ok(bundle)
}

// The bundle that raw values mean which keep the rules up to B12.
fn unbroken(alloc: Global, raw: &RawBundle, platform: &Platform) -> Result<Bundle, NoMemory>
    requires { first_early platform.now raw.now ≡ None }
    ensures { IfOk result (λ bundle. bundle ≡ bundle_of raw.now) }
{
    let parts = parts_of(alloc, raw.parts.as_slice(), platform)?;
    let pairs = pairs_of(alloc, raw.pairs.as_slice())?;
    Ok(Bundle {
        parts: Items::from_vec(parts),
        pairs: Items::from_vec(pairs),
    })
}
