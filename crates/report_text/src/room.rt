//! How much room the rows of an application need.

ghost use Rattle.std.specs.Prelude.{◌≡◌, ◌<◌, ◌^◌, sum_by, IfOk};
ghost use Rattle.bundle_model.specs.WellFormed.{IsWellFormed};
ghost use Rattle.bundle_model.specs.World.{IsSoundCatalog};
ghost use Rattle.report_text.specs.inner.Room.{bundle_rows, most_rows};

use bundle_model::{BRule, Bundle, Part, World};
use platform_model::Platform;

// The rows that parts keep together.
fn parts_room(parts: &[Part]) -> usize
    requires { sum_by (λ part. part.trace) parts.now < 2 ^ 64 }
    ensures { result ≡ sum_by (λ part. part.trace) parts.now }
{
    parts.iter().map(|part| part.trace as usize).sum()
}

// The most rows that the parts of a bundle keep; none where it breaks a rule.
fn judged_room(platform: &Platform, judged: &Result<Bundle, BRule>) -> usize
    requires { IfOk judged.now (IsWellFormed platform.now) }
    ensures { result ≡ bundle_rows judged.now }
{
    match judged {
        Ok(bundle) => parts_room(bundle.parts.as_slice()),
        Err(_) => 0,
    }
}

/// Answers the most rows that an application of the world can have.
pub fn most_room(world: &World) -> usize
    requires { IsSoundCatalog world.now }
    ensures { result ≡ most_rows world.now }
{
    let mut most = 0;
    for named in world.catalog.as_slice() {
        most = judged_room(&world.platform, &named.judged).max(most);
    }
    most
}
