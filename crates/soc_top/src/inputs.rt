//! What the files of an `alone` give.

ghost use Rattle.std.specs.Prelude.{◌≤◌, IfOk, IfErr};
ghost use Rattle.bundle_model.specs.WellFormed.{IsWellFormed};
ghost use Rattle.soc_top.specs.Order.{AreRead, Cause};
ghost use Rattle.soc_top.specs.Alone.{alone_order, alone_inputs};

use crate::fault::TopFault;
use crate::file::{load_kept, load_platform};
use bundle_model::Bundle;
use command_words::AloneWords;
use platform_model::Platform;
use soc_io::Files;
use std::alloc::Global;

/// The platform and the bundle of an `alone`.
#[derive(Debug, Drop)]
pub struct Inputs {
    /// The platform.
    pub platform: Platform,
    /// The bundle, well-formed for the platform.
    pub bundle: Bundle,
}

/// Reads and judges the files of a request, in order. Refuses by the first event that does.
#[tactic(auto, using(crate::proofs::Orders::stopped_first))]
pub fn load<F: Files>(
    alloc: Global,
    request: &AloneWords,
    files: &mut F,
) -> Result<Inputs, TopFault>
    ensures counted { F.faults files.old ≤ F.faults files.new }
    ensures read { IfOk result (λ inputs. AreRead (F.holds files.old) (alone_order request.now)
        (alone_inputs request.now inputs.platform inputs.bundle)) }
    ensures stopped { IfErr result (Cause (F.holds files.old) (F.faults files.old) (F.faults files.new)
        (alone_order request.now)) }
    ensures well_formed { IfOk result (λ inputs. IsWellFormed inputs.platform inputs.bundle) }
{
    let platform = match load_platform(alloc, &request.platform, files) {
        Ok(platform) => platform,
        Err(fault) => return Err(fault),
    };
    let bundle = match load_kept(alloc, &platform, &request.bundle, files) {
        Ok(bundle) => bundle,
        Err(fault) => return Err(fault),
    };
    Ok(Inputs { platform, bundle })
}
