//! Reading and judging one file of a request.

ghost use Rattle.std.specs.Prelude.{◌≡◌, ◌≤◌, Ok, IfOk, IfErr};
ghost use Rattle.bundle_model.specs.WellFormed.{IsWellFormed};
ghost use Rattle.soc_top.specs.Wants.{Gives, Refuses};
ghost use Rattle.soc_top.specs.Wants.Want.{PlatformWant, BundleWant, JudgedWant};
ghost use Rattle.soc_top.specs.Wants.Input.{PlatformRead, BundleRead};
ghost use Rattle.soc_top.specs.inner.Loading.{HasContent, Misses};

use crate::fault::TopFault;
use bundle_file::read_bundle;
use bundle_model::{BRule, Bundle, BundleFault, Named};
use platform_file::read_platform;
use platform_model::{PRule, Platform, PlatformFault};
use soc_base::{Items, NoMemory, Text};
use soc_io::{Files, FilesFault};
use std::alloc::Global;

/// What was read of a file.
#[derive(Debug, Drop)]
pub enum Content {
    /// Its bytes, of which there are at most `MOST_FILE_BYTES`.
    Whole(Items<u8>),
    /// The file is longer.
    TooLong,
}

/// Copies the name of a file.
pub fn copied(alloc: Global, name: &Text) -> Result<Text, NoMemory>
    ensures { IfOk result (λ copy. copy ≡ name.now) }
{
    Ok(Text::from_str(alloc, name.as_str())?)
}

/// Reads a file. Refuses where it is absent or not read.
pub fn read_file<F: Files>(alloc: Global, name: &Text, files: &mut F) -> Result<Content, TopFault>
    ensures same { F.holds files.new ≡ F.holds files.old }
    ensures counted { F.faults files.old ≤ F.faults files.new }
    ensures content { IfOk result (HasContent (F.holds files.old) (F.faults files.old) (F.faults files.new) name.now) }
    ensures missed { IfErr result (Misses (F.holds files.old) (F.faults files.old) (F.faults files.new) name.now) }
{
    let mut bytes = Vec::new(alloc);
    match files.read(alloc, name.as_str(), &mut bytes) {
        Ok(()) => Ok(Content::Whole(Items::from_vec(bytes))),
        Err(FilesFault::Absent) => Err(TopFault::Absent(copied(alloc, name)?)),
        Err(FilesFault::TooLong) => Ok(Content::TooLong),
        Err(FilesFault::Failed) => Err(TopFault::Read(copied(alloc, name)?)),
        Err(FilesFault::NoMemory) => Err(TopFault::NoMemory),
    }
}

/// Reads and judges a platform file. A file that is too long breaks rule P1.
#[tactic(auto, using(crate::proofs::Missing::missed, crate::proofs::Missing::long_platform))]
pub fn load_platform<F: Files>(
    alloc: Global,
    name: &Text,
    files: &mut F,
) -> Result<Platform, TopFault>
    ensures same { F.holds files.new ≡ F.holds files.old }
    ensures counted { F.faults files.old ≤ F.faults files.new }
    ensures gives { IfOk result (λ platform. Gives (F.holds files.old) (PlatformWant name.now)
        (PlatformRead platform)) }
    ensures refused { IfErr result (Refuses (F.holds files.old) (F.faults files.old) (F.faults files.new)
        (PlatformWant name.now)) }
{
    match read_file(alloc, name, files)? {
        Content::Whole(bytes) => match read_platform(alloc, bytes.as_slice()) {
            Ok(platform) => Ok(platform),
            Err(PlatformFault::Rule(rule)) => Err(TopFault::Platform(rule)),
            Err(PlatformFault::NoMemory) => Err(TopFault::NoMemory),
        },
        Content::TooLong => Err(TopFault::Platform(PRule::P1)),
    }
}

/// Reads and judges a bundle file for a platform. A file that is too long breaks rule B1.
#[tactic(auto, using(crate::proofs::Missing::missed))]
pub fn load_bundle<F: Files>(
    alloc: Global,
    platform: &Platform,
    name: &Text,
    files: &mut F,
) -> Result<Named, TopFault>
    ensures same { F.holds files.new ≡ F.holds files.old }
    ensures counted { F.faults files.old ≤ F.faults files.new }
    ensures gives { IfOk result (λ named. Gives (F.holds files.old) (JudgedWant platform.now name.now)
        (BundleRead named)) }
    ensures well_formed { IfOk result (λ named. IfOk named.judged (IsWellFormed platform.now)) }
    ensures refused { IfErr result (Refuses (F.holds files.old) (F.faults files.old) (F.faults files.new)
        (JudgedWant platform.now name.now)) }
{
    let content = read_file(alloc, name, files)?;
    let name = copied(alloc, name)?;
    match content {
        Content::Whole(bytes) => match read_bundle(alloc, bytes.as_slice(), platform) {
            Ok(bundle) => Ok(Named {
                name,
                judged: Ok(bundle),
            }),
            Err(BundleFault::Rule(rule)) => Ok(Named {
                name,
                judged: Err(rule),
            }),
            Err(BundleFault::NoMemory) => Err(TopFault::NoMemory),
        },
        Content::TooLong => Ok(Named {
            name,
            judged: Err(BRule::B1),
        }),
    }
}

/// Reads the bundle of a file, and refuses one that breaks a rule.
#[tactic(auto, using(crate::proofs::Missing::bundle_too, crate::proofs::Missing::bundle_kept, crate::proofs::Missing::bundle_broken))]
pub fn load_kept<F: Files>(
    alloc: Global,
    platform: &Platform,
    name: &Text,
    files: &mut F,
) -> Result<Bundle, TopFault>
    ensures same { F.holds files.new ≡ F.holds files.old }
    ensures counted { F.faults files.old ≤ F.faults files.new }
    ensures gives { IfOk result (λ bundle. Gives (F.holds files.old) (BundleWant platform.now name.now)
        (BundleRead (record { name = name.now; judged = Ok bundle }))) }
    ensures well_formed { IfOk result (IsWellFormed platform.now) }
    ensures refused { IfErr result (Refuses (F.holds files.old) (F.faults files.old) (F.faults files.new)
        (BundleWant platform.now name.now)) }
{
    let Named { name, judged } = match load_bundle(alloc, platform, name, files) {
        Ok(named) => named,
        Err(fault) => return Err(fault),
    };
    match judged {
        Ok(bundle) => Ok(bundle),
        Err(rule) => Err(TopFault::Bundle(name, rule)),
    }
}
