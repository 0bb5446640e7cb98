//! A workload of four sessions on a ring of 16 tiles, on one thread and by threads: whatever history comes,
//! each application does what it does alone.

ghost use Rattle.std.specs.Prelude.{IfOk};
ghost use Rattle.vep_manager.specs.Setup.{IsSound};

use crate::checks::{checked_live, checked_run};
use crate::setups::{File, files_of, read};
use soc_base::Items;
use std::alloc::Global;
use std::process::Abort;
use std::test::Fail;
use vep_manager::Setup;
use workload::{NamedText, generate};

// Names and texts, as files.
fn named<'t>(alloc: Global, texts: &'t Items<NamedText>) -> Result<Vec<File<'t>>, Fail> {
    let mut files = Vec::new(alloc);
    for text in texts.as_slice() {
        files.push((text.name.as_str(), text.text.as_str()))?;
    }
    Ok(files)
}

// The setup of the workload of a number.
fn drawn<A: Abort>(rt: &A, alloc: Global, number: u32) -> Result<Setup, Fail>
    ensures { IfOk result IsSound }
{
    let texts = generate(alloc, number)?;
    let bundles = named(alloc, &texts.bundles)?;
    let mut files = files_of(alloc, texts.platform.as_str(), bundles.as_slice())?;
    let mut scripts = Vec::new(alloc);
    for script in texts.scripts.as_slice() {
        scripts.push(script.text.as_str())?;
    }
    read(rt, alloc, &mut files, scripts.as_slice(), texts.budget)
}

#[test]
fn a_workload_by_threads(rt: HostRuntime) -> Result<(), Fail> {
    let alloc = rt.alloc();
    let setup = drawn(&rt, alloc, 1)?;
    checked_run(&rt, alloc, &setup, 21)?;
    for workers in [1u8, 8] {
        let granted = checked_live(&rt, alloc, &setup, workers)?;
        assert!(rt; granted > 0);
    }
    Ok(())
}
