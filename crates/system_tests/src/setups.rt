//! Reading the setup of a run from the texts of its files.

ghost use Rattle.std.specs.Prelude.{IfOk};
ghost use Rattle.vep_manager.specs.Setup.{IsSound};
ghost use Rattle.command_words.specs.Request.{IsRunInForm};

use soc_base::{Items, LAST_STATED_CYCLE, MOST_SCRIPTS, Text};
use soc_io::MemFiles;
use soc_top::{RunWords, read_setup};
use std::alloc::Global;
use std::process::Abort;
use std::test::Fail;
use vep_manager::Setup;

// The name of the platform file.
const PLATFORM: &str = "platform.toml";

/// A bundle file: its name and its text.
pub type File<'a> = (&'a str, &'a str);

// The words of a run of this platform file and these scripts.
fn words<A: Abort>(
    rt: &A,
    alloc: Global,
    scripts: Items<Text>,
    budget: u64,
) -> Result<RunWords, Fail>
    ensures { IfOk result IsRunInForm }
{
    assert!(rt; !scripts.is_empty());
    assert!(rt; scripts.len() <= MOST_SCRIPTS);
    assert!(rt; budget <= LAST_STATED_CYCLE);
    Ok(RunWords {
        platform: Text::from_str(alloc, PLATFORM)?,
        budget,
        scripts,
        workers: 0,
        state: false,
    })
}

// Adds the scripts, one for each session, and answers their names.
fn add_scripts(alloc: Global, files: &mut MemFiles, scripts: &[&str]) -> Result<Items<Text>, Fail> {
    let mut names = Items::new(alloc);
    for text in scripts {
        let number = names.len();
        let name = format!(in alloc; "{number}.txt")?;
        files.add(name.as_str(), text.as_bytes())?;
        names.push(Text::from_string(name))?;
    }
    Ok(names)
}

/// The platform file and bundle files.
pub fn files_of(alloc: Global, platform: &str, bundles: &[File<'_>]) -> Result<MemFiles, Fail> {
    let mut files = MemFiles::new(alloc, Vec::new(alloc));
    files.add(PLATFORM, platform.as_bytes())?;
    for (name, text) in bundles {
        files.add(name, text.as_bytes())?;
    }
    Ok(files)
}

/// Reads the setup of sessions with these scripts, up to a cycle, and adds their files. Bundle files are
/// named by the scripts.
pub fn read<A: Abort>(
    rt: &A,
    alloc: Global,
    files: &mut MemFiles,
    scripts: &[&str],
    budget: u64,
) -> Result<Setup, Fail>
    ensures { IfOk result IsSound }
{
    let names = add_scripts(alloc, files, scripts)?;
    let words = words(rt, alloc, names, budget)?;
    let Ok(setup) = read_setup(alloc, &words, files) else {
        panic!(rt; "the files give no setup");
    };
    Ok(setup)
}

/// Reads a setup of these files.
pub fn setup_of<A: Abort>(
    rt: &A,
    alloc: Global,
    platform: &str,
    bundles: &[File<'_>],
    scripts: &[&str],
    budget: u64,
) -> Result<Setup, Fail>
    ensures { IfOk result IsSound }
{
    let mut files = files_of(alloc, platform, bundles)?;
    read(rt, alloc, &mut files, scripts, budget)
}
