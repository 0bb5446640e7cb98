//! The command `generate`.

ghost use Rattle.std.specs.Prelude.{◌≡◌, ◌≤◌, Some, IfOk, OnOk, map};
ghost use Rattle.vep_manager.specs.Setup.{IsSound};
ghost use Rattle.vep_manager.specs.Legal.{IsRoundRobin};
ghost use Rattle.command_words.specs.Request.{IsRunInForm};
ghost use Rattle.soc_top.specs.Run.{GivesSetup};
ghost use Rattle.soc_top.specs.Generate.{with_files, files_of, workload_words, IsWorkload, IsSummaryOf, GenerateAnswers};
ghost use Rattle.soc_top.specs.Answers.{Concludes};

use crate::ending::{Ending, code, refuse};
use crate::fault::TopFault;
use crate::setup::read_setup;
use command_words::RunWords;
use report_text::write_summary;
use serial_run::serial_all;
use soc_base::{Items, NoMemory, Text};
use soc_io::{MemFiles, Sink};
use std::alloc::Global;
use vep_manager::Setup;
use workload::{NamedText, PLATFORM_FILE, Texts, generate};

// Adds files, each by its name.
fn add_all(files: &mut MemFiles, named: &[NamedText]) -> Result<(), NoMemory>
    ensures { OnOk result (files.new ≡ record files.old { held = with_files files.old.held named.now }) }
{
    for file in named {
        files.add(file.name.as_str(), file.text.as_str().as_bytes())?;
    }
    Ok(())
}

// The files of a workload, in memory.
fn files_of(alloc: Global, texts: &Texts) -> Result<MemFiles, NoMemory>
    ensures { IfOk result (λ files. files.held ≡ files_of texts.now) }
{
    let mut files = MemFiles::new(alloc, Vec::new(alloc));
    files.add(PLATFORM_FILE, texts.platform.as_str().as_bytes())?;
    add_all(&mut files, texts.bundles.as_slice())?;
    add_all(&mut files, texts.scripts.as_slice())?;
    Ok(files)
}

// The names of files.
fn names_of(alloc: Global, named: &[NamedText]) -> Result<Items<Text>, NoMemory>
    ensures { IfOk result (λ names. names ≡ map (λ file. file.name) named.now) }
{
    let mut names = Items::new(alloc);
    for file in named {
        names.push(Text::from_str(alloc, file.name.as_str())?)?;
    }
    Ok(names)
}

// How a workload is run.
fn workload_words(alloc: Global, texts: &Texts) -> Result<RunWords, NoMemory>
    ensures { IfOk result (λ words. words ≡ workload_words texts.now) }
{
    Ok(RunWords {
        platform: Text::from_str(alloc, PLATFORM_FILE)?,
        budget: texts.budget,
        scripts: names_of(alloc, texts.scripts.as_slice())?,
        workers: 0,
        state: false,
    })
}

// Reads the texts of a workload as the files of a run are read. A read of files in memory never fails. That no
// text of a workload breaks a rule isn't proved: one that did, a fault of ours, would end as want of memory.
fn read_texts(alloc: Global, texts: &Texts) -> Result<Setup, NoMemory>
    requires { IsRunInForm (workload_words texts.now) }
    ensures read { IfOk result (GivesSetup (Some (files_of texts.now)) (workload_words texts.now)) }
    ensures sound { IfOk result IsSound }
{
    let mut files = files_of(alloc, texts)?;
    let words = workload_words(alloc, texts)?;
    match read_setup(alloc, &words, &mut files) {
        Ok(setup) => Ok(setup),
        Err(_) => Err(NoMemory),
    }
}

// The setup of the workload of a number.
fn workload(alloc: Global, number: u32) -> Result<Setup, NoMemory>
    ensures workload { IfOk result (IsWorkload number) }
    ensures sound { IfOk result IsSound }
{
    let texts = generate(alloc, number)?;
    read_texts(alloc, &texts)
}

// Runs the workload of a number, and writes the summary, or the line of a fault at want of memory.
fn end<S: Sink>(alloc: Global, number: u32, sink: &mut S) -> Ending
    ensures counted { S.faults sink.old ≤ S.faults sink.new }
    ensures concludes { Concludes (IsSummaryOf number) (S.written sink.old) (S.faults sink.old) (S.written sink.new)
        (S.faults sink.new) result }
{
    let Ok(setup) = workload(alloc, number) else {
        return refuse(TopFault::NoMemory, sink);
    };
    let Ok(end) = serial_all(alloc, &setup) else {
        return refuse(TopFault::NoMemory, sink);
    };
    match write_summary(number, &setup, &end, sink) {
        Ok(()) => Ending::Done,
        Err(_) => Ending::Unwritten,
    }
}

/// Does a `generate`: makes the workload of a number, runs it on one thread, and writes the summary: how many
/// commands got which reply, how many rows were kept and cut, how the parts ended. Answers the status: 0 where
/// the summary was written, 6 where a write of it failed, 7 at want of memory, with the line of that fault.
pub fn generate_call<S: Sink>(alloc: Global, number: u32, sink: &mut S) -> u8
    ensures { GenerateAnswers (S.written sink.old) (S.faults sink.old) (S.written sink.new)
        (S.faults sink.new) number result }
{
    code(&end(alloc, number, sink))
}
