//! The command `check`.

ghost use Rattle.std.specs.Prelude.{◌≡◌, ◌≤◌, ◌++◌, [], find, fold, IfOk, IfErr};
ghost use Rattle.std.specs.List.{flat_map};
ghost use Rattle.std.specs.Option.{option_copied};
ghost use Rattle.std.specs.Str.{bytes_eq};
ghost use Rattle.arrayvec.specs.ArrayString.{array_string_len};
ghost use Rattle.bundle_model.specs.declared.world.Named.{Named};
ghost use Rattle.platform_model.specs.declared.platform.Platform.{Platform};
ghost use Rattle.report_text.specs.Rows.{line_end};
ghost use Rattle.command_words.specs.Request.{IsCheckInForm};
ghost use Rattle.soc_io.specs.Printing.{PrintsMore};
ghost use Rattle.soc_top.specs.Exchange.{exchanged};
ghost use Rattle.soc_top.specs.Order.{AreRead, Cause};
ghost use Rattle.soc_top.specs.Answers.{Ends};
ghost use Rattle.soc_top.specs.Run.{with_name};
ghost use Rattle.soc_top.specs.Check.{checked_names, check_order, verdict_text, verdict_line, verdicts_text, check_inputs, CheckTexts, CheckAnswers};
ghost use Rattle.soc_top.specs.Answers.{Concludes};
ghost use Rattle.soc_top.specs.inner.Checking.{HasChecked, StopsChecking};

use crate::catalog::{add_name, read_catalog};
use crate::ending::{Ending, code, refuse};
use crate::fault::TopFault;
use crate::file::load_platform;
use bundle_model::{BRule, Bundle, Named};
use command_words::CheckWords;
use platform_model::Platform;
use soc_base::{Line, NoMemory, Text};
use soc_io::{Files, Printer, Sink};
use std::alloc::Global;

// The bundle files that the words name, each once, in the order of their first naming.
fn distinct_names(alloc: Global, names: &[Text]) -> Result<Vec<Text>, NoMemory>
    ensures { IfOk result (λ known. known.items ≡ fold with_name [] names.now) }
{
    let mut known = Vec::new(alloc);
    for name in names {
        add_name(alloc, &mut known, name)?;
    }
    Ok(known)
}

// Reads and judges the bundle files that the words name.
fn checked_catalog<F: Files>(
    alloc: Global,
    platform: &Platform,
    request: &CheckWords,
    files: &mut F,
) -> Result<Vec<Named>, TopFault>
    ensures counted { F.faults files.old ≤ F.faults files.new }
    ensures read { IfOk result (HasChecked (F.holds files.old) platform.now request.now) }
    ensures stopped { IfErr result (StopsChecking (F.holds files.old) (F.faults files.old) (F.faults files.new)
        platform.now request.now) }
{
    let names = distinct_names(alloc, request.bundles.as_slice())?;
    read_catalog(alloc, platform, names.as_slice(), files)
}

// Reads and judges the platform and then the bundle files.
#[tactic(auto, using(crate::proofs::Orders::stopped_first))]
fn read_checked<F: Files>(
    alloc: Global,
    request: &CheckWords,
    files: &mut F,
) -> Result<Vec<Named>, TopFault>
    ensures counted { F.faults files.old ≤ F.faults files.new }
    ensures read { IfOk result (λ catalog. (platform : Platform)
        × AreRead (F.holds files.old) (check_order request.now) (check_inputs platform catalog.items)) }
    ensures stopped { IfErr result (Cause (F.holds files.old) (F.faults files.old) (F.faults files.new)
        (check_order request.now)) }
{
    let platform = match load_platform(alloc, &request.platform, files) {
        Ok(platform) => platform,
        Err(fault) => return Err(fault),
    };
    match checked_catalog(alloc, &platform, request, files) {
        Ok(catalog) => Ok(catalog),
        Err(fault) => Err(fault),
    }
}

// How a bundle was judged, and the end of its line.
fn verdict_back(judged: &Result<Bundle, BRule>) -> Line
    ensures { result.bytes ≡ verdict_text judged.now ++ line_end }
{
    let mut line = Line::new();
    match judged {
        Ok(_) => line.push_str(" ok"),
        Err(rule) => {
            line.push_str(" malformed ");
            line.push_str(rule.word());
        }
    }
    line.push_str("\n");
    line
}

// The bundle of a name, if it is in the catalog.
fn judged_named<'c>(catalog: &'c [Named], name: &Text) -> Option<&'c Named>
    ensures { option_copied result ≡ find (λ named. bytes_eq named.name name.now) catalog.entry.now }
{
    catalog
        .iter()
        .find(|named| named.name.as_str() == name.as_str())
}

// Prints the line of a bundle file.
fn put_verdict<S: Sink>(printer: &mut Printer<'_, S>, catalog: &[Named], name: &Text)
    ensures printed { PrintsMore S.written S.faults printer.old printer.new (verdict_line catalog.now name.now) }
    ensures same { printer.new.sink.ghost_name ≡ printer.old.sink.ghost_name }
{
    match judged_named(catalog, name) {
        Some(named) => {
            printer.put_named("", name.as_str(), verdict_back(&named.judged).as_str());
        }
        None => printer.put_named("", name.as_str(), "\n"),
    }
}

// Prints a line for each of these names.
fn put_verdicts<S: Sink>(printer: &mut Printer<'_, S>, catalog: &[Named], names: &[Text])
    ensures printed { PrintsMore S.written S.faults printer.old printer.new
        (flat_map (verdict_line catalog.now) names.now) }
    ensures same { printer.new.sink.ghost_name ≡ printer.old.sink.ghost_name }
{
    for name in names {
        put_verdict(printer, catalog, name);
    }
}

// Writes the verdicts.
fn write_verdicts<S: Sink>(catalog: &[Named], request: &CheckWords, sink: &mut S) -> Ending
    ensures counted { S.faults sink.old ≤ S.faults sink.new }
    ensures concludes { Concludes (λ text. text ≡ verdicts_text catalog.now request.now) (S.written sink.old)
        (S.faults sink.old) (S.written sink.new) (S.faults sink.new) result }
{
    let mut printer = Printer::new(sink);
    put_verdicts(&mut printer, catalog, request.bundles.as_slice());
    match printer.finish() {
        Ok(()) => Ending::Done,
        Err(_) => Ending::Unwritten,
    }
}

// How a request ends: its files are read and judged, and the verdicts are written.
fn end<F: Files, S: Sink>(
    alloc: Global,
    request: &CheckWords,
    files: &mut F,
    sink: &mut S,
) -> Ending
    ensures { Ends (exchanged F.holds F.faults S.written S.faults files.old files.new sink.old sink.new)
        (check_order request.now) (CheckTexts request.now) result }
{
    match read_checked(alloc, request, files) {
        Ok(catalog) => write_verdicts(catalog.as_slice(), request, sink),
        Err(fault) => refuse(fault, sink),
    }
}

/// Does a `check`: reads and judges the platform file and then each bundle file in the order of its first
/// naming, and writes a line for each bundle file that the words name: that it is well-formed, or the least
/// rule that it breaks. Answers the status: 0 where the lines were written, 2 where the platform breaks a
/// rule, 4 where a file is absent, 5 where one could not be read, 6 where a write of the lines failed, 7 at
/// want of memory. At 2, 4, 5 and 7 the line of the fault was written.
#[tactic(auto, using(crate::proofs::Endings::answers_of))]
pub fn check_call<F: Files, S: Sink>(
    alloc: Global,
    request: &CheckWords,
    files: &mut F,
    sink: &mut S,
) -> u8
    requires { IsCheckInForm request.now }
    ensures { CheckAnswers (exchanged F.holds F.faults S.written S.faults files.old files.new sink.old sink.new)
        request.now result }
{
    code(&end(alloc, request, files, sink))
}
