//! Why a request is refused, as a line and a status.

ghost use Rattle.std.specs.Prelude.{◌≡◌, ◌≤◌, ◌++◌, codes, length};
ghost use Rattle.bundle_model.specs.Words.{bundle_rule_text};
ghost use Rattle.report_text.specs.Rows.{line_end};
ghost use Rattle.soc_top.specs.Exchange.{SaysText};
ghost use Rattle.soc_top.specs.Faults.{script_fault_text, fault_line, fault_status};

use bundle_model::BRule;
use platform_model::PRule;
use script_file::ScriptFault;
use soc_base::{Line, NoMemory, Text, push_number};
use soc_io::{Printer, Sink};

/// Why a request is refused. Names are those of files, as the request gave them.
#[derive(Debug, Drop)]
pub enum TopFault {
    /// The platform file breaks this rule, and none before it.
    Platform(PRule),
    /// The script is longer than files may be.
    ScriptTooLong(Text),
    /// The script has this fault.
    Script(Text, ScriptFault),
    /// The bundle file breaks this rule, and none before it.
    Bundle(Text, BRule),
    /// There is no file of this name.
    Absent(Text),
    /// The file of this name could not be read.
    Read(Text),
    /// Memory was wanted and not had.
    NoMemory,
}

impl From<NoMemory> for TopFault {
    ghost use Rattle.std.specs.Prelude.{◌≡◌};
    ghost use Rattle.soc_top.specs.declared.fault.TopFault.TheVariants.{NoMemory as Unheld};

    ghost from_gives = { λ _ fault. fault ≡ Unheld };

    fn from(_none: NoMemory) -> TopFault {
        TopFault::NoMemory
    }
}

// The end of the line of a script's fault.
fn script_back(fault: ScriptFault) -> Line
    ensures { result.bytes ≡ script_fault_text fault ++ line_end }
{
    let mut line = Line::new();
    match fault {
        ScriptFault::Line(number, rule) => {
            line.push_str(" line ");
            push_number(&mut line, u64::from(number));
            line.push_str(" ");
            line.push_str(rule.word());
            line.push_str("\n");
        }
        ScriptFault::TooMany => line.push_str(" too many\n"),
        ScriptFault::NoMemory => line.push_str(" no memory\n"),
    }
    line
}

// The end of the line of a bundle's fault.
fn bundle_back(rule: BRule) -> Line
    ensures { result.bytes ≡ codes " " ++ bundle_rule_text rule ++ line_end }
{
    let mut line = Line::new();
    line.push_str(" ");
    line.push_str(rule.word());
    line.push_str("\n");
    line
}

// The end of a line: a short text, or none.
fn text_back(text: &str) -> Line
    requires { length text.now ≤ 16 }
    ensures { result.bytes ≡ text.now ++ line_end }
{
    let mut line = Line::new();
    line.push_str(text);
    line.push_str("\n");
    line
}

// The line of a fault, in three pieces.
#[tactic(auto, unfolding(crate::specs::Faults::fault_line))]
fn pieces(fault: &TopFault) -> (&str, &str, Line)
    ensures { result.0.now ++ result.1.now ++ result.2.bytes ≡ fault_line fault.entry.now }
{
    match fault {
        TopFault::Platform(rule) => ("compsoc: platform ", rule.word(), text_back("")),
        TopFault::ScriptTooLong(name) => {
            ("compsoc: script ", name.as_str(), text_back(" too long"))
        }
        TopFault::Script(name, fault) => {
            ("compsoc: script ", name.as_str(), script_back(*fault))
        }
        TopFault::Bundle(name, rule) => ("compsoc: bundle ", name.as_str(), bundle_back(*rule)),
        TopFault::Absent(name) => ("compsoc: absent ", name.as_str(), text_back("")),
        TopFault::Read(name) => ("compsoc: read ", name.as_str(), text_back("")),
        TopFault::NoMemory => ("compsoc: ", "memory", text_back("")),
    }
}

/// Answers the status of a fault.
pub fn status(fault: &TopFault) -> u8
    ensures { result ≡ fault_status fault.now }
{
    match fault {
        TopFault::Platform(_) => 2,
        TopFault::ScriptTooLong(_) | TopFault::Script(_, _) | TopFault::Bundle(_, _) => 3,
        TopFault::Absent(_) => 4,
        TopFault::Read(_) => 5,
        TopFault::NoMemory => 7,
    }
}

/// Writes the line of a fault, or a front of it where a write fails.
pub fn write_fault<S: Sink>(fault: &TopFault, sink: &mut S)
    ensures counted { S.faults sink.old ≤ S.faults sink.new }
    ensures line { SaysText S.written S.faults sink.old sink.new (fault_line fault.now) }
{
    let (front, name, back) = pieces(fault);
    let mut printer = Printer::new(sink);
    printer.put_named(front, name, back.as_str());
    let _ = printer.finish();
}
