//! The names of the files, and the lines of a script.

ghost use Rattle.std.specs.Prelude.{◌≡◌, ◌≤◌, ◌<◌};
ghost use Rattle.workload.specs.Texts.{bundle_name, script_name, load_lines};

use crate::drawn::Drawn;
use soc_base::{Line, push_number};

/// Answers the name of the bundle file of a session's load.
pub fn bundle_name(session: u8, load: u8) -> Line
    ensures { result.bytes ≡ bundle_name session load }
{
    let mut name = Line::new();
    name.push_str("g");
    push_number(&mut name, u64::from(session));
    push_number(&mut name, u64::from(load));
    name.push_str(".toml");
    name
}

/// Answers the name of a session's script.
pub fn script_name(session: u8) -> Line
    ensures { result.bytes ≡ script_name session }
{
    let mut name = Line::new();
    name.push_str("g");
    push_number(&mut name, u64::from(session));
    name.push_str(".txt");
    name
}

/// Answers the lines of a session's load, which is counted from 1.
pub fn load_lines(session: u8, load: u8, drawn: Drawn) -> Line
    requires { 0 < load }
    ensures { result.bytes ≡ load_lines session load drawn }
{
    let start = 8192 * u64::from(load - 1) + u64::from(drawn.offset);
    let mut lines = Line::new();
    lines.push_str("load g");
    push_number(&mut lines, u64::from(session));
    push_number(&mut lines, u64::from(load));
    lines.push_str(".toml at ");
    push_number(&mut lines, start);
    lines.push_str("\nstop ");
    push_number(&mut lines, u64::from(load));
    lines.push_str(" at ");
    push_number(&mut lines, start + 6144);
    lines.push_str("\nuntil ");
    push_number(&mut lines, 8192 * u64::from(load));
    lines.push_str("\n");
    lines
}
