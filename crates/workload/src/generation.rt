//! The texts of a workload, made session by session.

ghost use Rattle.std.specs.Prelude.{◌≡◌, ◌≤◌, ◌<◌, ◌*◌, ◌++◌, [], ◌∷◌, Some, OnOk, IfOk, string_bytes};
ghost use Rattle.workload.specs.Documents.{bundle_document};
ghost use Rattle.workload.specs.Draws.{state_after};
ghost use Rattle.workload.specs.Texts.{bundle_name, load_lines, AreTexts};
ghost use Rattle.workload.specs.inner.Loads.{documents_of, bundles_from, lines_from};

use crate::bundle::bundle_text;
use crate::drawn::Drawn;
use crate::draws::Draws;
use crate::platform::platform_text;
use crate::script::{bundle_name, load_lines, script_name};
use crate::texts::{NamedText, Texts};
use soc_base::{Items, NoMemory, Text};
use std::alloc::Global;

/// The sessions of a workload.
const SESSIONS: u8 = 4;

/// The loads of each session.
const LOADS: u8 = 6;

/// The cycle at which a run ends.
const BUDGET: u64 = 65_536;

// Appends the bundle file of a session's load, and its lines in the script.
fn push_load(
    alloc: Global,
    session: u8,
    load: u8,
    drawn: Drawn,
    bundles: &mut Items<NamedText>,
    script: &mut String,
) -> Result<(), NoMemory>
    requires { 0 < load }
    ensures bundles { OnOk result (documents_of bundles.new ≡ documents_of bundles.old
        ++ (bundle_name session load, Some (bundle_document session drawn)) ∷ []) }
    ensures script { OnOk result (string_bytes script.new
        ≡ string_bytes script.old ++ load_lines session load drawn) }
{
    script.push_str(load_lines(session, load, drawn).as_str())?;
    let name = Text::from_str(alloc, bundle_name(session, load).as_str())?;
    let text = bundle_text(alloc, session, drawn)?;
    bundles.push(NamedText { name, text })?;
    Ok(())
}

// Draws the loads of a session and appends their bundle files. Answers the session's script.
fn push_session(
    alloc: Global,
    session: u8,
    draws: &mut Draws,
    bundles: &mut Items<NamedText>,
) -> Result<Text, NoMemory>
    ensures draws { OnOk result (draws.new.state ≡ state_after draws.old.state 42) }
    ensures bundles { OnOk result (documents_of bundles.new
        ≡ documents_of bundles.old ++ bundles_from draws.old.state session 6) }
    ensures script { IfOk result (λ script. script ≡ lines_from draws.old.state session 6) }
{
    let mut script = String::new(alloc);
    for load in 1..=LOADS {
        let drawn = draws.load();
        push_load(alloc, session, load, drawn, bundles, &mut script)?;
    }
    Ok(Text::from_string(script))
}

/// Makes the texts of the workload of a number: the platform file, six bundle files for each of four sessions,
/// and a script for each session. `NoMemory` where there is none for them.
pub fn generate(alloc: Global, number: u32) -> Result<Texts, NoMemory>
    ensures { IfOk result (AreTexts number) }
{
    let platform = platform_text(alloc)?;
    let mut draws = Draws::new(number);
    let mut bundles = Items::new(alloc);
    let mut scripts = Items::new(alloc);
    for session in 1..=SESSIONS {
        let text = push_session(alloc, session, &mut draws, &mut bundles)?;
        let name = Text::from_str(alloc, script_name(session).as_str())?;
        scripts.push(NamedText { name, text })?;
    }
    Ok(Texts {
        platform,
        bundles,
        scripts,
        budget: BUDGET,
    })
}
