//! An application that is stopped while the microkernel switches: the other application of the tile logs
//! what it logs without it, and nothing of the one that was stopped is left.

ghost use Rattle.std.specs.Prelude.{IfOk};
ghost use Rattle.vep_manager.specs.Setup.{IsSound};

use crate::checks::{check_same, checked_run, label, tile_of};
use crate::setups::setup_of;
use crate::texts::{PartText, part, small};
use comik::Kernel;
use event_core::{Core, Event};
use std::alloc::Global;
use std::process::Abort;
use std::test::Fail;
use vep_manager::Setup;

// Puts the address of TRACE into x6, and from there on adds 1 to x5 and traces it, again and again.
const COUNT: &str = "3703008093821200232053006ff09fff";

// A part that counts without end.
fn counting(alloc: Global, slots: &str, base: u16) -> Result<String, Fail> {
    let counter = PartText {
        tile: 0,
        slots,
        base,
        kinds: "\"word\", \"step\"",
        ports: "",
        image: COUNT,
    };
    let text = part(alloc, counter)?;
    Ok(format!(in alloc; "version = 1\n{text}")?)
}

// One tile over 128 slots. The first session has this script, and the second loads an application in
// partition slot 1, to which the instances 1, 3, 5 and 7 belong.
fn beside<A: Abort>(rt: &A, alloc: Global, script: &str) -> Result<Setup, Fail>
    ensures { IfOk result IsSound }
{
    let platform = small(alloc, 1, "")?;
    let first = counting(alloc, "0", 0)?;
    let second = counting(alloc, "1", 64)?;
    let files = [("a.toml", first.as_str()), ("b.toml", second.as_str())];
    let scripts = [script, "load b.toml at 0\n"];
    setup_of(rt, alloc, platform.as_str(), &files, &scripts, 1024)
}

// How a microkernel stands: the part that is held and the one that is latched, and whether a word of frame
// 0 or of the register file isn't zero.
#[derive(Clone, Copy, Debug, PartialEq, Eq)]
struct Standing {
    held: Option<u8>,
    latched: Option<u8>,
    frame: bool,
    file: bool,
}

// How a microkernel stands.
fn state_of<A: Abort>(rt: &A, kernel: &Kernel) -> Standing {
    assert!(rt; kernel.frame().slots > 0);
    let mut frame = false;
    let mut file = false;
    for n in 0..33 {
        frame |= kernel.frame_word(0, n) != 0;
        file |= kernel.file_word(n) != 0;
    }
    Standing {
        held: kernel.held(),
        latched: kernel.latched(),
        frame,
        file,
    }
}

// Does so many slots of the only tile, and answers how its microkernel stands then.
fn after_slots<A: Abort>(rt: &A, core: &mut Core<'_>, slots: u64) -> Result<Standing, Fail> {
    let event = Event::Slot(0);
    for _slot in 0..slots {
        core.run(&[event])?;
    }
    assert!(rt; core.exists(event));
    let tile = core.tile(0);
    Ok(state_of(rt, tile.kernel()))
}

// How the microkernel stands before the slot in which the first application is stopped, and after it.
fn around<A: Abort>(
    rt: &A,
    alloc: Global,
    setup: &Setup,
    slot: u64,
) -> Result<(Standing, Standing), Fail>
    requires { IsSound setup.now }
{
    let mut core = Core::new(alloc, setup)?;
    let commands = [Event::Command(1), Event::Command(1), Event::Command(2)];
    assert_eq!(rt; core.run(&commands)?, 3);
    let before = after_slots(rt, &mut core, slot)?;
    Ok((before, after_slots(rt, &mut core, 1)?))
}

// The part that is held before and after a slot, and the one that is latched.
type Change = ((Option<u8>, Option<u8>), (Option<u8>, Option<u8>));

#[test]
fn stopped_while_switching(rt: HostRuntime) -> Result<(), Fail> {
    let alloc = rt.alloc();
    let alone = beside(&rt, alloc, "")?;
    let alone = checked_run(&rt, alloc, &alone, 1)?;
    let (first, second, none) = (Some(0), Some(1), None);
    // The slot of the stop, who is held and latched before it, who after it, and whether a word of the
    // register file isn't zero then. Instance 2 is the first application's and begins with slot 32; the
    // swap is in slot 36.
    let cases: [(u8, Change, bool); 7] = [
        // Latched and not yet held, while the other's words are saved; then nobody is restored.
        (33, ((second, first), (second, none)), true),
        (36, ((second, first), (none, none)), true),
        // While its words are restored.
        (37, ((first, first), (none, none)), false),
        (40, ((first, first), (none, none)), false),
        // While its words are saved; in slot 52 the other is swapped in.
        (49, ((first, second), (none, second)), false),
        (51, ((first, second), (none, second)), false),
        (52, ((first, second), (second, second)), true),
    ];
    for (slot, ((held, latched), (held_then, latched_then)), file) in cases {
        let slot = u64::from(slot);
        let cycle = slot * 8;
        let script = format!(in alloc; "load a.toml at 0\nstop 1 at {cycle}\n")?;
        let setup = beside(&rt, alloc, script.as_str())?;
        let (before, after) = around(&rt, alloc, &setup, slot)?;
        let then = Standing {
            held: held_then,
            latched: latched_then,
            frame: false,
            file,
        };
        assert_eq!(rt;
            (before.held, before.latched),
            (held, latched),
            "in slot {slot}"
        );
        assert!(rt; before.frame && before.file, "in slot {slot}");
        assert_eq!(rt; after, then, "after slot {slot}");
        let end = checked_run(&rt, alloc, &setup, 2)?;
        let other = label(2, 1);
        check_same(
            &rt,
            tile_of(&rt, &end, 0).log(other),
            tile_of(&rt, &alone, 0).log(other),
        );
    }
    Ok(())
}
