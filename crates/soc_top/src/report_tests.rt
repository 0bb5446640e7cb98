//! The command `run`: whole reports.

use crate::tests::{File, SEVEN, add, bundle, expect};
use std::alloc::{AllocError, Global};
use std::test::Fail;

// A platform of one tile with so many cycles a slot and so many partition slots.
fn platform(alloc: Global, frame: (u8, u8)) -> Result<String, AllocError> {
    let (slot_cycles, partition_slots) = frame;
    format!(in alloc;
        "tiles = 1\nmem_bytes = 4096\nslot_cycles = {slot_cycles}\ntable_slots = 8\nkernel_cycles = 72\npartition_cycles = 56\npartition_slots = {partition_slots}\nports = 2\nqueue = 8\n"
    )
}

// Stores a word to TRACE five times and halts.
const FIVE: &str = "37030080232063002320630023206300232063002320630073000000";

// Divides 100 by 7 after 37 instructions that do nothing, stores the quotient and halts.
fn dividing_bundle(alloc: Global) -> Result<String, AllocError> {
    let mut image = String::from_str(alloc, "370300809302400693037000")?;
    for _ in 0..37 {
        image.push_str("13000000")?;
    }
    image.push_str("33c472022320830073000000")?;
    format!(in alloc;
        "version = 1\n[[part]]\ntile = 0\nslots = [0]\nbase = 0\nlen = 176\nentry = 0\ntrace = 16\nkinds = [\"word\"]\nimage = \"{image}\"\n"
    )
}

// The files that scripts name.
fn shelf_of_bundles(alloc: Global) -> Result<Vec<File>, Fail> {
    let mut shelf = Vec::new(alloc);
    let bundles = [
        ("a.toml", 0, 0, 16, "\"word\"", SEVEN),
        ("a2.toml", 1, 64, 16, "\"word\"", SEVEN),
        ("a3.toml", 2, 128, 16, "\"word\"", SEVEN),
        ("over.toml", 1, 48, 16, "\"word\"", SEVEN),
        ("bad.toml", 1, 64, 16, "\"word\"", "1300000000000000"),
        ("five.toml", 0, 0, 2, "\"word\"", FIVE),
        ("cut.toml", 2, 128, 2, "\"word\"", FIVE),
        ("lw.toml", 1, 64, 16, "\"step\"", "8322000073000000"),
        ("odd.toml", 0, 0, 16, "\"word\"", "83222000"),
        ("base.toml", 0, 8, 16, "\"word\"", SEVEN),
    ];
    for (name, slot, base, trace, kinds, image) in bundles {
        let text = bundle(alloc, slot, base, trace, kinds, image)?;
        add(alloc, &mut shelf, name, text.as_str())?;
    }
    let long = dividing_bundle(alloc)?;
    add(alloc, &mut shelf, "long.toml", long.as_str())?;
    Ok(shelf)
}

#[test]
fn reports(rt: HostRuntime) -> Result<(), Fail> {
    let alloc = rt.alloc();
    let frame = (8, 2);
    // The cycles of a slot and the partition slots, the budget and the scripts, two scripts, and the
    // report after the word `budget`.
    let cases = [
        (
            frame,
            "384 s.txt",
            ("load a.toml at 0\n", ""),
            "384\ncommand 1 1 load a.toml at 0: granted 1.1 at 0\napp 1.1 a.toml from 0 to 384\n77 0 word 00000007\npart 0 halt 00000000 at 78 cut 0\n",
        ),
        // The instance that began at 0 is missed, and that at 128 serves the other slot.
        (
            frame,
            "384 s.txt",
            ("load a.toml at 1\n", ""),
            "384\ncommand 1 1 load a.toml at 1: granted 1.1 at 8\napp 1.1 a.toml from 8 to 384\n333 0 word 00000007\npart 0 halt 00000000 at 334 cut 0\n",
        ),
        // The grant begins within the microkernel's cycles of its own instance, and misses it.
        (
            frame,
            "640 s.txt",
            ("load a.toml at 296", ""),
            "640\ncommand 1 1 load a.toml at 296: granted 1.1 at 296\napp 1.1 a.toml from 296 to 640\n589 0 word 00000007\npart 0 halt 00000000 at 590 cut 0\n",
        ),
        // The division begins at 112, has 18 cycles left at 127, and ends at 345.
        (
            frame,
            "512 s.txt",
            ("load long.toml at 0\n", ""),
            "512\ncommand 1 1 load long.toml at 0: granted 1.1 at 0\napp 1.1 long.toml from 0 to 512\n349 0 word 0000000e\npart 0 halt 00000000 at 350 cut 0\n",
        ),
        (frame, "8 s.txt", ("", ""), "8\n"),
        (frame, "8 s.txt", ("\n# note\n", ""), "8\n"),
        (
            frame,
            "0 s.txt",
            ("load a.toml at 0\n", ""),
            "0\ncommand 1 1 load a.toml at 0: granted 1.1 at 0\napp 1.1 a.toml from 0 to 0\npart 0 live cut 0\n",
        ),
        (
            frame,
            "384 s.txt",
            ("load five.toml at 0\n", ""),
            "384\ncommand 1 1 load five.toml at 0: granted 1.1 at 0\napp 1.1 five.toml from 0 to 384\n76 0 word 80000000\n80 0 word 80000000\npart 0 halt 00000000 at 93 cut 3\n",
        ),
        (
            frame,
            "384 s.txt",
            ("load lw.toml at 0\n", ""),
            "384\ncommand 1 1 load lw.toml at 0: granted 1.1 at 0\napp 1.1 lw.toml from 0 to 384\n201 0 step 00000000\n202 0 step 00000004\npart 0 halt 00000000 at 202 cut 0\n",
        ),
        (
            frame,
            "384 s.txt",
            ("load odd.toml at 0\n", ""),
            "384\ncommand 1 1 load odd.toml at 0: granted 1.1 at 0\napp 1.1 odd.toml from 0 to 384\npart 0 fault align at 73 cut 0\n",
        ),
        (
            frame,
            "384 s.txt",
            ("load base.toml at 0\n", ""),
            "384\ncommand 1 1 load base.toml at 0: malformed B7\n",
        ),
        (
            frame,
            "384 s.txt",
            ("load a.toml at 0\nload bad.toml at 0\n", ""),
            "384\ncommand 1 1 load a.toml at 0: granted 1.1 at 0\ncommand 1 2 load bad.toml at 0: granted 1.2 at 0\napp 1.1 a.toml from 0 to 384\n77 0 word 00000007\npart 0 halt 00000000 at 78 cut 0\napp 1.2 bad.toml from 0 to 384\npart 0 fault illegal at 201 cut 0\n",
        ),
        (
            frame,
            "0 s.txt",
            (
                "load a.toml at 0\nload over.toml at 0\nload a2.toml at 0\n",
                "",
            ),
            "0\ncommand 1 1 load a.toml at 0: granted 1.1 at 0\ncommand 1 2 load over.toml at 0: taken span 0 48 64 by 1.1 free none\ncommand 1 3 load a2.toml at 0: granted 1.3 at 0\napp 1.1 a.toml from 0 to 0\npart 0 live cut 0\napp 1.3 a2.toml from 0 to 0\npart 0 live cut 0\n",
        ),
        (
            frame,
            "8 s.txt",
            (
                "load a.toml at 8\nload a2.toml at 80\nload a.toml at 160\n",
                "",
            ),
            "8\ncommand 1 1 load a.toml at 8: granted 1.1 at 8\ncommand 1 2 load a2.toml at 80: granted 1.2 at 80\ncommand 1 3 load a.toml at 160: taken partition 0 0 by 1.1 free none\napp 1.1 a.toml from 8 to 8\npart 0 live cut 0\napp 1.2 a2.toml from 80 to 80\npart 0 live cut 0\n",
        ),
        (
            frame,
            "384 s.txt",
            (
                "load a2.toml at 0\r\nload base.toml at 0\r\n\tload  a.toml\tat 0007",
                "",
            ),
            "384\ncommand 1 1 load a2.toml at 0: granted 1.1 at 0\ncommand 1 2 load base.toml at 0: malformed B7\ncommand 1 3 load a.toml at 7: granted 1.3 at 8\napp 1.1 a2.toml from 0 to 384\n205 0 word 00000007\npart 0 halt 00000000 at 206 cut 0\napp 1.3 a.toml from 8 to 384\n333 0 word 00000007\npart 0 halt 00000000 at 334 cut 0\n",
        ),
        // Other frames. One halts, one faults, and of one the trace is cut.
        (
            (8, 3),
            "384 s.txt",
            (
                "load a.toml at 0\nload bad.toml at 0\nload cut.toml at 0\n",
                "",
            ),
            "384\ncommand 1 1 load a.toml at 0: granted 1.1 at 0\ncommand 1 2 load bad.toml at 0: granted 1.2 at 0\ncommand 1 3 load cut.toml at 0: granted 1.3 at 0\napp 1.1 a.toml from 0 to 384\n77 0 word 00000007\npart 0 halt 00000000 at 78 cut 0\napp 1.2 bad.toml from 0 to 384\npart 0 fault illegal at 201 cut 0\napp 1.3 cut.toml from 0 to 384\n332 0 word 80000000\n336 0 word 80000000\npart 0 halt 00000000 at 349 cut 3\n",
        ),
        (
            (1, 1),
            "384 s.txt",
            ("load a.toml at 3\n", ""),
            "384\ncommand 1 1 load a.toml at 3: granted 1.1 at 3\napp 1.1 a.toml from 3 to 384\n205 0 word 00000007\npart 0 halt 00000000 at 206 cut 0\n",
        ),
        (
            (64, 2),
            "380 s.txt",
            ("load a.toml at 1\n", ""),
            "384\ncommand 1 1 load a.toml at 1: granted 1.1 at 64\napp 1.1 a.toml from 64 to 384\n333 0 word 00000007\npart 0 halt 00000000 at 334 cut 0\n",
        ),
        // Two sessions commit in turn, a command each.
        (
            frame,
            "384 s.txt t.txt",
            (
                "load a.toml at 8\nload a.toml at 160\n",
                "load a2.toml at 80\n",
            ),
            "384\ncommand 1 1 load a.toml at 8: granted 1.1 at 8\ncommand 2 1 load a2.toml at 80: granted 2.1 at 80\ncommand 1 2 load a.toml at 160: taken partition 0 0 by 1.1 free none\napp 1.1 a.toml from 8 to 384\n333 0 word 00000007\npart 0 halt 00000000 at 334 cut 0\napp 2.1 a2.toml from 80 to 384\n205 0 word 00000007\npart 0 halt 00000000 at 206 cut 0\n",
        ),
        // The sessions are those of the words, in their order.
        (
            frame,
            "384 t.txt s.txt",
            ("load a.toml at 0\n", "# none\n"),
            "384\ncommand 2 1 load a.toml at 0: granted 2.1 at 0\napp 2.1 a.toml from 0 to 384\n77 0 word 00000007\npart 0 halt 00000000 at 78 cut 0\n",
        ),
        // One script makes two sessions where it is named twice.
        (
            frame,
            "384 s.txt s.txt",
            ("load a.toml at 0\n", ""),
            "384\ncommand 1 1 load a.toml at 0: granted 1.1 at 0\ncommand 2 1 load a.toml at 0: taken partition 0 0 by 1.1 free none\napp 1.1 a.toml from 0 to 384\n77 0 word 00000007\npart 0 halt 00000000 at 78 cut 0\n",
        ),
        // A promise, a load below it, and one at it.
        (
            frame,
            "2048 s.txt",
            ("until 1024\nload a.toml at 1016\nload a.toml at 1024\n", ""),
            "2048\ncommand 1 1 until 1024: horizon 1024\ncommand 1 2 load a.toml at 1016: past 1024\ncommand 1 3 load a.toml at 1024: granted 1.2 at 1024\napp 1.2 a.toml from 1024 to 2048\n1101 0 word 00000007\npart 0 halt 00000000 at 1102 cut 0\n",
        ),
        // Stops before the start, after the end, and of a load that isn't there.
        (
            frame,
            "512 s.txt",
            (
                "load a.toml at 256\nstop 1 at 128\nstop 1 at 300\nstop 2 at 300\n",
                "",
            ),
            "512\ncommand 1 1 load a.toml at 256: granted 1.1 at 256\ncommand 1 2 stop 1 at 128: stopped 1.1 at 256\ncommand 1 3 stop 1 at 300: already 256\ncommand 1 4 stop 2 at 300: no load\napp 1.1 a.toml from 256 to 256\npart 0 live cut 0\n",
        ),
        // A place is free from the slot after the stop on, and granted again.
        (
            frame,
            "512 s.txt",
            (
                "load a.toml at 0\nstop 1 at 152\nload odd.toml at 152\nload odd.toml at 160\n",
                "",
            ),
            "512\ncommand 1 1 load a.toml at 0: granted 1.1 at 0\ncommand 1 2 stop 1 at 152: stopped 1.1 at 152\ncommand 1 3 load odd.toml at 152: taken partition 0 0 by 1.1 free 160\ncommand 1 4 load odd.toml at 160: granted 1.3 at 160\napp 1.1 a.toml from 0 to 152\n77 0 word 00000007\npart 0 halt 00000000 at 78 cut 0\napp 1.3 odd.toml from 160 to 512\npart 0 fault align at 329 cut 0\n",
        ),
        // A part is stopped while it runs, in its partition slot: its second word is stored in cycle 80.
        (
            frame,
            "512 s.txt",
            ("load five.toml at 0\nstop 1 at 80\n", ""),
            "512\ncommand 1 1 load five.toml at 0: granted 1.1 at 0\ncommand 1 2 stop 1 at 80: stopped 1.1 at 80\napp 1.1 five.toml from 0 to 80\n76 0 word 80000000\npart 0 live cut 0\n",
        ),
        // Two sessions, of which one stops its own.
        (
            frame,
            "256 s.txt t.txt",
            ("load a.toml at 0\n", "load a2.toml at 8\nstop 1 at 224\n"),
            "256\ncommand 1 1 load a.toml at 0: granted 1.1 at 0\ncommand 2 1 load a2.toml at 8: granted 2.1 at 8\ncommand 2 2 stop 1 at 224: stopped 2.1 at 224\napp 1.1 a.toml from 0 to 256\n77 0 word 00000007\npart 0 halt 00000000 at 78 cut 0\napp 2.1 a2.toml from 8 to 224\n205 0 word 00000007\npart 0 halt 00000000 at 206 cut 0\n",
        ),
    ];
    for (frame, words, scripts, report) in cases {
        let mut shelf = shelf_of_bundles(alloc)?;
        let platform = platform(alloc, frame)?;
        add(alloc, &mut shelf, "one.toml", platform.as_str())?;
        add(alloc, &mut shelf, "s.txt", scripts.0)?;
        add(alloc, &mut shelf, "t.txt", scripts.1)?;
        let text = format!(in alloc; "compsoc report 1\nbudget {report}end\n")?;
        // The history of one session is the same by threads.
        let ways = if words.split_whitespace().count() == 2 {
            ["", " --workers 0", " --workers 1", " --workers 8"].as_slice()
        } else {
            [" --workers 0"].as_slice()
        };
        for workers in ways {
            let line = format!(in alloc; "run one.toml {words}{workers}")?;
            expect(
                &rt,
                alloc,
                shelf.as_slice(),
                (line.as_str(), 0, 0, 0, text.as_str()),
            )?;
        }
    }
    Ok(())
}

// What a session's first command of sixteen is, and how its application ran.
fn sixteen(alloc: Global, files: &mut Vec<File>, sessions: bool) -> Result<(String, String), Fail> {
    let mut words = String::from_str(alloc, "run one.toml 2048")?;
    let mut script = String::new(alloc);
    let mut commands = String::new(alloc);
    let mut apps = String::new(alloc);
    for slot in 0..16u8 {
        let number = slot + 1;
        let text = bundle(alloc, slot, 64 * u32::from(slot), 16, "\"word\"", SEVEN)?;
        let name = format!(in alloc; "a{slot}.toml")?;
        add(alloc, files, name.as_str(), text.as_str())?;
        let load = format!(in alloc; "load {name} at 0")?;
        let label = if sessions {
            let own = format!(in alloc; "s{number}.txt")?;
            add(alloc, files, own.as_str(), load.as_str())?;
            words.push_str(format!(in alloc; " {own}")?.as_str())?;
            commands.push_str(format!(in alloc; "command {number} 1 ")?.as_str())?;
            format!(in alloc; "{number}.1")?
        } else {
            script.push_str(format!(in alloc; "{load}\n")?.as_str())?;
            commands.push_str(format!(in alloc; "command 1 {number} ")?.as_str())?;
            format!(in alloc; "1.{number}")?
        };
        commands.push_str(format!(in alloc; "{load}: granted {label} at 0\n")?.as_str())?;
        // Its slot is served first in the instance of its number.
        let stored = 128 * u32::from(slot) + 77;
        let halted = stored + 1;
        apps.push_str(format!(in alloc;
            "app {label} {name} from 0 to 2048\n{stored} 0 word 00000007\npart 0 halt 00000000 at {halted} cut 0\n"
        )?.as_str())?;
    }
    if sessions {
        words.push_str(" --workers 0")?;
    } else {
        add(alloc, files, "s.txt", script.as_str())?;
        words.push_str(" s.txt")?;
    }
    let text = format!(in alloc; "compsoc report 1\nbudget 2048\n{commands}{apps}end\n")?;
    Ok((words, text))
}

#[test]
fn sixteen_parts_on_one_tile(rt: HostRuntime) -> Result<(), Fail> {
    let alloc = rt.alloc();
    // Of one script, and of sixteen.
    for sessions in [false, true] {
        let mut shelf = Vec::new(alloc);
        let platform = platform(alloc, (8, 16))?;
        add(alloc, &mut shelf, "one.toml", platform.as_str())?;
        let (line, text) = sixteen(alloc, &mut shelf, sessions)?;
        expect(
            &rt,
            alloc,
            shelf.as_slice(),
            (line.as_str(), 0, 0, 0, text.as_str()),
        )?;
    }
    Ok(())
}

#[test]
fn a_failing_write_of_a_report(rt: HostRuntime) -> Result<(), Fail> {
    let alloc = rt.alloc();
    // The number of the write that fails, and what was written before.
    let cases = [
        (1, ""),
        (2, "compsoc report 1\n"),
        (3, "compsoc report 1\nbudget 384\n"),
        (
            5,
            "compsoc report 1\nbudget 384\ncommand 1 1 load a.toml at 0: granted 1.1 at 0\napp 1.1 a.toml from 0 to 384\n",
        ),
    ];
    let mut shelf = shelf_of_bundles(alloc)?;
    let platform = platform(alloc, (8, 2))?;
    add(alloc, &mut shelf, "one.toml", platform.as_str())?;
    add(alloc, &mut shelf, "s.txt", "load a.toml at 0\n")?;
    for (failing, text) in cases {
        expect(
            &rt,
            alloc,
            shelf.as_slice(),
            ("run one.toml 384 s.txt", 0, failing, 6, text),
        )?;
    }
    Ok(())
}
