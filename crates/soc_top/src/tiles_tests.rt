//! Platforms of several tiles: applications of communicating parts, by `alone` and by `run`.

use crate::tests::{File, add, expect, expect_one_of};
use std::alloc::{AllocError, Global};
use std::test::Fail;

// Two tiles, with a link each way.
pub const TWO: &str =
    "[[link]]\nfrom = 0\nout = 0\nto = 1\ninput = 0\n[[link]]\nfrom = 1\nout = 0\nto = 0\ninput = 0\n";

// Three tiles in a line: links 0 and 1 lead from tile 0 over tile 1 to tile 2, links 2 and 3 lead back.
// Tile 1 has two inputs.
const THREE: &str =
    "[[link]]\nfrom = 0\nout = 0\nto = 1\ninput = 0\n[[link]]\nfrom = 1\nout = 0\nto = 2\ninput = 0\n[[link]]\nfrom = 2\nout = 0\nto = 1\ninput = 1\n[[link]]\nfrom = 1\nout = 1\nto = 0\ninput = 0\n";

// A part that sends two words, and one that receives them.
pub const PIPE: &str =
    "version = 1\n[[part]]\ntile = 0\nslots = [0]\nbase = 0\nlen = 64\nentry = 0\ntrace = 16\nkinds = [\"send\"]\nports = [0]\nimage = \"37030080232063102320631073000000\"\n[[part]]\ntile = 1\nslots = [0, 1]\nbase = 0\nlen = 64\nentry = 0\ntrace = 16\nkinds = [\"recv\"]\nports = [0]\nimage = \"37030080832243108322431073000000\"\n[[pair]]\na = [0, 0]\nb = [1, 0]\nthere = { path = [0], slots = [1] }\nback = { path = [1], slots = [5] }\n";

// The first word misses slot 9, is injected in slot 17 and is there from cycle 152 on; the second is
// injected in slot 25 and is there from cycle 216 on.
const PIPE_LINES: &str =
    "76 0 send 80000000\n80 0 send 80000000\n200 1 recv 80000000\n216 1 recv 80000000\npart 0 halt 00000000 at 81 cut 0\npart 1 halt 00000000 at 217 cut 0\n";

// Three words, by parts that run in every instance.
const WORDS: &str =
    "version = 1\n[[part]]\ntile = 0\nslots = [0, 1]\nbase = 0\nlen = 64\nentry = 0\ntrace = 16\nkinds = [\"send\"]\nports = [0]\nimage = \"3703008023206310232063102320631073000000\"\n[[part]]\ntile = 1\nslots = [0, 1]\nbase = 0\nlen = 64\nentry = 0\ntrace = 16\nkinds = [\"recv\"]\nports = [0]\nimage = \"3703008083224310832243108322431073000000\"\n[[pair]]\na = [0, 0]\nb = [1, 0]\nthere = { path = [0], slots = [1] }\nback = { path = [1], slots = [5] }\n";

// With queues of one word each store waits until the word before is gone and its credit is back.
const WORDS_LINES: &str =
    "76 0 send 80000000\n200 0 send 80000000\n200 1 recv 80000000\n328 0 send 80000000\n328 1 recv 80000000\n456 1 recv 80000000\npart 0 halt 00000000 at 329 cut 0\npart 1 halt 00000000 at 457 cut 0\n";

// Ports that no pair joins.
const UNJOINED: &str =
    "version = 1\n[[part]]\ntile = 0\nslots = [0]\nbase = 0\nlen = 64\nentry = 0\ntrace = 16\nkinds = [\"send\"]\nports = [0]\nimage = \"37030080232063102320631073000000\"\n[[part]]\ntile = 1\nslots = [0, 1]\nbase = 0\nlen = 64\nentry = 0\ntrace = 16\nkinds = [\"recv\"]\nports = [0]\nimage = \"37030080832243108322431073000000\"\n";

// One word from tile 0 over tile 1 to tile 2, whose router passes it on to link 1 in slots 3, 11, 19.
const OVER: &str =
    "version = 1\n[[part]]\ntile = 0\nslots = [0]\nbase = 0\nlen = 64\nentry = 0\ntrace = 16\nkinds = [\"send\"]\nports = [0]\nimage = \"370300802320631073000000\"\n[[part]]\ntile = 2\nslots = [0]\nbase = 0\nlen = 64\nentry = 0\ntrace = 16\nkinds = [\"recv\"]\nports = [0]\nimage = \"370300808322431073000000\"\n[[pair]]\na = [0, 0]\nb = [2, 0]\nthere = { path = [0, 1], slots = [1] }\nback = { path = [2, 3], slots = [5] }\n";

// The word is injected in slot 17 and is there from cycle 160 on, when its part doesn't run.
const OVER_LINES: &str =
    "76 0 send 80000000\n328 2 recv 80000000\npart 0 halt 00000000 at 77 cut 0\npart 2 halt 00000000 at 329 cut 0\n";

// The same the other way, with every entry of tile 1 in the slot after one of `OVER`: its credits pass on
// to link 1 in slot 4, its words to link 3 in slot 0, where the credits of `OVER` do in slot 7.
const AGAINST: &str =
    "version = 1\n[[part]]\ntile = 0\nslots = [1]\nbase = 64\nlen = 64\nentry = 0\ntrace = 16\nkinds = [\"recv\"]\nports = [1]\nimage = \"370300808322431073000000\"\n[[part]]\ntile = 2\nslots = [1]\nbase = 64\nlen = 64\nentry = 0\ntrace = 16\nkinds = [\"send\"]\nports = [1]\nimage = \"370300802320631073000000\"\n[[pair]]\na = [2, 1]\nb = [0, 1]\nthere = { path = [2, 3], slots = [6] }\nback = { path = [0, 1], slots = [2] }\n";

// The word is injected in slot 30 and is there from cycle 264 on.
const AGAINST_LINES: &str =
    "204 2 send 80000000\n456 0 recv 80000000\npart 0 halt 00000000 at 457 cut 0\npart 2 halt 00000000 at 205 cut 0\n";

// Its channel claims link 1 in slot 3, as that of `OVER` does. Its part on tile 2 waits for a word that
// nobody sends.
const LATER: &str =
    "version = 1\n[[part]]\ntile = 1\nslots = [1]\nbase = 64\nlen = 64\nentry = 0\ntrace = 16\nkinds = [\"recv\"]\nports = [0]\nimage = \"73000000\"\n[[part]]\ntile = 2\nslots = [1]\nbase = 64\nlen = 64\nentry = 0\ntrace = 16\nkinds = [\"recv\"]\nports = [1]\nimage = \"370300808322431073000000\"\n[[pair]]\na = [1, 0]\nb = [2, 1]\nthere = { path = [1], slots = [2] }\nback = { path = [2], slots = [0] }\n";

// Tiles 0 and 2 send a word each to two ports of tile 1, which it receives one after the other.
const JOIN: &str =
    "version = 1\n[[part]]\ntile = 0\nslots = [0]\nbase = 0\nlen = 64\nentry = 0\ntrace = 16\nkinds = [\"send\"]\nports = [0]\nimage = \"370300802320631073000000\"\n[[part]]\ntile = 1\nslots = [0, 1]\nbase = 0\nlen = 64\nentry = 0\ntrace = 16\nkinds = [\"recv\"]\nports = [0, 1]\nimage = \"37030080832243108322431173000000\"\n[[part]]\ntile = 2\nslots = [0]\nbase = 0\nlen = 64\nentry = 0\ntrace = 16\nkinds = [\"send\"]\nports = [0]\nimage = \"93027000370300802320531073000000\"\n[[pair]]\na = [0, 0]\nb = [1, 0]\nthere = { path = [0], slots = [1] }\nback = { path = [3], slots = [5] }\n[[pair]]\na = [2, 0]\nb = [1, 1]\nthere = { path = [2], slots = [3] }\nback = { path = [1], slots = [6] }\n";

// The word of tile 2 is injected in slot 11, that of tile 0 in slot 17.
const JOIN_LINES: &str =
    "76 0 send 80000000\n77 2 send 00000007\n200 1 recv 80000000\n204 1 recv 00000007\npart 0 halt 00000000 at 77 cut 0\npart 1 halt 00000000 at 205 cut 0\npart 2 halt 00000000 at 78 cut 0\n";

// An application of one part beside the others.
const BESIDE: &str =
    "version = 1\n[[part]]\ntile = 0\nslots = [1]\nbase = 64\nlen = 64\nentry = 0\ntrace = 16\nkinds = [\"word\"]\nimage = \"93027000370300802320530073000000\"\n";

// A platform of so many tiles with queues of so many words and these links.
fn platform(alloc: Global, tiles: u8, queue: u8, links: &str) -> Result<String, AllocError> {
    format!(in alloc;
        "tiles = {tiles}\nmem_bytes = 4096\nslot_cycles = 8\ntable_slots = 8\nkernel_cycles = 72\npartition_cycles = 56\npartition_slots = 2\nports = 2\nqueue = {queue}\n{links}"
    )
}

// The platforms and the bundles.
fn shelf_of_tiles(alloc: Global) -> Result<Vec<File>, Fail> {
    let mut shelf = Vec::new(alloc);
    let platforms = [
        ("two.toml", 2, 8, TWO),
        ("ones.toml", 2, 1, TWO),
        ("three.toml", 3, 8, THREE),
    ];
    for (name, tiles, queue, links) in platforms {
        let text = platform(alloc, tiles, queue, links)?;
        add(alloc, &mut shelf, name, text.as_str())?;
    }
    let bundles = [
        ("pipe.toml", PIPE),
        ("words.toml", WORDS),
        ("unjoined.toml", UNJOINED),
        ("over.toml", OVER),
        ("against.toml", AGAINST),
        ("later.toml", LATER),
        ("join.toml", JOIN),
        ("beside.toml", BESIDE),
    ];
    for (name, text) in bundles {
        add(alloc, &mut shelf, name, text)?;
    }
    Ok(shelf)
}

#[test]
fn words_between_tiles_by_either_command(rt: HostRuntime) -> Result<(), Fail> {
    let alloc = rt.alloc();
    // The platform, the bundle, the last cycle, and the application's lines.
    let cases = [
        ("two.toml", "pipe.toml", 256, PIPE_LINES),
        ("ones.toml", "words.toml", 512, WORDS_LINES),
        ("three.toml", "over.toml", 512, OVER_LINES),
        ("three.toml", "against.toml", 512, AGAINST_LINES),
        ("three.toml", "join.toml", 256, JOIN_LINES),
    ];
    for (platform, name, last, lines) in cases {
        let mut shelf = shelf_of_tiles(alloc)?;
        let load = format!(in alloc; "load {name} at 0")?;
        add(alloc, &mut shelf, "s.txt", load.as_str())?;
        let words = format!(in alloc; "alone {platform} {name} 0 {last}")?;
        let text = format!(in alloc; "alone {name} from 0 to {last}\n{lines}end\n")?;
        let row = (words.as_str(), 0, 0, 0, text.as_str());
        expect(&rt, alloc, shelf.as_slice(), row)?;
        let words = format!(in alloc; "run {platform} {last} s.txt")?;
        let report = format!(in alloc;
            "compsoc report 1\nbudget {last}\ncommand 1 1 {load}: granted 1.1 at 0\napp 1.1 {name} from 0 to {last}\n{lines}end\n"
        )?;
        let row = (words.as_str(), 0, 0, 0, report.as_str());
        expect(&rt, alloc, shelf.as_slice(), row)?;
    }
    Ok(())
}

#[test]
fn applications_beside_each_other(rt: HostRuntime) -> Result<(), Fail> {
    let alloc = rt.alloc();
    // Channels through one router in neighbouring slots: each application has the lines that it has alone.
    let both = format!(in alloc;
        "512\ncommand 1 1 load over.toml at 0: granted 1.1 at 0\ncommand 1 2 load against.toml at 0: granted 1.2 at 0\napp 1.1 over.toml from 0 to 512\n{OVER_LINES}app 1.2 against.toml from 0 to 512\n{AGAINST_LINES}"
    )?;
    // Two sessions, of which one stops an application of a tile where the other's goes on.
    let sessions = format!(in alloc;
        "256\ncommand 1 1 load pipe.toml at 0: granted 1.1 at 0\ncommand 2 1 load beside.toml at 8: granted 2.1 at 8\ncommand 2 2 stop 1 at 224: stopped 2.1 at 224\napp 1.1 pipe.toml from 0 to 256\n{PIPE_LINES}app 2.1 beside.toml from 8 to 224\n205 0 word 00000007\npart 0 halt 00000000 at 206 cut 0\n"
    )?;
    // The words, two scripts, and the report after the word `budget`.
    let cases = [
        (
            "three.toml 512 s.txt",
            ("load over.toml at 0\nload against.toml at 0\n", ""),
            both.as_str(),
        ),
        (
            "two.toml 256 s.txt t.txt",
            (
                "load pipe.toml at 0\n",
                "load beside.toml at 8\nstop 1 at 224\n",
            ),
            sessions.as_str(),
        ),
        // A word that is on link 1 in slot 19, when its application is stopped, reaches nobody. The link is
        // free a slot later, and its next application receives nothing there.
        (
            "three.toml 512 s.txt",
            (
                "load over.toml at 0\nstop 1 at 152\nload later.toml at 152\nload later.toml at 160\n",
                "",
            ),
            "512\ncommand 1 1 load over.toml at 0: granted 1.1 at 0\ncommand 1 2 stop 1 at 152: stopped 1.1 at 152\ncommand 1 3 load later.toml at 152: taken link 1 3 by 1.1 free 160\ncommand 1 4 load later.toml at 160: granted 1.3 at 160\napp 1.1 over.toml from 0 to 152\n76 0 send 80000000\npart 0 halt 00000000 at 77 cut 0\npart 2 live cut 0\napp 1.3 later.toml from 160 to 512\npart 1 halt 00000000 at 456 cut 0\npart 2 live cut 0\n",
        ),
        (
            "two.toml 8 s.txt",
            ("load unjoined.toml at 0\n", ""),
            "8\ncommand 1 1 load unjoined.toml at 0: malformed B11\n",
        ),
    ];
    for (words, scripts, report) in cases {
        let mut shelf = shelf_of_tiles(alloc)?;
        add(alloc, &mut shelf, "s.txt", scripts.0)?;
        add(alloc, &mut shelf, "t.txt", scripts.1)?;
        let text = format!(in alloc; "compsoc report 1\nbudget {report}end\n")?;
        // The history of one session is the same by threads.
        let ways = if words.split_whitespace().count() == 3 {
            ["", " --workers 0", " --workers 1", " --workers 8"].as_slice()
        } else {
            [" --workers 0"].as_slice()
        };
        for workers in ways {
            let line = format!(in alloc; "run {words}{workers}")?;
            let row = (line.as_str(), 0, 0, 0, text.as_str());
            expect(&rt, alloc, shelf.as_slice(), row)?;
        }
    }
    Ok(())
}

#[test]
fn two_sessions_as_threads(rt: HostRuntime) -> Result<(), Fail> {
    let alloc = rt.alloc();
    let mut shelf = shelf_of_tiles(alloc)?;
    add(alloc, &mut shelf, "s.txt", "load pipe.toml at 0\n")?;
    add(
        alloc,
        &mut shelf,
        "t.txt",
        "load beside.toml at 8\nstop 1 at 224\n",
    )?;
    let head = "compsoc report 1\nbudget 256\n";
    let pipe = "command 1 1 load pipe.toml at 0: granted 1.1 at 0\n";
    let beside = "command 2 1 load beside.toml at 8: granted 2.1 at 8\n";
    let stop = "command 2 2 stop 1 at 224: stopped 2.1 at 224\n";
    let first = format!(in alloc; "app 1.1 pipe.toml from 0 to 256\n{PIPE_LINES}")?;
    let second =
        "app 2.1 beside.toml from 8 to 224\n205 0 word 00000007\npart 0 halt 00000000 at 206 cut 0\n";
    // The report is that of the history that it prints: the three orders of the two scripts' commands.
    let before = format!(in alloc; "{head}{pipe}{beside}{stop}{first}{second}end\n")?;
    let between = format!(in alloc; "{head}{beside}{pipe}{stop}{second}{first}end\n")?;
    let after = format!(in alloc; "{head}{beside}{stop}{pipe}{second}{first}end\n")?;
    let texts = (before.as_str(), between.as_str(), after.as_str());
    for workers in [1u8, 2, 8] {
        let line = format!(in alloc; "run two.toml 256 s.txt t.txt --workers {workers}")?;
        expect_one_of(&rt, alloc, shelf.as_slice(), line.as_str(), texts)?;
    }
    Ok(())
}

#[test]
fn refusals_on_several_tiles(rt: HostRuntime) -> Result<(), Fail> {
    let alloc = rt.alloc();
    let shelf = shelf_of_tiles(alloc)?;
    let cases = [
        (
            "alone two.toml unjoined.toml 0 256",
            3,
            "compsoc: bundle unjoined.toml B11\n",
        ),
        (
            "run two.toml 256 missing.txt",
            4,
            "compsoc: absent missing.txt\n",
        ),
    ];
    for (line, status, text) in cases {
        expect(&rt, alloc, shelf.as_slice(), (line, 0, 0, status, text))?;
    }
    Ok(())
}
