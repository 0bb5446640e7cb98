//! The commands `check` and `generate`.

use crate::tests::{File, PLATFORM, Row, add, expect, written_by};
use crate::tiles_tests::{PIPE, TWO};
use std::alloc::Global;
use std::test::Fail;

// A second pair between the same two parts, that injects in the slot of the first.
const SECOND_PAIR: &str =
    "[[pair]]\na = [0, 1]\nb = [1, 1]\nthere = { path = [0], slots = [1] }\nback = { path = [1], slots = [6] }\n";

// Two tiles, a bundle that breaks no rule, one of which a resource stands twice, and one that ends within a
// text.
fn shelf_of_bundles(alloc: Global) -> Result<Vec<File>, Fail> {
    let mut shelf = Vec::new(alloc);
    let two = format!(in alloc;
        "{}{TWO}",
        PLATFORM.replace(alloc, "tiles = 1", "tiles = 2")?
    )?;
    let twice = format!(in alloc;
        "{}{SECOND_PAIR}",
        PIPE.replace(alloc, "ports = [0]", "ports = [0, 1]")?
    )?;
    let bad = PLATFORM.replace(alloc, "tiles = 1", "tiles = 33")?;
    let Some((front, _)) = PIPE.split_once("2063102320631073000000") else {
        return Ok(shelf);
    };
    let files = [
        ("two.toml", two.as_str()),
        ("bad.toml", bad.as_str()),
        ("pipe.toml", PIPE),
        ("twice.toml", twice.as_str()),
        ("cut.toml", front),
    ];
    for (name, text) in files {
        add(alloc, &mut shelf, name, text)?;
    }
    Ok(shelf)
}

#[test]
fn verdicts(rt: HostRuntime) -> Result<(), Fail> {
    let alloc = rt.alloc();
    let cases: [Row<'_>; 10] = [
        (
            "check two.toml twice.toml cut.toml pipe.toml",
            0,
            0,
            0,
            "twice.toml malformed B13\ncut.toml malformed B1\npipe.toml ok\n",
        ),
        // A file that is named again is read once, and has a line each time.
        (
            "check two.toml pipe.toml cut.toml pipe.toml",
            4,
            0,
            0,
            "pipe.toml ok\ncut.toml malformed B1\npipe.toml ok\n",
        ),
        (
            "check two.toml pipe.toml pipe.toml",
            2,
            0,
            5,
            "compsoc: read pipe.toml\n",
        ),
        ("check bad.toml no.toml", 0, 0, 2, "compsoc: platform P4\n"),
        (
            "check no.toml pipe.toml",
            0,
            0,
            4,
            "compsoc: absent no.toml\n",
        ),
        (
            "check two.toml pipe.toml no.toml",
            0,
            0,
            4,
            "compsoc: absent no.toml\n",
        ),
        (
            "check two.toml pipe.toml cut.toml",
            0,
            2,
            6,
            "pipe.toml ok\n",
        ),
        ("check two.toml", 0, 0, 1, "compsoc: usage\n"),
        ("generate 4294967296", 0, 0, 1, "compsoc: usage\n"),
        ("generate", 0, 0, 1, "compsoc: usage\n"),
    ];
    let shelf = shelf_of_bundles(alloc)?;
    for case in cases {
        expect(&rt, alloc, shelf.as_slice(), case)?;
    }
    Ok(())
}

#[test]
fn summaries(rt: HostRuntime) -> Result<(), Fail> {
    let alloc = rt.alloc();
    let first = written_by(&rt, alloc, "generate 1")?;
    let again = written_by(&rt, alloc, "generate 01")?;
    assert_eq!(rt; first.as_str(), again.as_str());
    assert!(rt;
        first
            .as_str()
            .starts_with("generate 1\ncommands 72\ngranted ")
    );
    assert!(rt; first.as_str().ends_with("\nend\n"));
    Ok(())
}
