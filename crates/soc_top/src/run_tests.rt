//! The command `run`: the runs that are refused.

use crate::alone_tests::shelf_of_faults;
use crate::tests::{File, Row, add, expect};
use std::alloc::Global;
use std::process::Abort;
use std::sync::Wait;
use std::test::Fail;
use std::thread::Threads;

#[test]
fn words_and_files_before_the_bundles(rt: HostRuntime) -> Result<(), Fail> {
    let alloc = rt.alloc();
    let cases: [Row<'_>; 20] = [
        ("run", 0, 0, 1, "compsoc: usage\n"),
        ("run one.toml 8", 0, 0, 1, "compsoc: usage\n"),
        // Seventeen scripts are too many.
        (
            "run one.toml 8 s.txt s.txt s.txt s.txt s.txt s.txt s.txt s.txt s.txt s.txt s.txt s.txt s.txt s.txt s.txt s.txt s.txt",
            0,
            0,
            1,
            "compsoc: usage\n",
        ),
        ("Run one.toml 8 s.txt", 0, 0, 1, "compsoc: usage\n"),
        ("alone one.toml 8 s.txt", 0, 0, 1, "compsoc: usage\n"),
        ("run one.toml a.toml 8 s.txt", 0, 0, 1, "compsoc: usage\n"),
        (
            "run one.toml 1000000000001 s.txt",
            0,
            0,
            1,
            "compsoc: usage\n",
        ),
        ("run one.toml -8 s.txt", 0, 0, 1, "compsoc: usage\n"),
        ("run one.toml 8x s.txt", 0, 0, 1, "compsoc: usage\n"),
        (
            "run no.toml 0001000000000000 s.txt",
            0,
            0,
            4,
            "compsoc: absent no.toml\n",
        ),
        ("run one.toml 8 no.txt", 0, 0, 4, "compsoc: absent no.txt\n"),
        (
            "run one.toml 8 s.txt no.txt",
            0,
            0,
            4,
            "compsoc: absent no.txt\n",
        ),
        // The first script is judged before the second is read.
        (
            "run one.toml 8 long.toml no.txt",
            0,
            0,
            3,
            "compsoc: script long.toml too long\n",
        ),
        (
            "run one.toml 8 s.txt long.toml",
            0,
            0,
            3,
            "compsoc: script long.toml too long\n",
        ),
        // The platform is judged before the script is read.
        ("run p4.toml 8 no.txt", 0, 0, 2, "compsoc: platform P4\n"),
        ("run long.toml 8 s.txt", 0, 0, 2, "compsoc: platform P1\n"),
        (
            "run one.toml 8 long.toml",
            0,
            0,
            3,
            "compsoc: script long.toml too long\n",
        ),
        ("run one.toml 8 s.txt", 1, 0, 5, "compsoc: read one.toml\n"),
        ("run one.toml 8 s.txt", 2, 0, 5, "compsoc: read s.txt\n"),
        // A failing write of a refusal's line changes no status.
        ("run no.toml 8 s.txt", 0, 1, 4, ""),
    ];
    let mut shelf = shelf_of_faults(alloc)?;
    add(alloc, &mut shelf, "s.txt", "load a.toml at 8\n")?;
    for row in cases {
        expect(&rt, alloc, shelf.as_slice(), row)?;
    }
    Ok(())
}

// Runs two scripts, of which the second can be left out of the words, and of which the read with this
// number fails.
fn expect_scripts<R: Abort + Threads + Wait + Sync>(
    rt: &R,
    alloc: Global,
    scripts: (&str, &str),
    row: Row<'_>,
) -> Result<(), Fail> {
    let mut shelf: Vec<File> = shelf_of_faults(alloc)?;
    add(alloc, &mut shelf, "s.txt", scripts.0)?;
    add(alloc, &mut shelf, "t.txt", scripts.1)?;
    expect(rt, alloc, shelf.as_slice(), row)
}

#[test]
fn scripts_and_bundle_files(rt: HostRuntime) -> Result<(), Fail> {
    let alloc = rt.alloc();
    let one = "run one.toml 384 s.txt";
    let two = "run one.toml 384 s.txt t.txt";
    let twice = "run one.toml 384 s.txt s.txt";
    // The words, two scripts, the read that fails, the status, and what is written.
    let cases = [
        (
            one,
            ("load a.toml at", ""),
            0,
            3,
            "compsoc: script s.txt line 1 S1\n",
        ),
        (
            one,
            ("# a name with a comma\n\nload a,b.toml at 8\n", ""),
            0,
            3,
            "compsoc: script s.txt line 3 S2\n",
        ),
        (
            one,
            ("load a.toml at 0\nload a.toml at 1000000000001\n", ""),
            0,
            3,
            "compsoc: script s.txt line 2 S3\n",
        ),
        // The whole script is judged before a bundle file is read.
        (
            one,
            ("load no.toml at 8\nstart a.toml at 8\n", ""),
            0,
            3,
            "compsoc: script s.txt line 2 S1\n",
        ),
        (
            one,
            ("load no.toml at 8\n", ""),
            0,
            4,
            "compsoc: absent no.toml\n",
        ),
        (
            one,
            (
                "load a.toml at 8\nload no.toml at 8\nload nor.toml at 8\n",
                "",
            ),
            0,
            4,
            "compsoc: absent no.toml\n",
        ),
        // Bundle files are read in the order of their first naming, and once: `a.toml` by read 3.
        (
            one,
            ("load a.toml at 8\n", ""),
            3,
            5,
            "compsoc: read a.toml\n",
        ),
        (
            one,
            ("load no.toml at 8\nload a.toml at 8\n", ""),
            3,
            5,
            "compsoc: read no.toml\n",
        ),
        (
            one,
            (
                "load a.toml at 8\nload a.toml at 9\nload p4.toml at 8\n",
                "",
            ),
            4,
            5,
            "compsoc: read p4.toml\n",
        ),
        (
            one,
            (
                "load a.toml at 8\nload p4.toml at 8\nload a.toml at 9\nload no.toml at 8\n",
                "",
            ),
            0,
            4,
            "compsoc: absent no.toml\n",
        ),
        // A fault of the second script, and of the first before that of the second.
        (
            two,
            ("load a.toml at 8\n", "load a.toml\n"),
            0,
            3,
            "compsoc: script t.txt line 1 S1\n",
        ),
        (
            two,
            ("load a,b.toml at 8\n", "load a.toml\n"),
            0,
            3,
            "compsoc: script s.txt line 1 S2\n",
        ),
        // The first script is judged before the second is read, and both before a bundle file is.
        (
            two,
            ("load a.toml at\n", "load a.toml at 8\n"),
            3,
            3,
            "compsoc: script s.txt line 1 S1\n",
        ),
        (
            two,
            ("load no.toml at 8\n", "load a.toml at\n"),
            4,
            3,
            "compsoc: script t.txt line 1 S1\n",
        ),
        // Each read of a run with two scripts: the platform, the scripts, and three bundle files. One that
        // both scripts name is read once.
        (
            two,
            (
                "load a.toml at 8\nload p4.toml at 8\n",
                "load p4.toml at 9\nload b7.toml at 9\n",
            ),
            1,
            5,
            "compsoc: read one.toml\n",
        ),
        (
            two,
            (
                "load a.toml at 8\nload p4.toml at 8\n",
                "load p4.toml at 9\nload b7.toml at 9\n",
            ),
            2,
            5,
            "compsoc: read s.txt\n",
        ),
        (
            two,
            (
                "load a.toml at 8\nload p4.toml at 8\n",
                "load p4.toml at 9\nload b7.toml at 9\n",
            ),
            3,
            5,
            "compsoc: read t.txt\n",
        ),
        (
            two,
            (
                "load a.toml at 8\nload p4.toml at 8\n",
                "load p4.toml at 9\nload b7.toml at 9\n",
            ),
            4,
            5,
            "compsoc: read a.toml\n",
        ),
        (
            two,
            (
                "load a.toml at 8\nload p4.toml at 8\n",
                "load p4.toml at 9\nload b7.toml at 9\n",
            ),
            5,
            5,
            "compsoc: read p4.toml\n",
        ),
        (
            two,
            (
                "load a.toml at 8\nload p4.toml at 8\n",
                "load p4.toml at 9\nload b7.toml at 9\n",
            ),
            6,
            5,
            "compsoc: read b7.toml\n",
        ),
        // The bundle file of the second script is absent.
        (
            two,
            (
                "load a.toml at 8\n",
                "load a.toml at 9\nload no.toml at 9\n",
            ),
            0,
            4,
            "compsoc: absent no.toml\n",
        ),
        // A script that is named twice is read once: the third read is that of a bundle file.
        (
            twice,
            ("load a.toml at 8\n", ""),
            3,
            5,
            "compsoc: read a.toml\n",
        ),
        (
            twice,
            ("load a.toml at 8\nload a.toml\n", ""),
            3,
            3,
            "compsoc: script s.txt line 2 S1\n",
        ),
    ];
    for (line, scripts, read, status, text) in cases {
        expect_scripts(&rt, alloc, scripts, (line, read, 0, status, text))?;
    }
    Ok(())
}

// A script of so many loads.
fn loads(alloc: Global, count: u16) -> Result<String, Fail> {
    let mut script = String::new(alloc);
    for _ in 0..count {
        script.push_str("load no.toml at 0\n")?;
    }
    Ok(script)
}

#[test]
fn commands_up_to_the_limit(rt: HostRuntime) -> Result<(), Fail> {
    let alloc = rt.alloc();
    // The words, how many commands two scripts have, the status, and what is written.
    let cases = [
        ("s.txt", 256, 0, 4, "compsoc: absent no.toml\n"),
        ("s.txt", 257, 0, 3, "compsoc: script s.txt too many\n"),
        ("s.txt t.txt", 200, 56, 4, "compsoc: absent no.toml\n"),
        (
            "s.txt t.txt",
            200,
            57,
            3,
            "compsoc: script t.txt too many\n",
        ),
        ("s.txt t.txt", 256, 0, 4, "compsoc: absent no.toml\n"),
        ("s.txt t.txt", 256, 1, 3, "compsoc: script t.txt too many\n"),
        // A script that is named twice has room for as many commands twice, or hasn't.
        ("s.txt s.txt", 128, 0, 4, "compsoc: absent no.toml\n"),
        ("s.txt s.txt", 129, 0, 3, "compsoc: script s.txt too many\n"),
        (
            "s.txt t.txt s.txt",
            128,
            1,
            3,
            "compsoc: script s.txt too many\n",
        ),
    ];
    for (words, first, second, status, text) in cases {
        let line = format!(in alloc; "run one.toml 384 {words}")?;
        let first = loads(alloc, first)?;
        let second = loads(alloc, second)?;
        let scripts = (first.as_str(), second.as_str());
        expect_scripts(&rt, alloc, scripts, (line.as_str(), 0, 0, status, text))?;
    }
    Ok(())
}
