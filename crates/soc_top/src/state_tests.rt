//! The sum over the platform and the state of the tiles. What is expected was worked out by hand: the words
//! that the parts leave in the register files, in the frames and in memory, and what stands in the slot tables.

use crate::tests::{PLATFORM, SEVEN, add, bundle, expect_whole};
use crate::tiles_tests::{PIPE, TWO};
use std::test::Fail;

// A part that stores 7 and halts.
const ONE_REPORT: &str =
    "compsoc report 1\nbudget 384\ncommand 1 1 load a.toml at 0: granted 1.1 at 0\napp 1.1 a.toml from 0 to 384\n77 0 word 00000007\npart 0 halt 00000000 at 78 cut 0\nplatform 80c32686\n";

// It is held, since its instances come again; it stays as it ended, at its ECALL.
const ONE_STATE: &str =
    "tile 0 slot 48 held 1.1 next 1.1\nfile 0 0000000c 00000000 00000000 00000000 00000000 00000007 80000000 00000000 00000000 00000000 00000000 00000000 00000000 00000000 00000000 00000000 00000000 00000000 00000000 00000000 00000000 00000000 00000000 00000000 00000000 00000000 00000000 00000000 00000000 00000000 00000000 00000000 00000000\nframe 0 0 0000000c 00000000 00000000 00000000 00000000 00000007 80000000 00000000 00000000 00000000 00000000 00000000 00000000 00000000 00000000 00000000 00000000 00000000 00000000 00000000 00000000 00000000 00000000 00000000 00000000 00000000 00000000 00000000 00000000 00000000 00000000 00000000 00000000\nframe 0 1 00000000 00000000 00000000 00000000 00000000 00000000 00000000 00000000 00000000 00000000 00000000 00000000 00000000 00000000 00000000 00000000 00000000 00000000 00000000 00000000 00000000 00000000 00000000 00000000 00000000 00000000 00000000 00000000 00000000 00000000 00000000 00000000 00000000\nmem 0 0 00700293 80000337 00532023 00000073\nport 0 0 send 0 recv 0 credit 0 owed 0\nport 0 1 send 0 recv 0 credit 0 owed 0\n";

// A part that sends two words, and one that receives them.
const PIPE_REPORT: &str =
    "compsoc report 1\nbudget 256\ncommand 1 1 load pipe.toml at 0: granted 1.1 at 0\napp 1.1 pipe.toml from 0 to 256\n76 0 send 80000000\n80 0 send 80000000\n200 1 recv 80000000\n216 1 recv 80000000\npart 0 halt 00000000 at 81 cut 0\npart 1 halt 00000000 at 217 cut 0\nplatform e1d2d58e\n";

// The first part isn't held in the instance of the other slot; the second was saved within its first receive,
// with a cycle left. Two flits went there and one came back, which gave both credits.
const PIPE_STATE: &str =
    "tile 0 slot 32 held none next none\nfile 0 0000000c 00000000 00000000 00000000 00000000 00000000 80000000 00000000 00000000 00000000 00000000 00000000 00000000 00000000 00000000 00000000 00000000 00000000 00000000 00000000 00000000 00000000 00000000 00000000 00000000 00000000 00000000 00000000 00000000 00000000 00000000 00000000 00000000\nframe 0 0 0000000c 00000000 00000000 00000000 00000000 00000000 80000000 00000000 00000000 00000000 00000000 00000000 00000000 00000000 00000000 00000000 00000000 00000000 00000000 00000000 00000000 00000000 00000000 00000000 00000000 00000000 00000000 00000000 00000000 00000000 00000000 00000000 00000000\nframe 0 1 00000000 00000000 00000000 00000000 00000000 00000000 00000000 00000000 00000000 00000000 00000000 00000000 00000000 00000000 00000000 00000000 00000000 00000000 00000000 00000000 00000000 00000000 00000000 00000000 00000000 00000000 00000000 00000000 00000000 00000000 00000000 00000000 00000000\nmem 0 0 80000337 10632023 10632023 00000073\ninject 0 1 0 1.1\nout 0 0 2 local 1.1\ndeliver 0 6 0 0 1.1\nport 0 0 send 0 recv 0 credit 8 owed 0\nport 0 1 send 0 recv 0 credit 0 owed 0\ncarried 0 0 2\ntile 1 slot 32 held 1.1 next 1.1\nfile 1 0000000c 00000000 00000000 00000000 00000000 80000000 80000000 00000000 00000000 00000000 00000000 00000000 00000000 00000000 00000000 00000000 00000000 00000000 00000000 00000000 00000000 00000000 00000000 00000000 00000000 00000000 00000000 00000000 00000000 00000000 00000000 00000000 00000000\nframe 1 0 00000004 00000000 00000000 00000000 00000000 00000000 80000000 00000000 00000000 00000000 00000000 00000000 00000000 00000000 00000000 00000000 00000000 00000000 00000000 00000000 00000000 00000000 00000000 00000000 00000000 00000000 00000000 00000000 00000000 00000000 00000000 00000000 00000001\nframe 1 1 00000000 00000000 00000000 00000000 00000000 00000000 00000000 00000000 00000000 00000000 00000000 00000000 00000000 00000000 00000000 00000000 00000000 00000000 00000000 00000000 00000000 00000000 00000000 00000000 00000000 00000000 00000000 00000000 00000000 00000000 00000000 00000000 00000000\nmem 1 0 80000337 10432283 10432283 00000073\ninject 1 5 0 1.1\nout 1 0 6 local 1.1\ndeliver 1 2 0 0 1.1\nport 1 0 send 0 recv 0 credit 8 owed 0\nport 1 1 send 0 recv 0 credit 0 owed 0\ncarried 1 0 1\n";

#[test]
fn states_of_tiles(rt: HostRuntime) -> Result<(), Fail> {
    let alloc = rt.alloc();
    let mut shelf = Vec::new(alloc);
    let seven = bundle(alloc, 0, 0, 16, "\"word\"", SEVEN)?;
    let two = format!(in alloc;
        "{}{TWO}",
        PLATFORM.replace(alloc, "tiles = 1", "tiles = 2")?
    )?;
    let one_state = format!(in alloc; "{ONE_REPORT}{ONE_STATE}end\n")?;
    let one_plain = format!(in alloc; "{ONE_REPORT}end\n")?;
    let pipe_state = format!(in alloc; "{PIPE_REPORT}{PIPE_STATE}end\n")?;
    let files = [
        ("one.toml", PLATFORM),
        ("two.toml", two.as_str()),
        ("a.toml", seven.as_str()),
        ("pipe.toml", PIPE),
        ("s.txt", "load a.toml at 0\n"),
        ("p.txt", "load pipe.toml at 0\n"),
        ("e.txt", ""),
    ];
    for (name, text) in files {
        add(alloc, &mut shelf, name, text)?;
    }
    let cases = [
        ("run one.toml 384 s.txt --state", one_state.as_str()),
        (
            "run --state one.toml --workers 0 384 s.txt",
            one_state.as_str(),
        ),
        (
            "run one.toml 384 s.txt --state --workers 1",
            one_state.as_str(),
        ),
        (
            "run one.toml 384 s.txt --state --workers 8",
            one_state.as_str(),
        ),
        ("run one.toml 384 s.txt", one_plain.as_str()),
        ("run two.toml 256 --state p.txt", pipe_state.as_str()),
        (
            "run two.toml 256 --state p.txt --workers 0",
            pipe_state.as_str(),
        ),
        (
            "run two.toml 256 --state p.txt --workers 32",
            pipe_state.as_str(),
        ),
        (
            "run one.toml 8 e.txt",
            "compsoc report 1\nbudget 8\nplatform 00000000\nend\n",
        ),
    ];
    for (line, text) in cases {
        expect_whole(&rt, alloc, shelf.as_slice(), (line, 0, text))?;
    }
    Ok(())
}
