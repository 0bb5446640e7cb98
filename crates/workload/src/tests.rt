//! The texts of three workloads beside those that a program in another language made.

use crate::draws::Draws;
use crate::{Drawn, NamedText, PLATFORM_FILE, generate};
use std::test::Fail;

// The text of the file of this name, if there is one.
fn text_of<'t>(files: &'t [NamedText], name: &str) -> &'t str {
    for file in files {
        if file.name.as_str() == name {
            return file.text.as_str();
        }
    }
    "no file"
}

#[test]
fn draws_the_first_load_and_the_last(rt: HostRuntime) {
    // number, the draws of g11, the draws of g46
    let cases: [(u32, [u16; 7], [u16; 7]); 3] = [
        (0, [14, 2, 0, 1, 2, 14, 2046], [15, 3, 3, 2, 0, 60, 1251]),
        (1, [8, 3, 2, 3, 0, 40, 1622], [3, 1, 0, 6, 0, 18, 1356]),
        (
            u32::MAX,
            [5, 3, 3, 7, 5, 48, 2469],
            [11, 1, 2, 5, 0, 42, 1145],
        ),
    ];
    for (number, first, last) in cases {
        let mut draws = Draws::new(number);
        assert_eq!(rt; numbers(draws.load()), first, "of {number}");
        for _ in 0..22 {
            draws.load();
        }
        assert_eq!(rt; numbers(draws.load()), last, "of {number}");
    }
}

// What a load is drawn as, in the order of the draws.
fn numbers(drawn: Drawn) -> [u16; 7] {
    [
        u16::from(drawn.tile),
        u16::from(drawn.hops),
        u16::from(drawn.slot),
        u16::from(drawn.there),
        u16::from(drawn.back),
        u16::from(drawn.words),
        drawn.offset,
    ]
}

#[test]
fn names_the_files_of_each_session(rt: HostRuntime) -> Result<(), Fail> {
    let texts = generate(rt.alloc(), 1)?;
    let mut names = format!(in rt.alloc(); "{PLATFORM_FILE} ")?;
    for file in texts.bundles.as_slice() {
        names.push_str(file.name.as_str())?;
        names.push_str(" ")?;
    }
    for file in texts.scripts.as_slice() {
        names.push_str(file.name.as_str())?;
        names.push_str(" ")?;
    }
    assert_eq!(rt;
        names.as_str(),
        "platform.toml \
        g11.toml g12.toml g13.toml g14.toml g15.toml g16.toml \
        g21.toml g22.toml g23.toml g24.toml g25.toml g26.toml \
        g31.toml g32.toml g33.toml g34.toml g35.toml g36.toml \
        g41.toml g42.toml g43.toml g44.toml g45.toml g46.toml \
        g1.txt g2.txt g3.txt g4.txt "
    );
    assert_eq!(rt; texts.budget, 65_536);
    Ok(())
}

#[test]
fn writes_the_texts_of_one(rt: HostRuntime) -> Result<(), Fail> {
    let texts = generate(rt.alloc(), 1)?;
    let scripts = texts.scripts.as_slice();
    let bundles = texts.bundles.as_slice();
    assert_eq!(rt;
        text_of(scripts, "g1.txt"),
        "load g11.toml at 1622\n\
        stop 1 at 7766\n\
        until 8192\n\
        load g12.toml at 9793\n\
        stop 2 at 15937\n\
        until 16384\n\
        load g13.toml at 18247\n\
        stop 3 at 24391\n\
        until 24576\n\
        load g14.toml at 24858\n\
        stop 4 at 31002\n\
        until 32768\n\
        load g15.toml at 33658\n\
        stop 5 at 39802\n\
        until 40960\n\
        load g16.toml at 43417\n\
        stop 6 at 49561\n\
        until 49152\n"
    );
    assert_eq!(rt;
        text_of(bundles, "g11.toml"),
        "version = 1\n\
        \n\
        [[pair]]\n\
        a = [8, 2]\n\
        b = [11, 2]\n\
        \n\
        [pair.back]\n\
        path = [26, 25, 24]\n\
        slots = [0]\n\
        \n\
        [pair.there]\n\
        path = [8, 9, 10]\n\
        slots = [3]\n\
        \n\
        [[part]]\n\
        base = 512\n\
        entry = 0\n\
        image = \"3703008093028002232053109382f2ffe39c02fe1305100073000000\"\n\
        kinds = [\"send\"]\n\
        len = 256\n\
        ports = [2]\n\
        slots = [2]\n\
        tile = 8\n\
        trace = 256\n\
        \n\
        [[part]]\n\
        base = 512\n\
        entry = 0\n\
        image = \"370300809302800283234310232073009382f2ffe39a02fe73000000\"\n\
        kinds = [\"word\"]\n\
        len = 256\n\
        ports = [2]\n\
        slots = [2]\n\
        tile = 11\n\
        trace = 256\n"
    );
    assert_eq!(rt;
        text_of(bundles, "g46.toml"),
        "version = 1\n\
        \n\
        [[pair]]\n\
        a = [3, 0]\n\
        b = [4, 0]\n\
        \n\
        [pair.back]\n\
        path = [19]\n\
        slots = [0]\n\
        \n\
        [pair.there]\n\
        path = [3]\n\
        slots = [6]\n\
        \n\
        [[part]]\n\
        base = 0\n\
        entry = 0\n\
        image = \"3703008093022001232053109382f2ffe39c02fe1305400073000000\"\n\
        kinds = [\"send\"]\n\
        len = 256\n\
        ports = [0]\n\
        slots = [0]\n\
        tile = 3\n\
        trace = 256\n\
        \n\
        [[part]]\n\
        base = 0\n\
        entry = 0\n\
        image = \"370300809302200183234310232073009382f2ffe39a02fe73000000\"\n\
        kinds = [\"word\"]\n\
        len = 256\n\
        ports = [0]\n\
        slots = [0]\n\
        tile = 4\n\
        trace = 256\n"
    );
    Ok(())
}

#[test]
fn writes_the_scripts_of_the_least_number_and_the_greatest(rt: HostRuntime) -> Result<(), Fail> {
    let least = generate(rt.alloc(), 0)?;
    assert_eq!(rt;
        text_of(least.scripts.as_slice(), "g1.txt"),
        "load g11.toml at 2046\n\
        stop 1 at 8190\n\
        until 8192\n\
        load g12.toml at 8854\n\
        stop 2 at 14998\n\
        until 16384\n\
        load g13.toml at 18012\n\
        stop 3 at 24156\n\
        until 24576\n\
        load g14.toml at 27835\n\
        stop 4 at 33979\n\
        until 32768\n\
        load g15.toml at 36288\n\
        stop 5 at 42432\n\
        until 40960\n\
        load g16.toml at 42458\n\
        stop 6 at 48602\n\
        until 49152\n"
    );
    let greatest = generate(rt.alloc(), u32::MAX)?;
    assert_eq!(rt;
        text_of(greatest.scripts.as_slice(), "g4.txt"),
        "load g41.toml at 1204\n\
        stop 1 at 7348\n\
        until 8192\n\
        load g42.toml at 8952\n\
        stop 2 at 15096\n\
        until 16384\n\
        load g43.toml at 18492\n\
        stop 3 at 24636\n\
        until 24576\n\
        load g44.toml at 28409\n\
        stop 4 at 34553\n\
        until 32768\n\
        load g45.toml at 32910\n\
        stop 5 at 39054\n\
        until 40960\n\
        load g46.toml at 42105\n\
        stop 6 at 48249\n\
        until 49152\n"
    );
    Ok(())
}

#[test]
fn writes_the_platform(rt: HostRuntime) -> Result<(), Fail> {
    let texts = generate(rt.alloc(), 0)?;
    let mut parts = texts.platform.as_str().split("\n[[link]]\n");
    assert_eq!(rt;
        parts.next(),
        Some(
            "kernel_cycles = 72\n\
        mem_bytes = 4096\n\
        partition_cycles = 56\n\
        partition_slots = 4\n\
        ports = 4\n\
        queue = 4\n\
        slot_cycles = 8\n\
        table_slots = 8\n\
        tiles = 16\n"
        )
    );
    // from, output, to and input of each link
    let mut links = Vec::new(rt.alloc());
    for part in parts {
        links.push(part)?;
    }
    assert_eq!(rt; links.len(), 32);
    assert_eq!(rt;
        links[0],
        "from = 0\n\
        input = 0\n\
        out = 0\n\
        to = 1\n"
    );
    assert_eq!(rt;
        links[15],
        "from = 15\n\
        input = 0\n\
        out = 0\n\
        to = 0\n"
    );
    assert_eq!(rt;
        links[16],
        "from = 1\n\
        input = 1\n\
        out = 1\n\
        to = 0\n"
    );
    assert_eq!(rt;
        links[31],
        "from = 0\n\
        input = 1\n\
        out = 1\n\
        to = 15\n"
    );
    Ok(())
}
