use crate::read_platform;
use platform_model::{Link, PRule, Platform, PlatformFault};
use std::alloc::Global;
use std::test::Fail;

/// A platform file that keeps each rule, line by line, each with its key.
const LINES: [(&str, &str); 9] = [
    ("tiles", "tiles = 1\n"),
    ("mem_bytes", "mem_bytes = 4096\n"),
    ("slot_cycles", "slot_cycles = 8\n"),
    ("table_slots", "table_slots = 8\n"),
    ("kernel_cycles", "kernel_cycles = 72\n"),
    ("partition_cycles", "partition_cycles = 56\n"),
    ("partition_slots", "partition_slots = 2\n"),
    ("ports", "ports = 2\n"),
    ("queue", "queue = 8\n"),
];

/// The links of two tiles, and of three.
const TWO: &str =
    "[[link]]\nfrom = 0\nout = 0\nto = 1\ninput = 0\n[[link]]\nfrom = 1\nout = 0\nto = 0\ninput = 0\n";

const THREE: &str =
    "link = [{ from = 0, out = 0, to = 1, input = 0 }, { from = 1, out = 0, to = 2, input = 0 }, { from = 2, out = 0, to = 1, input = 1 }, { from = 1, out = 1, to = 0, input = 0 }]\n";

/// The file above with another line for a key, and with more lines at its end.
fn changed(alloc: Global, key: &str, line: &str, tail: &str) -> Result<String, Fail> {
    let mut text = String::new(alloc);
    for (name, kept) in LINES {
        text.push_str(if name == key { line } else { kept })?;
    }
    text.push_str(tail)?;
    Ok(text)
}

/// The links of so many tiles in a ring, one way and then the other.
fn ring(alloc: Global, tiles: u8) -> Result<String, Fail> {
    let mut text = String::new(alloc);
    let tiles = u32::from(tiles);
    for i in 0..2 * tiles {
        let (tile, next) = (i % tiles, (i + 1) % tiles);
        let (way, from, to) = if i < tiles {
            (0, tile, next)
        } else {
            (1, next, tile)
        };
        let link = format!(in alloc;
            "[[link]]\nfrom = {from}\nout = {way}\nto = {to}\ninput = {way}\n"
        )?;
        text.push_str(&link)?;
    }
    Ok(text)
}

/// The platform of a file.
fn read(alloc: Global, bytes: &[u8]) -> Result<Platform, PlatformFault> {
    read_platform(alloc, bytes)
}

/// The rule that a file breaks, if it breaks one.
fn judged(alloc: Global, bytes: &[u8]) -> Result<Option<PRule>, Fail> {
    match read(alloc, bytes) {
        Ok(_) => Ok(None),
        Err(PlatformFault::Rule(rule)) => Ok(Some(rule)),
        Err(PlatformFault::NoMemory) => Err(Fail::from(PlatformFault::NoMemory)),
    }
}

/// The numbers of a link.
fn told(link: &Link) -> (u8, u8, u8, u8) {
    (link.from, link.out, link.to, link.input)
}

#[test]
fn gives_the_numbers_as_written(rt: HostRuntime) -> Result<(), Fail> {
    let tail = format!(in rt.alloc(); "{THREE}[costs]\ndiv = 64\njump = 5\n")?;
    let text = changed(rt.alloc(), "tiles", "tiles = 3\n", &tail)?;
    let platform = read(rt.alloc(), text.as_bytes())?;
    assert_eq!(rt; platform.tiles, 3);
    assert_eq!(rt; platform.mem_bytes, 4096);
    assert_eq!(rt; platform.slot_cycles, 8);
    assert_eq!(rt; platform.table_slots, 8);
    assert_eq!(rt; platform.kernel_cycles, 72);
    assert_eq!(rt; platform.partition_cycles, 56);
    assert_eq!(rt; platform.partition_slots, 2);
    assert_eq!(rt; platform.ports, 2);
    assert_eq!(rt; platform.queue, 8);
    let links = [(0, 0, 1, 0), (1, 0, 2, 0), (2, 0, 1, 1), (1, 1, 0, 0)];
    assert_eq!(rt; platform.links.len(), links.len());
    for (link, want) in platform.links.as_slice().iter().zip(links) {
        assert_eq!(rt; told(link), want);
    }
    let costs = platform.costs;
    let first = (costs.integer, costs.mul, costs.div, costs.load, costs.store);
    let second = (
        costs.taken,
        costs.untaken,
        costs.jump,
        costs.device,
        costs.system,
    );
    assert_eq!(rt; first, (1, 3, 64, 2, 2));
    assert_eq!(rt; second, (3, 1, 5, 4, 1));
    Ok(())
}

#[test]
fn reads_a_ring_of_thirty_two_tiles(rt: HostRuntime) -> Result<(), Fail> {
    for (tiles, rule) in [(32, None), (33, Some(PRule::P4))] {
        let line = format!(in rt.alloc(); "tiles = {tiles}\n")?;
        let text = changed(rt.alloc(), "tiles", &line, &ring(rt.alloc(), tiles)?)?;
        assert_eq!(rt; judged(rt.alloc(), text.as_bytes())?, rule, "{tiles} tiles");
    }
    Ok(())
}

#[test]
fn answers_the_least_rule(rt: HostRuntime) -> Result<(), Fail> {
    let cases = [
        ("", "", "", None),
        ("tiles", "tiles = 1\r\n", "", None),
        ("tiles", "tiles = 2\n", TWO, None),
        ("tiles", "tiles = 32\n", "", None),
        ("", "", "link = []\ncosts = {}\n", None),
        ("", "", "costs.div = 64\n", None),
        ("tiles", "tiles =\n", "", Some(PRule::P1)),
        ("tiles", "tiles = 1\ntiles = 1\n", "", Some(PRule::P1)),
        (
            "tiles",
            "tiles = 9223372036854775808\n",
            "",
            Some(PRule::P1),
        ),
        ("queue", "", "colour = 1\n", Some(PRule::P2)),
        ("", "", "[[link]]\ncolour = 1\n", Some(PRule::P2)),
        ("", "", "[costs]\ncolour = 1\n", Some(PRule::P2)),
        ("", "", "link = [{ colour = 1 }, 5]\n", Some(PRule::P2)),
        ("", "", "[link]\ncolour = 1\n", Some(PRule::P3)),
        ("queue", "", "", Some(PRule::P3)),
        ("queue", "queue = 8.0\n", "", Some(PRule::P3)),
        ("queue", "queue = \"8\"\n", "", Some(PRule::P3)),
        ("queue", "queue = 2024-01-01\n", "", Some(PRule::P3)),
        ("tiles", "tiles = 33\n", "costs = 1\n", Some(PRule::P3)),
        (
            "",
            "",
            "[[link]]\nfrom = 0\nout = 0\nto = 1\n",
            Some(PRule::P3),
        ),
        (
            "",
            "",
            "link = [{ from = 0, out = 0, to = 1, input = 0.5 }]\n",
            Some(PRule::P3),
        ),
        ("", "", "[costs]\ndiv = \"2\"\n", Some(PRule::P3)),
        ("tiles", "tiles = -1\n", "", Some(PRule::P4)),
        ("tiles", "tiles = 0\n", "", Some(PRule::P4)),
        ("tiles", "tiles = 33\n", TWO, Some(PRule::P4)),
        ("mem_bytes", "mem_bytes = 24\n", TWO, Some(PRule::P5)),
        (
            "slot_cycles",
            "slot_cycles = 65\n",
            "[costs]\ndiv = 65\n",
            Some(PRule::P6),
        ),
        ("kernel_cycles", "kernel_cycles = 65\n", "", Some(PRule::P7)),
        ("queue", "queue = 64\n", "", Some(PRule::P8)),
        ("", "", TWO, Some(PRule::P9)),
        ("tiles", "tiles = 2\n", THREE, Some(PRule::P9)),
        (
            "tiles",
            "tiles = 2\n",
            "link = [{ from = 2, out = 0, to = 1, input = 0 }]\n",
            Some(PRule::P9),
        ),
        (
            "tiles",
            "tiles = 2\n",
            "link = [{ from = 0, out = 7, to = 1, input = 0 }]\n",
            Some(PRule::P10),
        ),
        (
            "tiles",
            "tiles = 2\n",
            "link = [{ from = 0, out = 0, to = 1, input = 0 }, { from = 0, out = 0, to = 1, input = 1 }]\n",
            Some(PRule::P11),
        ),
        ("", "", "[costs]\ndiv = 65\n", Some(PRule::P12)),
    ];
    for (key, line, tail, rule) in cases {
        let text = changed(rt.alloc(), key, line, tail)?;
        assert_eq!(rt; judged(rt.alloc(), text.as_bytes())?, rule, "{text}");
    }
    let bytes: [(&[u8], PRule); 4] = [
        (b"", PRule::P3),
        (b"\xef\xbb\xbf", PRule::P3),
        (b"tiles = 1 # \xff\n", PRule::P1),
        (b"tiles", PRule::P1),
    ];
    for (file, rule) in bytes {
        assert_eq!(rt; judged(rt.alloc(), file)?, Some(rule), "{file:?}");
    }
    Ok(())
}
