//! Bundle files, and the platforms that they are read on.

use crate::read_bundle;
use bundle_model::{BRule, Bundle, BundleFault};
use platform_model::{Platform, RawLink, RawPlatform};
use soc_base::Items;
use std::alloc::Global;
use std::test::Fail;

/// A bundle file of one part that keeps each rule, line by line, each with its key.
pub const ONE: [(&str, &str); 10] = [
    ("version", "version = 1\n"),
    ("part", "[[part]]\n"),
    ("tile", "tile = 0\n"),
    ("slots", "slots = [0]\n"),
    ("base", "base = 0\n"),
    ("len", "len = 64\n"),
    ("entry", "entry = 0\n"),
    ("trace", "trace = 16\n"),
    ("kinds", "kinds = [\"word\"]\n"),
    ("image", "image = \"93027000370300802320530073000000\"\n"),
];

/// A bundle file of two parts that sends two words on two tiles, line by line. Both parts' ports have one key.
pub const PIPE: [(&str, &str); 12] = [
    ("version", "version = 1\n"),
    (
        "part",
        "[[part]]\ntile = 0\nslots = [0]\nbase = 0\nlen = 64\nentry = 0\ntrace = 16\nkinds = [\"send\"]\n",
    ),
    ("ports", "ports = [0]\n"),
    ("image", "image = \"37030080232063102320631073000000\"\n"),
    (
        "",
        "[[part]]\ntile = 1\nslots = [0, 1]\nbase = 0\nlen = 64\nentry = 0\ntrace = 16\nkinds = [\"recv\"]\n",
    ),
    ("ports", "ports = [0]\n"),
    ("", "image = \"37030080832243108322431073000000\"\n"),
    ("pair", "[[pair]]\n"),
    ("a", "a = [0, 0]\n"),
    ("b", "b = [1, 0]\n"),
    ("there", "there = { path = [0], slots = [1] }\n"),
    ("back", "back = { path = [1], slots = [5] }\n"),
];

/// Three words where the file above sends two, and the first part in both slots.
pub const THREE_WORDS: &str = "version = 1
[[part]]
tile = 0
slots = [0, 1]
base = 0
len = 64
entry = 0
trace = 16
kinds = [\"send\"]
ports = [0]
image = \"3703008023206310232063102320631073000000\"
[[part]]
tile = 1
slots = [0, 1]
base = 0
len = 64
entry = 0
trace = 16
kinds = [\"recv\"]
ports = [0]
image = \"3703008083224310832243108322431073000000\"
[[pair]]
a = [0, 0]
b = [1, 0]
there = { path = [0], slots = [1] }
back = { path = [1], slots = [5] }
";

/// One of two bundles on three tiles that both want slot 3 of link 1.
pub const P: &str = "version = 1
part = [{ tile = 0, slots = [0], base = 0, len = 64, entry = 0, trace = 16, kinds = [\"send\"], ports = [0], image = \"370300802320631073000000\" }, { tile = 2, slots = [0], base = 0, len = 64, entry = 0, trace = 16, kinds = [\"recv\"], ports = [0], image = \"370300808322431073000000\" }]
pair = [{ a = [0, 0], b = [2, 0], there = { path = [0, 1], slots = [1] }, back = { path = [2, 3], slots = [5] } }]
";

/// The other one, with its pair's channels spelt by dotted keys and by a table.
pub const Q: &str = "version = 1
part = [{ tile = 1, slots = [1], base = 64, len = 64, entry = 0, trace = 16, kinds = [\"recv\"], ports = [0], image = \"73000000\" }, { tile = 2, slots = [1], base = 64, len = 64, entry = 0, trace = 16, kinds = [\"recv\"], ports = [1], image = \"370300808322431073000000\" }]
[[pair]]
a = [1, 0]
b = [2, 1]
there.path = [1]
there.slots = [2]
[pair.back]
slots = [0]
path = [2]
";

/// The links of two tiles: from, out, to and input of each.
pub const TWO: [[i64; 4]; 2] = [[0, 0, 1, 0], [1, 0, 0, 0]];

/// The links of three tiles in a row, likewise.
pub const THREE: [[i64; 4]; 4] = [[0, 0, 1, 0], [1, 0, 2, 0], [2, 0, 1, 1], [1, 1, 0, 0]];

/// The file of these lines with another line for a key, and with more lines at its end.
pub fn changed(
    alloc: Global,
    lines: &[(&str, &str)],
    key: &str,
    line: &str,
    tail: &str,
) -> Result<String, Fail> {
    let mut text = String::new(alloc);
    for (name, kept) in lines.iter().copied() {
        text.push_str(if name == key && key.len() > 0 {
            line
        } else {
            kept
        })?;
    }
    text.push_str(tail)?;
    Ok(text)
}

/// A platform of so many tiles with these links, and else the plain platform's numbers.
pub fn platform(
    alloc: Global,
    tiles: i64,
    table_slots: i64,
    links: &[[i64; 4]],
) -> Result<Platform, Fail> {
    let mut raw_links = Items::new(alloc);
    for [from, out, to, input] in links.iter().copied() {
        raw_links.push(RawLink {
            from,
            out,
            to,
            input,
        })?;
    }
    let raw = RawPlatform {
        tiles,
        table_slots,
        links: raw_links,
        ..RawPlatform::plain(alloc)
    };
    Ok(Platform::check(alloc, &raw)?)
}

/// A ring of thirty-two tiles: links 0 to 31 lead one way round it, and links 32 to 63 the other.
pub fn ring(alloc: Global) -> Result<Platform, Fail> {
    let mut links = Vec::new(alloc);
    for i in 0i64..64 {
        let (tile, next) = (i % 32, (i + 1) % 32);
        links.push(if i < 32 {
            [tile, 0, next, 0]
        } else {
            [next, 1, tile, 1]
        })?;
    }
    platform(alloc, 32, 64, &links)
}

/// The first slots of a table, as the text of an array's items.
pub fn slots(alloc: Global, count: u8) -> Result<String, Fail> {
    let mut text = String::new(alloc);
    for slot in 0..count {
        let one = format!(in alloc; "{slot}, ")?;
        text.push_str(&one)?;
    }
    Ok(text)
}

/// The file of four parts on a ring of thirty-two tiles whose four channels, of sixteen links each, have so
/// many slots.
pub fn many(alloc: Global, count: u8) -> Result<String, Fail> {
    let slots = slots(alloc, count)?;
    let mut text = String::new(alloc);
    text.push_str("version = 1\n")?;
    for tile in [0u8, 16, 1, 17] {
        let part = format!(in alloc;
            "[[part]]\ntile = {tile}\nslots = [0]\nbase = 0\nlen = 16\nentry = 0\ntrace = 0\nports = [0]\nimage = \"\"\n"
        )?;
        text.push_str(&part)?;
    }
    let pairs = [
        (
            0u8,
            16u8,
            "0, 1, 2, 3, 4, 5, 6, 7, 8, 9, 10, 11, 12, 13, 14, 15",
            "16, 17, 18, 19, 20, 21, 22, 23, 24, 25, 26, 27, 28, 29, 30, 31",
        ),
        (
            1,
            17,
            "32, 63, 62, 61, 60, 59, 58, 57, 56, 55, 54, 53, 52, 51, 50, 49",
            "48, 47, 46, 45, 44, 43, 42, 41, 40, 39, 38, 37, 36, 35, 34, 33",
        ),
    ];
    for (a, b, there, back) in pairs {
        let pair = format!(in alloc;
            "[[pair]]\na = [{a}, 0]\nb = [{b}, 0]\nthere = {{ path = [{there}], slots = [{slots}] }}\nback = {{ path = [{back}], slots = [{slots}] }}\n"
        )?;
        text.push_str(&pair)?;
    }
    Ok(text)
}

/// The bundle of a file on a platform.
pub fn read(alloc: Global, bytes: &[u8], platform: &Platform) -> Result<Bundle, BundleFault> {
    read_bundle(alloc, bytes, platform)
}

/// The rule that a file breaks on a platform, if it breaks one.
pub fn judged(alloc: Global, bytes: &[u8], platform: &Platform) -> Result<Option<BRule>, Fail> {
    match read(alloc, bytes, platform) {
        Ok(_) => Ok(None),
        Err(BundleFault::Rule(rule)) => Ok(Some(rule)),
        Err(BundleFault::NoMemory) => Err(Fail::from(BundleFault::NoMemory)),
    }
}
