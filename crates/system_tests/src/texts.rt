//! Platforms and bundles as texts of their files. The images are words in the order of memory:
//! `37030080` puts the address of TRACE into x6, `83225310` and the like load from a port there, `23206310`
//! and the like store to one, and `73000000` ends the part.

use std::alloc::{AllocError, Global};

/// Two tiles, with a link each way.
pub const TWO: &str =
    "[[link]]\nfrom = 0\nout = 0\nto = 1\ninput = 0\n[[link]]\nfrom = 1\nout = 0\nto = 0\ninput = 0\n";

/// Three tiles in a line: links 0 and 1 lead from tile 0 over tile 1 to tile 2, links 2 and 3 lead back.
pub const THREE: &str =
    "[[link]]\nfrom = 0\nout = 0\nto = 1\ninput = 0\n[[link]]\nfrom = 1\nout = 0\nto = 2\ninput = 0\n[[link]]\nfrom = 2\nout = 0\nto = 1\ninput = 1\n[[link]]\nfrom = 1\nout = 1\nto = 0\ninput = 0\n";

/// A part that sends two words from tile 0, and one that receives them on tile 1.
pub const PIPE: &str =
    "version = 1\n[[part]]\ntile = 0\nslots = [0]\nbase = 0\nlen = 64\nentry = 0\ntrace = 16\nkinds = [\"send\"]\nports = [0]\nimage = \"37030080232063102320631073000000\"\n[[part]]\ntile = 1\nslots = [0, 1]\nbase = 0\nlen = 64\nentry = 0\ntrace = 16\nkinds = [\"recv\"]\nports = [0]\nimage = \"37030080832243108322431073000000\"\n[[pair]]\na = [0, 0]\nb = [1, 0]\nthere = { path = [0], slots = [1] }\nback = { path = [1], slots = [5] }\n";

/// One word from tile 0 over tile 1 to tile 2: it is stored in cycle 76, slot 9, and injected in slot 17.
pub const OVER: &str =
    "version = 1\n[[part]]\ntile = 0\nslots = [0]\nbase = 0\nlen = 64\nentry = 0\ntrace = 16\nkinds = [\"send\"]\nports = [0]\nimage = \"370300802320631073000000\"\n[[part]]\ntile = 2\nslots = [0]\nbase = 0\nlen = 64\nentry = 0\ntrace = 16\nkinds = [\"recv\"]\nports = [0]\nimage = \"370300808322431073000000\"\n[[pair]]\na = [0, 0]\nb = [2, 0]\nthere = { path = [0, 1], slots = [1] }\nback = { path = [2, 3], slots = [5] }\n";

/// Its channel claims link 1 in slot 3, as that of `OVER` does. Its part on tile 1 ends at once, and that
/// on tile 2 waits for a word that nobody sends.
pub const LATER: &str =
    "version = 1\n[[part]]\ntile = 1\nslots = [1]\nbase = 64\nlen = 64\nentry = 0\ntrace = 16\nkinds = [\"recv\"]\nports = [0]\nimage = \"73000000\"\n[[part]]\ntile = 2\nslots = [1]\nbase = 64\nlen = 64\nentry = 0\ntrace = 16\nkinds = [\"recv\"]\nports = [1]\nimage = \"370300808322431073000000\"\n[[pair]]\na = [1, 0]\nb = [2, 1]\nthere = { path = [1], slots = [2] }\nback = { path = [2], slots = [0] }\n";

/// A part on tile 0 beside the others, that traces 7.
pub const SEVEN: &str =
    "version = 1\n[[part]]\ntile = 0\nslots = [1]\nbase = 64\nlen = 64\nentry = 0\ntrace = 16\nkinds = [\"word\"]\nimage = \"93027000370300802320530073000000\"\n";

/// The numbers of a platform that the tests change.
#[derive(Clone, Copy)]
pub struct Shape {
    /// How many tiles it has.
    pub tiles: u8,
    /// How many rows a slot table has.
    pub table_slots: u8,
    /// How many partition slots a tile has.
    pub partition_slots: u8,
    /// How many ports a tile has.
    pub ports: u8,
}

/// A platform of this shape, of slots of 8 cycles, and of instances of 72 and 56 cycles, with these links.
pub fn platform(alloc: Global, shape: Shape, links: &str) -> Result<String, AllocError> {
    let Shape {
        tiles,
        table_slots,
        partition_slots,
        ports,
    } = shape;
    format!(in alloc;
        "tiles = {tiles}\nmem_bytes = 4096\nslot_cycles = 8\ntable_slots = {table_slots}\nkernel_cycles = 72\npartition_cycles = 56\npartition_slots = {partition_slots}\nports = {ports}\nqueue = 8\n{links}"
    )
}

/// A platform of so many tiles, with slot tables of 8 rows, two partition slots and two ports.
pub fn small(alloc: Global, tiles: u8, links: &str) -> Result<String, AllocError> {
    let shape = Shape {
        tiles,
        table_slots: 8,
        partition_slots: 2,
        ports: 2,
    };
    platform(alloc, shape, links)
}

/// A part of 64 bytes that keeps 256 rows.
#[derive(Clone, Copy)]
pub struct PartText<'a> {
    /// Its tile.
    pub tile: u8,
    /// Its partition slots, as in `0, 1`.
    pub slots: &'a str,
    /// Where its region begins, in bytes.
    pub base: u16,
    /// Its kinds, as in `"send", "recv"`.
    pub kinds: &'a str,
    /// Its ports, as in `0, 1`.
    pub ports: &'a str,
    /// Its image.
    pub image: &'a str,
}

/// The text of a part.
pub fn part(alloc: Global, part: PartText<'_>) -> Result<String, AllocError> {
    let PartText {
        tile,
        slots,
        base,
        kinds,
        ports,
        image,
    } = part;
    format!(in alloc;
        "[[part]]\ntile = {tile}\nslots = [{slots}]\nbase = {base}\nlen = 64\nentry = 0\ntrace = 256\nkinds = [{kinds}]\nports = [{ports}]\nimage = \"{image}\"\n"
    )
}

/// A pair between two ends, each a tile and a port, and its two channels, each a path and its slots.
#[derive(Clone, Copy)]
pub struct PairText<'a> {
    /// The end that the first channel leaves.
    pub a: (u8, u8),
    /// The other end.
    pub b: (u8, u8),
    /// The channel from `a` to `b`, as in `("0, 1", "1")`.
    pub there: (&'a str, &'a str),
    /// The channel from `b` to `a`.
    pub back: (&'a str, &'a str),
}

/// The text of a pair.
pub fn pair(alloc: Global, pair: PairText<'_>) -> Result<String, AllocError> {
    let ((tile_a, port_a), (tile_b, port_b)) = (pair.a, pair.b);
    let ((there, there_slots), (back, back_slots)) = (pair.there, pair.back);
    format!(in alloc;
        "[[pair]]\na = [{tile_a}, {port_a}]\nb = [{tile_b}, {port_b}]\nthere = {{ path = [{there}], slots = [{there_slots}] }}\nback = {{ path = [{back}], slots = [{back_slots}] }}\n"
    )
}

/// A bundle of two parts and the pair that joins them.
pub fn joined(
    alloc: Global,
    first: PartText<'_>,
    second: PartText<'_>,
    channels: PairText<'_>,
) -> Result<String, AllocError> {
    let first = part(alloc, first)?;
    let second = part(alloc, second)?;
    let channels = pair(alloc, channels)?;
    format!(in alloc; "version = 1\n{first}{second}{channels}")
}
