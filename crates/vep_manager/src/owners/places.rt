//! Where a resource lies in an index of owners: a row, and a range of bytes in it.
//!
//! Each tile has a row for its spans, and each partition slot, port, injection slot, delivery slot and
//! slot of a link has a row of its own.

ghost use Rattle.std.specs.Prelude.{◌≡◌, ◌<◌};
ghost use Rattle.vep_manager.specs.inner.Places.{low_of, high_of, place_of, row_of};

use bundle_model::Resource;

/// The rows of a tile, and of a link: 1 for spans, 16 for partition slots, 16 for ports and 64 each for
/// the slots of injections and of deliveries. A link uses the first 64.
pub const GROUP: usize = 161;

/// The first row of a tile's partition slots.
pub const PARTITIONS: usize = 1;

/// The first row of a tile's ports.
pub const PORTS: usize = 17;

/// The first row of the slots in which a tile injects.
pub const INJECTS: usize = 33;

/// The first row of the slots in which a tile receives.
pub const DELIVERS: usize = 97;

/// Answers the first byte of a span; 0 for other resources.
pub fn low(resource: &Resource) -> u64
    ensures { result ≡ low_of resource.now }
{
    match *resource {
        Resource::Span { base, .. } => u64::from(base),
        Resource::Partition { .. }
        | Resource::Port { .. }
        | Resource::Inject { .. }
        | Resource::LinkSlot { .. }
        | Resource::Deliver { .. } => 0,
    }
}

/// Answers the byte behind a span; 0 for other resources.
pub fn high(resource: &Resource) -> u64
    ensures { result ≡ high_of resource.now }
{
    match *resource {
        Resource::Span { base, len, .. } => u64::from(base) + u64::from(len),
        Resource::Partition { .. }
        | Resource::Port { .. }
        | Resource::Inject { .. }
        | Resource::LinkSlot { .. }
        | Resource::Deliver { .. } => 0,
    }
}

// The number of a place on a platform of so many tiles: the tiles' places come first, then the links'.
fn place(tiles: u8, resource: &Resource) -> usize
    ensures { result ≡ place_of tiles resource.now }
{
    match *resource {
        Resource::Partition { tile, slot } => {
            usize::from(tile) * GROUP + PARTITIONS + usize::from(slot)
        }
        Resource::Span { tile, .. } => usize::from(tile) * GROUP,
        Resource::Port { tile, port } => usize::from(tile) * GROUP + PORTS + usize::from(port),
        Resource::Inject { tile, slot } => usize::from(tile) * GROUP + INJECTS + usize::from(slot),
        Resource::LinkSlot { link, slot } => {
            (usize::from(tiles) + usize::from(link)) * GROUP + usize::from(slot)
        }
        Resource::Deliver { tile, slot } => {
            usize::from(tile) * GROUP + DELIVERS + usize::from(slot)
        }
    }
}

/// Answers the row of a resource among so many: that of its place on a platform of so many tiles. What
/// lies outside shares row 0 with the spans of tile 0.
pub fn row_number(tiles: u8, rows: usize, resource: &Resource) -> usize
    requires { 0 < rows }
    ensures row { result ≡ row_of tiles rows resource.now }
    ensures within { result < rows }
{
    let place = place(tiles, resource);
    if place < rows { place } else { 0 }
}
