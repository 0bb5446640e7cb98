//! Whether the ports of parts and the ends of channel pairs fit together.
//!
//! Lists come from a file and may be long: ports are judged to exist before two of them are
//! compared, so that a port that stands twice is met among the first few.

ghost use Rattle.std.specs.Prelude.{◌≡◌, ◌==◌, filter, length};
ghost use Rattle.std.specs.List.{list_all};
ghost use Rattle.bundle_model.specs.Rules.{is_port, has_ports, is_end_at, is_end_of, is_held_end, end_tile, joins_parts, has_end, is_paired, fits_together};

use crate::raw::{RawBundle, RawPair, RawPart};
use platform_model::Platform;
use soc_base::{Likeness, has_twin};

/// Answers whether ports and pairs fit together.
pub fn fit_together(raw: &RawBundle, platform: &Platform) -> bool
    ensures { result ≡ fits_together platform.now raw.now }
{
    let parts = raw.parts.as_slice();
    let pairs = raw.pairs.as_slice();
    have_ports(parts, platform) && join_parts(parts, pairs) && are_paired(parts, pairs)
}

// Whether each part's ports are ports of its tile, and all different.
fn have_ports(parts: &[RawPart], platform: &Platform) -> bool
    ensures { result ≡ list_all (has_ports platform.now) parts.now }
{
    parts.iter().all(|part| are_ports(part, platform))
}

// Whether the part's ports are ports of its tile, and all different.
fn are_ports(part: &RawPart, platform: &Platform) -> bool
    ensures { result ≡ has_ports platform.now part.now }
{
    let ports = part.ports.as_slice();
    exist(ports, platform) && !has_twin::<i64, OnePort>(ports)
}

// Whether each number is a port of the platform's network interfaces.
fn exist(ports: &[i64], platform: &Platform) -> bool
    ensures { result ≡ list_all (is_port platform.now) ports.now }
{
    let count = i64::from(platform.ports);
    ports.iter().all(|port| 0 <= *port && *port < count)
}

// Ports that are one.
struct OnePort;

impl Likeness<i64> for OnePort {
    ghost use Rattle.std.specs.Ordering.{int_eq};

    ghost alike = { int_eq };

    fn are_alike(one: &i64, other: &i64) -> bool {
        *one == *other
    }
}

// Whether each pair joins ports of parts, on two tiles.
fn join_parts(parts: &[RawPart], pairs: &[RawPair]) -> bool
    ensures { result ≡ list_all (joins_parts parts.now) pairs.now }
{
    pairs.iter().all(|pair| joins(parts, pair))
}

// Whether the pair joins ports of parts, on two tiles.
fn joins(parts: &[RawPart], pair: &RawPair) -> bool
    ensures { result ≡ joins_parts parts.now pair.now }
{
    let a = pair.a.as_slice();
    let b = pair.b.as_slice();
    is_held(parts, a) && is_held(parts, b) && tile_of(a) != tile_of(b)
}

// Whether the end is a port of some part.
fn is_held(parts: &[RawPart], end: &[i64]) -> bool
    ensures { result ≡ is_held_end parts.now end.now }
{
    parts.iter().any(|part| is_of_part(part, end))
}

// Whether the end is a port of the part.
fn is_of_part(part: &RawPart, end: &[i64]) -> bool
    ensures { result ≡ is_end_of end.now part.now }
{
    let ports = part.ports.as_slice();
    ports.iter().any(|port| is_at(part.tile, *port, end))
}

// Whether the end is two numbers, and they are this tile and this port.
fn is_at(tile: i64, port: i64, end: &[i64]) -> bool
    ensures { result ≡ is_end_at tile port end.now }
{
    match end {
        [one, other] => *one == tile && *other == port,
        _ => false,
    }
}

/// Answers the tile that an end states: its first number.
pub fn tile_of(end: &[i64]) -> i64
    ensures { result ≡ end_tile end.now }
{
    match end {
        [tile, ..] => *tile,
        [] => 0,
    }
}

// Whether each port of each part is an end of exactly one pair.
fn are_paired(parts: &[RawPart], pairs: &[RawPair]) -> bool
    ensures { result ≡ list_all (is_paired pairs.now) parts.now }
{
    parts.iter().all(|part| is_paired(part, pairs))
}

// Whether each port of the part is an end of exactly one pair.
fn is_paired(part: &RawPart, pairs: &[RawPair]) -> bool
    ensures { result ≡ is_paired pairs.now part.now }
{
    let ports = part.ports.as_slice();
    ports
        .iter()
        .all(|port| is_end_once(part.tile, *port, pairs))
}

// Whether the port is an end of exactly one pair.
fn is_end_once(tile: i64, port: i64, pairs: &[RawPair]) -> bool
    ensures { result ≡ (length (filter (has_end tile port) pairs.now) == 1) }
{
    count(tile, port, pairs) == 1
}

// Of how many pairs the port is an end.
#[tactic(auto, using(crate::proofs::Twins::filtered_count))]
fn count(tile: i64, port: i64, pairs: &[RawPair]) -> usize
    ensures { result ≡ length (filter (has_end tile port) pairs.now) }
{
    pairs.iter().filter(|pair| is_end(tile, port, pair)).count()
}

// Whether the port is an end of the pair.
fn is_end(tile: i64, port: i64, pair: &RawPair) -> bool
    ensures { result ≡ has_end tile port pair.now }
{
    is_at(tile, port, pair.a.as_slice()) || is_at(tile, port, pair.b.as_slice())
}
