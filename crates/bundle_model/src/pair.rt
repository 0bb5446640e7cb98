//! Making the channel pairs of a bundle of the raw values that mean them.

ghost use Rattle.std.specs.Prelude.{◌≡◌, pos, ◌<◌, nat_abs, map, slice_index_or, IsTrue, IfOk};
ghost use Rattle.std.specs.List.{list_all};
ghost use Rattle.platform_model.specs.Limits.{is_within};
ghost use Rattle.bundle_model.specs.Bundle.{end_of, channel_of, pair_of};
ghost use Rattle.bundle_model.specs.inner.Bytes.{are_bytes, is_of_bytes, are_of_bytes};

use crate::bundle::{Channel, End, Pair};
use crate::raw::{RawChannel, RawPair};
use soc_base::{Items, NoMemory};
use std::alloc::Global;

/// Makes the channel pairs that raw values mean whose numbers fit in bytes.
pub fn pairs_of(alloc: Global, raw: &[RawPair]) -> Result<Vec<Pair>, NoMemory>
    requires { IsTrue (list_all are_of_bytes raw.now) }
    ensures { IfOk result (λ pairs. pairs.items ≡ map pair_of raw.now) }
{
    let mut pairs = Vec::new(alloc);
    for one in raw {
        pairs.push(pair(alloc, one)?)?;
    }
    Ok(pairs)
}

// The pair that raw values mean.
fn pair(alloc: Global, raw: &RawPair) -> Result<Pair, NoMemory>
    requires { IsTrue (are_of_bytes raw.now) }
    ensures { IfOk result (λ pair. pair ≡ pair_of raw.now) }
{
    Ok(Pair {
        a: end(raw.a.as_slice()),
        b: end(raw.b.as_slice()),
        there: channel(alloc, &raw.there)?,
        back: channel(alloc, &raw.back)?,
    })
}

// The end that a tile and a port mean.
fn end(raw: &[i64]) -> End
    requires { IsTrue (are_bytes raw.now) }
    ensures { result ≡ end_of raw.now }
{
    match raw {
        [tile, port, ..] => End {
            tile: *tile as u8,
            port: *port as u8,
        },
        [tile] => End {
            tile: *tile as u8,
            port: 0,
        },
        [] => End { tile: 0, port: 0 },
    }
}

// The channel that raw values mean.
fn channel(alloc: Global, raw: &RawChannel) -> Result<Channel, NoMemory>
    requires { IsTrue (is_of_bytes raw.now) }
    ensures { IfOk result (λ channel. channel ≡ channel_of raw.now) }
{
    Ok(Channel {
        path: bytes(alloc, raw.path.as_slice())?,
        slots: bytes(alloc, raw.slots.as_slice())?,
    })
}

/// Makes the bytes that numbers are.
pub fn bytes(alloc: Global, numbers: &[i64]) -> Result<Items<u8>, NoMemory>
    requires { IsTrue (are_bytes numbers.now) }
    ensures { IfOk result (λ bytes. bytes ≡ map nat_abs numbers.now) }
{
    let mut bytes = Vec::new(alloc);
    for number in numbers {
        bytes.push(byte(*number))?;
    }
    Ok(Items::from_vec(bytes))
}

// The byte that a number is.
fn byte(number: i64) -> u8
    requires { IsTrue (is_within number (pos 0) (pos 255)) }
    ensures { result ≡ nat_abs number }
{
    number as u8
}
