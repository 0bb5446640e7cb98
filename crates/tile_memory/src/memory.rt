//! The memory of one tile: loads and stores in a region, and the filling of a region with an image.

ghost use Rattle.std.specs.Prelude.{◌≡◌, ◌+◌, ◌*◌, ◌%◌, ◌^◌, ◌<◌, ◌≤◌, length, replicate, IfOk, OnOk, OnErr};
ghost use Rattle.soc_base.specs.Widths.{width_bytes};
ghost use Rattle.soc_base.specs.declared.limits.TheConstants.{MOST_MEMORY};
ghost use Rattle.tile_memory.specs.Bytes.{IsInside, region_bytes, with_region, filled_bytes, load_of, fetch_of, store_answer_of, stored_memory, word_of};

use crate::access;
use byteorder::{ByteOrder, LittleEndian};
use soc_base::{NoMemory, Region, Width};
use std::alloc::Global;
use std::marker::Model;
use thiserror::Error;

/// Why a load or a store was refused.
#[derive(Clone, Copy, Debug, PartialEq, Eq, Error)]
pub enum MemFault {
    /// The address isn't a multiple of the width.
    #[error("the address isn't a multiple of the width")]
    Align,
    /// The bytes aren't all in the region.
    #[error("the bytes aren't all in the region")]
    Outside,
}

/// The memory of one tile, which contracts see as the list of its bytes.
#[derive(Debug, Drop)]
pub struct TileMemory {
    bytes: Vec<u8>,
}

impl Model for TileMemory {
    ghost use Rattle.std.specs.Prelude.{List, ℕ};

    ghost Value = { List ℕ };

    ghost view = { λ m. m.bytes.items };
}

// The places of a region's first byte and of the byte after its last.
fn bounds(region: Region) -> (usize, usize)
    ensures base { result.0 ≡ region.base }
    ensures end { result.1 ≡ region.base + region.len }
{
    let base = region.base as usize;
    (base, base + region.len as usize)
}

impl TileMemory {
    /// Makes a memory of so many bytes (a multiple of 16, at most `MOST_MEMORY`), all zero.
    pub fn new(alloc: Global, bytes: u32) -> Result<TileMemory, NoMemory>
        requires rows { bytes % 16 ≡ 0 }
        requires most { bytes ≤ MOST_MEMORY }
        ensures { IfOk result (λ m. m ≡ replicate bytes 0) }
    {
        let bytes = Vec::from_elem(alloc, 0u8, bytes as usize)?;
        Ok(TileMemory { bytes })
    }

    /// Fills a region with an image of words, lowest address first, and then with zeros. Every byte
    /// outside the region stays. The region is made of whole words and holds the image.
    pub fn fill(&mut self, region: Region, image: &[u32])
        requires inside { IsInside self.old region }
        requires holds { 4 * length image.now ≤ region.len }
        ensures { self.new ≡ with_region self.old region (filled_bytes region.len image.now) }
    {
        let (base, end) = bounds(region);
        access::fill(&mut self.bytes[base..end], image);
    }

    /// Loads the number at an address of a region, unextended. Refuses with `Align` where the address
    /// isn't a multiple of the width, and else with `Outside` where its bytes aren't all in the region.
    pub fn load(&self, region: Region, addr: u32, width: Width) -> Result<u32, MemFault>
        requires { IsInside self.now region }
        ensures value { result ≡ load_of (region_bytes self.now region) addr width }
        ensures fits { IfOk result (λ value. value < 2 ^ (8 * width_bytes width)) }
    {
        let (base, end) = bounds(region);
        access::load(&self.bytes[base..end], addr, width)
    }

    /// Reads the word at an address of a region, whatever the address is a multiple of. None exactly
    /// where its four bytes aren't all in the region.
    pub fn fetch(&self, region: Region, addr: u32) -> Option<u32>
        requires { IsInside self.now region }
        ensures { result ≡ fetch_of (region_bytes self.now region) addr }
    {
        let (base, end) = bounds(region);
        access::fetch(&self.bytes[base..end], addr)
    }

    /// Stores the low bytes of a value at an address of a region, and changes no other byte. Refuses
    /// as `load` does, and then changes nothing.
    pub fn store(
        &mut self,
        region: Region,
        addr: u32,
        width: Width,
        value: u32,
    ) -> Result<(), MemFault>
        requires { IsInside self.old region }
        ensures answer { result ≡ store_answer_of (region_bytes self.old region) addr width }
        ensures stored { OnOk result (self.new ≡ stored_memory self.old region addr width value) }
        ensures refused { OnErr result (self.new ≡ self.old) }
    {
        let (base, end) = bounds(region);
        access::store(&mut self.bytes[base..end], addr, width, value)
    }

    /// Answers the word whose first byte is byte `4 * index` of the memory.
    pub fn word(&self, index: u32) -> u32
        requires { 4 * index + 4 ≤ length self.now }
        ensures { result ≡ word_of self.now index }
    {
        LittleEndian::read_u32(&self.bytes[4 * index as usize..])
    }
}

#[cfg(test)]
mod tests;
