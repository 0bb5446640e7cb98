//! Loads and stores in the bytes of one region.

ghost use Rattle.std.specs.Prelude.{◌≡◌, ◌+◌, ◌*◌, ◌%◌, ◌^◌, ◌<◌, ◌≤◌, ◌++◌, length, drop, IfOk, OnOk, OnErr};
ghost use Rattle.byteorder.specs.Endian.{little_number, little_bytes};
ghost use Rattle.soc_base.specs.Widths.{width_bytes};
ghost use Rattle.tile_memory.specs.Bytes.{refusal_of, filled_bytes, load_of, fetch_of, store_answer_of, stored_bytes};

use crate::memory::MemFault;
use byteorder::{ByteOrder, LittleEndian};
use soc_base::Width;

// The number of bytes that a width moves.
fn bytes_of(width: Width) -> usize
    ensures { result ≡ width_bytes width }
{
    match width {
        Width::Byte => 1,
        Width::Half => 2,
        Width::Word => 4,
    }
}

// Why an access to a region of `len` bytes is refused, if it is.
fn refusal(len: usize, addr: usize, width: Width) -> Option<MemFault>
    requires { addr < 2 ^ 32 }
    ensures { result ≡ refusal_of len addr width }
{
    let count = bytes_of(width);
    if addr % count != 0 {
        return Some(MemFault::Align);
    }
    if addr + count > len {
        return Some(MemFault::Outside);
    }
    None
}

// The number in the first bytes of a slice, the lowest byte first.
fn number_in(bytes: &[u8], width: Width) -> u32
    requires { width_bytes width ≤ length bytes.now }
    ensures value { result ≡ little_number (width_bytes width) bytes.now }
    ensures fits { result < 2 ^ (8 * width_bytes width) }
{
    match width {
        Width::Byte => u32::from(bytes[0]),
        Width::Half => u32::from(LittleEndian::read_u16(bytes)),
        Width::Word => LittleEndian::read_u32(bytes),
    }
}

// Puts the low bytes of a number at the front of a slice, the lowest byte first.
fn put_number(bytes: &mut [u8], width: Width, value: u32)
    requires { width_bytes width ≤ length bytes.old }
    ensures { bytes.new ≡ little_bytes (width_bytes width) value ++ drop (width_bytes width) bytes.old }
{
    match width {
        Width::Byte => bytes[0] = (value % 256) as u8,
        Width::Half => LittleEndian::write_u16(bytes, (value % 65536) as u16),
        Width::Word => LittleEndian::write_u32(bytes, value),
    }
}

/// Loads the number at an address of a region, unextended. Refuses with `Align` where the address isn't
/// a multiple of the width, and else with `Outside` where its bytes aren't all in the region.
pub fn load(bytes: &[u8], addr: u32, width: Width) -> Result<u32, MemFault>
    ensures value { result ≡ load_of bytes.now addr width }
    ensures fits { IfOk result (λ value. value < 2 ^ (8 * width_bytes width)) }
{
    let addr = addr as usize;
    if let Some(fault) = refusal(bytes.len(), addr, width) {
        return Err(fault);
    }
    Ok(number_in(&bytes[addr..], width))
}

/// Reads the word at an address of a region, whatever the address is a multiple of. None exactly where
/// its four bytes aren't all in the region.
pub fn fetch(bytes: &[u8], addr: u32) -> Option<u32>
    ensures { result ≡ fetch_of bytes.now addr }
{
    let addr = addr as usize;
    if addr + 4 > bytes.len() {
        return None;
    }
    Some(LittleEndian::read_u32(&bytes[addr..]))
}

/// Stores the low bytes of a value at an address of a region. Refuses as `load` does, and then changes
/// nothing.
pub fn store(bytes: &mut [u8], addr: u32, width: Width, value: u32) -> Result<(), MemFault>
    ensures answer { result ≡ store_answer_of bytes.old addr width }
    ensures stored { OnOk result (bytes.new ≡ stored_bytes bytes.old addr width value) }
    ensures refused { OnErr result (bytes.new ≡ bytes.old) }
{
    let addr = addr as usize;
    if let Some(fault) = refusal(bytes.len(), addr, width) {
        return Err(fault);
    }
    put_number(&mut bytes[addr..], width, value);
    Ok(())
}

/// Fills a region with an image of words, and then with zeros.
pub fn fill(bytes: &mut [u8], image: &[u32])
    requires { 4 * length image.now ≤ length bytes.old }
    ensures { bytes.new ≡ filled_bytes (length bytes.old) image.now }
{
    let (front, rest) = bytes.split_at_mut(4 * image.len());
    LittleEndian::write_u32_into(image, front);
    rest.fill(0);
}
