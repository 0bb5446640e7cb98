//! The sum over the tiles of a platform, in 32 bits.

ghost use Rattle.std.specs.Prelude.{◌≡◌, ◌+◌, ◌*◌, ◌%◌, ◌^◌, ◌<◌, length, sum_by};
ghost use Rattle.comik.specs.Kernel.{frame_at};
ghost use Rattle.serial_run.specs.Run.{tiles_of};
ghost use Rattle.report_text.specs.State.{context_words, memory_words, platform_sum, tile_sum, total};
ghost use Rattle.report_text.specs.inner.Made.{AreMade, IsMade};
ghost use Rattle.report_text.specs.inner.Shares.{tile_share};

use crate::contexts::{file_words, frame_words};
use comik::Kernel;
use platform_model::Platform;
use tile_core::{Station, Tile};
use tile_memory::TileMemory;

// The sum of words.
fn words_sum(words: &[u32]) -> u32
    ensures { result ≡ total words.now % 2 ^ 32 }
{
    let mut sum = 0u32;
    for word in words {
        sum = sum.wrapping_add(*word);
    }
    sum
}

// The sum of the words of a tile's register file.
fn file_sum(tile: &Tile) -> u32
    ensures { result ≡ total (context_words tile.now.kernel.file) % 2 ^ 32 }
{
    let words = file_words(tile.kernel());
    words_sum(&words)
}

// The sum of the words of a context frame.
fn frame_sum(kernel: &Kernel, frame: u8) -> u32
    requires { frame < kernel.now.times.slots }
    ensures { result ≡ total (context_words (frame_at kernel.now frame)) % 2 ^ 32 }
{
    let words = frame_words(kernel, frame);
    words_sum(&words)
}

// The sum of the words of all context frames of a microkernel.
fn kernel_sum(kernel: &Kernel) -> u32
    ensures { result ≡ sum_by (λ frame. total (context_words frame)) kernel.now.frames % 2 ^ 32 }
{
    let _held = kernel.held();
    let mut sum = 0u32;
    for frame in 0..kernel.frame().slots {
        sum = sum.wrapping_add(frame_sum(kernel, frame));
    }
    sum
}

// The sum of the words of all context frames of a tile.
fn frames_sum(tile: &Tile) -> u32
    ensures { result ≡ sum_by (λ frame. total (context_words frame)) tile.now.kernel.frames % 2 ^ 32 }
{
    kernel_sum(tile.kernel())
}

// The sum of the words of a memory of so many bytes.
#[tactic(auto, using(crate::proofs::Numbers::total_more))]
fn words_of_memory(memory: &TileMemory, bytes: u32) -> u32
    requires { length memory.now ≡ bytes }
    ensures { result ≡ total (memory_words memory.now) % 2 ^ 32 }
{
    let mut sum = 0u32;
    for index in 0..bytes / 4 {
        sum = sum.wrapping_add(memory.word(index));
    }
    sum
}

// The sum of the words of a tile's memory, which has so many bytes.
fn memory_sum(tile: &Tile, bytes: u32) -> u32
    requires { length tile.now.memory ≡ bytes }
    ensures { result ≡ total (memory_words tile.now.memory) % 2 ^ 32 }
{
    words_of_memory(tile.memory(), bytes)
}

// The sum of how many flits the outputs carried.
fn carried_sum(tile: &Tile) -> u32
    requires { length tile.now.carried ≡ 7 }
    ensures { result ≡ total tile.now.carried % 2 ^ 32 }
{
    let mut sum = 0u32;
    for out in 0..7u8 {
        let flits = (tile.carried(out) % (1 << 32)) as u32;
        sum = sum.wrapping_add(flits);
    }
    sum
}

// The sum of four words.
fn sum_of_four(first: u32, second: u32, third: u32, fourth: u32) -> u32
    ensures { result ≡ (first + second + third + fourth) % 2 ^ 32 }
{
    first
        .wrapping_add(second)
        .wrapping_add(third)
        .wrapping_add(fourth)
}

// The sum of a tile.
fn tile_sum(platform: &Platform, tile: &Tile) -> u32
    requires { IsMade platform.now tile.now }
    ensures { result ≡ tile_sum tile.now % 2 ^ 32 }
{
    let file = file_sum(tile);
    let frames = frames_sum(tile);
    let memory = memory_sum(tile, platform.mem_bytes);
    let carried = carried_sum(tile);
    sum_of_four(file, frames, memory, carried)
}

// A sum, one time more than a number.
fn times_one_more(number: u8, sum: u32) -> u32
    ensures { result ≡ (number + 1) * sum % 2 ^ 32 }
{
    let times = u32::from(number) + 1;
    times.wrapping_mul(sum)
}

// What a tile counts in the sum over all.
fn tile_share(platform: &Platform, tile: &Tile) -> u32
    requires { IsMade platform.now tile.now }
    ensures { result ≡ tile_share tile.now % 2 ^ 32 }
{
    times_one_more(tile.number(), tile_sum(platform, tile))
}

/// Answers the sum over the tiles of a platform, in 32 bits. Takes no memory.
pub fn platform_sum(platform: &Platform, stations: &[Station]) -> u32
    requires { AreMade platform.now stations.now }
    ensures { result ≡ platform_sum (tiles_of stations.now) }
{
    let mut sum = 0u32;
    for station in stations {
        sum = sum.wrapping_add(tile_share(platform, &station.tile));
    }
    sum
}
