//! The words of an image, which a bundle file gives as hexadecimal text of its bytes in order of
//! address. Words are little-endian (RISC-V Unprivileged ISA, "Memory").

ghost use Rattle.std.specs.Prelude.{◌≡◌, ◌/◌, ◌%◌, length, IfOk};
ghost use Rattle.byteorder.specs.Endian.{little_number, IsRead};
ghost use Rattle.bundle_file.specs.Image.{whole_words, image_of};

use byteorder::{ByteOrder, LittleEndian};
use hex::FromHexError;
use soc_base::{Items, NoMemory};
use std::alloc::Global;

// The words that stand in whole words of bytes.
fn words_in(alloc: Global, bytes: &[u8]) -> Result<Vec<u32>, NoMemory>
    requires { length bytes.now % 4 ≡ 0 }
    ensures count { IfOk result (λ words. length words.items ≡ length bytes.now / 4) }
    ensures read { IfOk result (λ words. IsRead little_number 4 bytes.now words.items) }
{
    let mut words = Vec::from_elem(alloc, 0u32, bytes.len() / 4)?;
    LittleEndian::read_u32_into(bytes, words.as_mut_slice());
    Ok(words)
}

// The words that stand in bytes, if these are whole words.
#[tactic(auto, using(crate::proofs::Words::words_read, crate::proofs::Words::no_words))]
fn whole_words(alloc: Global, bytes: &[u8]) -> Result<Option<Items<u32>>, NoMemory>
    ensures { IfOk result (λ words. words ≡ whole_words bytes.now) }
{
    if bytes.len() % 4 != 0 {
        return Ok(None);
    }
    let words = words_in(alloc, bytes)?;
    Ok(Some(Items::from_vec(words)))
}

/// Answers the words of an image, or none where its text isn't hexadecimal text of whole words.
/// Digits are of either case.
#[tactic(auto, unfolding(crate::specs::Image::image_of))]
pub fn image_of(alloc: Global, text: &str) -> Result<Option<Items<u32>>, NoMemory>
    ensures { IfOk result (λ words. words ≡ image_of text.now) }
{
    match hex::decode(alloc, text) {
        Ok(bytes) => whole_words(alloc, &bytes),
        Err(FromHexError::OutOfMemory) => Err(NoMemory),
        Err(_) => Ok(None),
    }
}
