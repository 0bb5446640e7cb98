//! The programs of a bundle's two parts, and the text of an image.

ghost use Rattle.std.specs.Prelude.{◌≡◌, IfOk, string_bytes};
ghost use Rattle.workload.specs.Documents.{sending_words, receiving_words, image_text};

use soc_base::NoMemory;
use std::alloc::Global;

/// Answers the program that sends so many words, and ends with the number of its session.
pub fn sending_words(session: u8, count: u8) -> [u32; 7]
    ensures { result ≡ sending_words session count }
{
    [
        // lui x6, 0x80000
        0x8000_0337,
        // addi x5, x0, count
        (u32::from(count) << 20) + 0x293,
        // sw x5, 256(x6)
        0x1053_2023,
        // addi x5, x5, -1
        0xfff2_8293,
        // bne x5, x0, -8
        0xfe02_9ce3,
        // addi x10, x0, session
        (u32::from(session) << 20) + 0x513,
        // ecall
        0x73,
    ]
}

/// Answers the program that receives so many words, and traces each.
pub fn receiving_words(count: u8) -> [u32; 7]
    ensures { result ≡ receiving_words count }
{
    [
        // lui x6, 0x80000
        0x8000_0337,
        // addi x5, x0, count
        (u32::from(count) << 20) + 0x293,
        // lw x7, 260(x6)
        0x1043_2383,
        // sw x7, 0(x6)
        0x0073_2023,
        // addi x5, x5, -1
        0xfff2_8293,
        // bne x5, x0, -12
        0xfe02_9ae3,
        // ecall
        0x73,
    ]
}

/// Makes the text of an image: two digits a byte, each word's lowest byte first.
pub fn image_text(alloc: Global, words: &[u32]) -> Result<String, NoMemory>
    ensures { IfOk result (λ text. string_bytes text ≡ image_text words.now) }
{
    let mut bytes: Vec<u8> = Vec::new(alloc);
    for word in words {
        bytes.extend_from_slice(&word.to_le_bytes())?;
    }
    Ok(hex::encode(alloc, bytes.as_slice())?)
}
