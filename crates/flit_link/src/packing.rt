//! Flits as words of 64 bits.

ghost use Rattle.std.specs.Prelude.{◌≡◌, ◌↔◌, IsErr, IfOk, Ok};
ghost use Rattle.flit_link.specs.Packing.{bits_of, flit_of, unpacked, IsBad, IsPacked};

use soc_base::Flit;

/// The bits are those of no flit.
#[derive(Clone, Copy, Debug, PartialEq, Eq)]
pub struct BadFlit;

/// Packs a flit: its word in bits 0 to 31, its credits in bits 32 to 37, and whether it has a word in bit 38.
pub fn pack(flit: Flit) -> u64
    ensures packed { result ≡ bits_of flit }
    ensures unpacks { unpacked result ≡ Ok flit }
{
    let credits = u64::from(flit.credits) << 32;
    match flit.word {
        Some(word) => u64::from(word) + credits + (1 << 38),
        None => credits,
    }
}

/// Unpacks a flit. Refuses bits that no flit is packed to.
pub fn unpack(bits: u64) -> Result<Flit, BadFlit>
    ensures unpacked { result ≡ unpacked bits }
    ensures refused { IsErr result ↔ IsBad bits }
    ensures packs { IfOk result (λ flit. bits_of flit ≡ bits) }
{
    let word = (bits % (1 << 32)) as u32;
    let credits = (bits / (1 << 32) % 64) as u8;
    match bits / (1 << 38) {
        0 if word == 0 => Ok(Flit {
            word: None,
            credits,
        }),
        1 => Ok(Flit {
            word: Some(word),
            credits,
        }),
        _ => Err(BadFlit),
    }
}

// Unpacks the bits of a flit.
pub(crate) fn unpack_known(bits: u64) -> Flit
    requires { IsPacked bits }
    ensures { result ≡ flit_of bits }
{
    unpack(bits).unwrap()
}
