//! Packed flits that were worked out by hand, and flits through links.

ghost use Rattle.std.specs.Prelude.{◌≤◌};

use super::*;
use soc_base::Flit;
use std::test::Fail;

// What can move to another thread.
fn moves<T: Send>(_end: &T) {}

fn flit(word: u32, credits: u8) -> Flit
    requires { credits ≤ 63 }
{
    Flit {
        word: Some(word),
        credits,
    }
}

#[test]
fn packs_flits_as_worked_out_by_hand(rt: HostRuntime) {
    // word and credits; bits 0 to 31, 32 to 37 and 38
    let rows = [
        (None, 0, 0),
        (None, 1, 0x1_0000_0000),
        (None, 63, 0x3f_0000_0000),
        (Some(0), 0, 0x40_0000_0000),
        (Some(5), 2, 0x42_0000_0005),
        (Some(u32::MAX), 63, 0x7f_ffff_ffff),
    ];
    for (word, credits, bits) in rows {
        let credits: u8 = credits;
        let flit = Flit {
            word,
            credits: credits.min(63),
        };
        assert_eq!(rt; pack(flit), bits);
        match unpack(bits) {
            Ok(flit) => assert_eq!(rt; (flit.word, flit.credits), (word, credits)),
            Err(BadFlit) => panic!(rt; "{bits} is a flit"),
        }
    }
}

#[test]
fn refuses_bits_of_no_flit(rt: HostRuntime) {
    // a word that isn't there, also beside credits; bit 39; all bits
    for bits in [1, 0x3f_8000_0000, 0x80_0000_0000, u64::MAX] {
        assert!(rt; unpack(bits).is_err());
    }
}

#[test]
fn flits_come_in_order_through_a_full_ring(rt: HostRuntime) -> Result<(), Fail> {
    let (mut out, mut into) = link(rt.alloc())?;
    moves(&out);
    moves(&into);
    assert!(rt; into.poll());
    assert_eq!(rt; into.take().word, None);
    assert!(rt; !into.poll());
    for number in 0..64u32 {
        out.set(flit(number, 5));
        assert!(rt; out.offer());
    }
    out.set(flit(64, 63));
    assert!(rt; !out.offer());
    assert_eq!(rt; into.beside(&mut out), 64);
    for number in 0..65u32 {
        into.beside(&mut out);
        into.carry(&mut out);
        assert!(rt; into.poll());
        assert_eq!(rt; into.take().word, Some(number));
    }
    assert!(rt; out.offer());
    assert!(rt; !into.poll());
    Ok(())
}
