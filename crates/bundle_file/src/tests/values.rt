//! The values that bundle files give.

use super::files::{ONE, P, PIPE, Q, THREE, THREE_WORDS, TWO, changed, platform, read};
use bundle_model::Pair;
use platform_model::Platform;
use std::alloc::Global;
use std::test::Fail;

/// An image's text: the words' bytes, the lowest first, as hexadecimal digits.
fn image_text(alloc: Global, words: &[u32]) -> Result<String, Fail> {
    let mut bytes = Vec::new(alloc);
    for word in words {
        bytes.extend_from_slice(&word.to_le_bytes())?;
    }
    Ok(hex::encode(alloc, bytes.as_slice())?)
}

/// The ends of a channel pair.
fn ends(pair: &Pair) -> (u8, u8, u8, u8) {
    (pair.a.tile, pair.a.port, pair.b.tile, pair.b.port)
}

#[test]
fn gives_a_part_as_written(rt: HostRuntime) -> Result<(), Fail> {
    let platform = platform(rt.alloc(), 1, 8, &[])?;
    let text = changed(rt.alloc(), &ONE, "", "", "")?;
    let bundle = read(rt.alloc(), text.as_bytes(), &platform)?;
    assert_eq!(rt; bundle.parts.len(), 1);
    assert_eq!(rt; bundle.pairs.len(), 0);
    let part = bundle.parts.get(0).ok_or("no part")?;
    assert_eq!(rt; (part.tile, part.slots, part.kinds), (0, 1, 1));
    assert_eq!(rt; (part.region.base, part.region.len), (0, 64));
    assert_eq!(rt; (part.entry, part.trace), (0, 16));
    assert_eq!(rt; part.ports.len(), 0);
    let words = [0x0070_0293, 0x8000_0337, 0x0053_2023, 0x0000_0073];
    assert_eq!(rt; part.image.as_slice(), words.as_slice());
    Ok(())
}

#[test]
fn gives_pairs_as_written(rt: HostRuntime) -> Result<(), Fail> {
    let two = platform(rt.alloc(), 2, 8, &TWO)?;
    let three = platform(rt.alloc(), 3, 8, &THREE)?;
    let pipe = changed(rt.alloc(), &PIPE, "", "", "")?;
    // a file, its platform, the first and last port of its parts, the ends, and path and slots there and back
    let cases: [(&str, &Platform, (u8, u8), (u8, u8, u8, u8), [&[u8]; 4]); 4] = [
        (&pipe, &two, (0, 0), (0, 0, 1, 0), [&[0], &[1], &[1], &[5]]),
        (
            THREE_WORDS,
            &two,
            (0, 0),
            (0, 0, 1, 0),
            [&[0], &[1], &[1], &[5]],
        ),
        (
            P,
            &three,
            (0, 0),
            (0, 0, 2, 0),
            [&[0, 1], &[1], &[2, 3], &[5]],
        ),
        (Q, &three, (0, 1), (1, 0, 2, 1), [&[1], &[2], &[2], &[0]]),
    ];
    for (text, platform, (first, last), want, [path, slots, back, later]) in cases {
        let bundle = read(rt.alloc(), text.as_bytes(), platform)?;
        assert_eq!(rt; (bundle.parts.len(), bundle.pairs.len()), (2, 1), "{text}");
        let one = bundle.parts.get(0).ok_or("no part")?;
        let other = bundle.parts.get(1).ok_or("no part")?;
        assert_eq!(rt;
            (one.ports.as_slice(), other.ports.as_slice()),
            ([first].as_slice(), [last].as_slice()),
            "{text}"
        );
        let pair = bundle.pairs.get(0).ok_or("no pair")?;
        assert_eq!(rt; ends(pair), want, "{text}");
        assert_eq!(rt;
            (pair.there.path.as_slice(), pair.there.slots.as_slice()),
            (path, slots),
            "{text}"
        );
        assert_eq!(rt;
            (pair.back.path.as_slice(), pair.back.slots.as_slice()),
            (back, later),
            "{text}"
        );
    }
    Ok(())
}

#[test]
fn reads_images_as_words(rt: HostRuntime) -> Result<(), Fail> {
    let platform = platform(rt.alloc(), 1, 8, &[])?;
    let first = [0x0070_0293, 0x8000_0337, 0x0053_2023, 0x0000_0073];
    let mut five = vec![in rt.alloc(); 0x8000_0337]?;
    for _ in 0..5 {
        five.push(0x0063_2023)?;
    }
    five.push(0x0000_0073)?;
    let mut long = vec![in rt.alloc(); 0x8000_0337, 0x0640_0293, 0x0070_0393]?;
    for _ in 0..37 {
        long.push(0x0000_0013)?;
    }
    long.extend_from_slice(&[0x0272_c433, 0x0083_2023, 0x0000_0073])?;
    let cases: [(u32, u32, u32, &[u32]); 5] = [
        (64, 64, 16, &first),
        (48, 64, 16, &first),
        (64, 64, 16, &[0x0000_0013, 0]),
        (64, 64, 2, &five),
        (64, 176, 16, &long),
    ];
    for (base, len, trace, words) in cases {
        let image = image_text(rt.alloc(), words)?;
        let text = format!(in rt.alloc();
            "version = 1\npart = [{{ tile = 0, slots = [1], base = {base}, len = {len}, entry = 0, trace = {trace}, image = \"{image}\" }}]\n"
        )?;
        let bundle = read(rt.alloc(), text.as_bytes(), &platform)?;
        let part = bundle.parts.get(0).ok_or("no part")?;
        assert_eq!(rt;
            (part.slots, part.region.base, part.region.len),
            (2, base, len)
        );
        assert_eq!(rt; (part.trace, part.kinds), (trace, 0));
        assert_eq!(rt; part.image.as_slice(), words);
    }
    Ok(())
}
