//! Tests of the rules of parts, and of a bundle of one part.

use crate::test_rows::{PART, PartRow, broken, judged, platform, raw_bundle};
use crate::{BRule, BundleFault, check};
use std::test::Fail;

#[test]
fn judges_numbers(rt: HostRuntime) -> Result<(), Fail> {
    let alloc = rt.alloc();
    let platform = platform(alloc, 1, 8, &[])?;
    // tile, base, len, entry, trace
    let cases = [
        ([0, 32, 64, 4, 16], None),
        ([1, 32, 64, 4, 16], Some(BRule::B5)),
        ([-1, 32, 64, 4, 16], Some(BRule::B5)),
        ([0, 8, 64, 4, 16], Some(BRule::B7)),
        ([0, -16, 64, 4, 16], Some(BRule::B7)),
        ([0, 32, 0, 4, 16], Some(BRule::B7)),
        ([0, 32, 24, 4, 16], Some(BRule::B7)),
        ([0, 192, 64, 4, 16], None),
        ([0, 208, 64, 4, 16], Some(BRule::B7)),
        ([0, 32, i64::MAX - 15, 4, 16], Some(BRule::B7)),
        ([0, 32, 64, 2, 16], Some(BRule::B9)),
        ([0, 32, 64, -4, 16], Some(BRule::B9)),
        ([0, 32, 64, 60, 16], None),
        ([0, 32, 64, 64, 16], Some(BRule::B9)),
        ([0, 32, 64, 4, -1], Some(BRule::B10)),
        ([0, 32, 64, 4, 4096], None),
        ([0, 32, 64, 4, 4097], Some(BRule::B10)),
        ([0, 8, 64, 2, 16], Some(BRule::B7)),
    ];
    for (numbers, rule) in cases {
        let [tile, base, len, entry, trace] = numbers;
        let part = PartRow {
            tile,
            base,
            len,
            entry,
            trace,
            ..PART
        };
        assert_eq!(rt;
            broken(alloc, &platform, &[part], &[])?,
            rule,
            "{numbers:?}"
        );
    }
    Ok(())
}

#[test]
fn judges_slots(rt: HostRuntime) -> Result<(), Fail> {
    let alloc = rt.alloc();
    let platform = platform(alloc, 1, 8, &[])?;
    let cases: [(&[i64], Option<BRule>); 7] = [
        (&[], Some(BRule::B6)),
        (&[0, 1, 2, 15], None),
        (&[1, 0], Some(BRule::B6)),
        (&[0, 0], Some(BRule::B6)),
        (&[-1], Some(BRule::B6)),
        (&[15], None),
        (&[16], Some(BRule::B6)),
    ];
    for (slots, rule) in cases {
        let part = PartRow { slots, ..PART };
        assert_eq!(rt; broken(alloc, &platform, &[part], &[])?, rule, "{slots:?}");
    }
    Ok(())
}

#[test]
fn judges_kinds_and_images(rt: HostRuntime) -> Result<(), Fail> {
    let alloc = rt.alloc();
    let platform = platform(alloc, 1, 8, &[])?;
    let cases: [(&[&str], Option<usize>, Option<BRule>); 8] = [
        (&[], Some(0), None),
        (&["step", "recv", "send", "word"], Some(16), None),
        (&["word", "word"], Some(0), Some(BRule::B10)),
        (&["words"], Some(0), Some(BRule::B10)),
        (&[""], Some(0), Some(BRule::B10)),
        (&[], Some(17), Some(BRule::B8)),
        (&[], None, Some(BRule::B8)),
        (&["words"], None, Some(BRule::B8)),
    ];
    for (kinds, words, rule) in cases {
        let part = PartRow {
            kinds,
            words,
            ..PART
        };
        assert_eq!(rt;
            broken(alloc, &platform, &[part], &[])?,
            rule,
            "{kinds:?} {words:?}"
        );
    }
    Ok(())
}

#[test]
fn judges_bundles(rt: HostRuntime) -> Result<(), Fail> {
    let alloc = rt.alloc();
    let platform = platform(alloc, 1, 8, &[])?;
    let parts = [PART, PART];
    let cases = [(0, Some(BRule::B5)), (1, None), (2, Some(BRule::B5))];
    for (count, rule) in cases {
        assert_eq!(rt;
            broken(alloc, &platform, &parts[..count], &[])?,
            rule,
            "{count} parts"
        );
    }
    let mut raw = raw_bundle(alloc, &[], &[])?;
    raw.version = 2;
    let later = check(alloc, &raw, &platform);
    assert!(rt; matches!(later, Err(BundleFault::Rule(BRule::B4))));
    Ok(())
}

#[test]
fn makes_a_bundle(rt: HostRuntime) -> Result<(), Fail> {
    let alloc = rt.alloc();
    let platform = platform(alloc, 1, 8, &[])?;
    let Ok(bundle) = judged(alloc, &platform, &[PART], &[])? else {
        return Err(Fail::from(BundleFault::NoMemory));
    };
    assert!(rt; bundle.pairs.is_empty());
    assert_eq!(rt; bundle.parts.len(), 1);
    for part in bundle.parts.as_slice() {
        assert!(rt; part.has_slot(3));
        assert!(rt; !part.has_slot(2));
        assert_eq!(rt; part.image.as_slice(), [0x13, 0x13].as_slice());
        assert_eq!(rt; part.slots, 0b1001);
        assert_eq!(rt; part.kinds, 0b1001);
        assert_eq!(rt; (part.entry, part.trace), (4, 16));
    }
    Ok(())
}
