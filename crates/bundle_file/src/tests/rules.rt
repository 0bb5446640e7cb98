//! The rules that bundle files break.

use super::files::{ONE, PIPE, TWO, changed, judged, many, platform, ring};
use bundle_model::BRule;
use std::test::Fail;

#[test]
fn answers_the_least_rule(rt: HostRuntime) -> Result<(), Fail> {
    let cases = [
        ("", "", "", None),
        ("kinds", "", "", None),
        ("image", "image = \"\"\n", "", None),
        ("image", "image = \"ABCDEFab\"\n", "", None),
        ("part", "pair = []\n[[part]]\n", "ports = []\n", None),
        ("image", "image = \"930270", "", Some(BRule::B1)),
        (
            "version",
            "version = \"1\"\n",
            "colour = 1\n",
            Some(BRule::B2),
        ),
        ("version", "version = 1\ncolour = 1\n", "", Some(BRule::B2)),
        (
            "version",
            "version = 1\npair = [5, { colour = 1 }]\n",
            "",
            Some(BRule::B2),
        ),
        (
            "version",
            "version = 1\npair = [{ there.colour = 1 }]\n",
            "",
            Some(BRule::B2),
        ),
        (
            "version",
            "version = 1\npair = [{ back = { colour = 1 } }]\n",
            "",
            Some(BRule::B2),
        ),
        ("version", "version = 1\npair = [5]\n", "", Some(BRule::B3)),
        ("part", "[pair]\n[[part]]\n", "", Some(BRule::B3)),
        ("version", "version = \"1\"\n", "", Some(BRule::B3)),
        ("version", "", "", Some(BRule::B3)),
        ("part", "[part]\n", "", Some(BRule::B3)),
        ("tile", "", "", Some(BRule::B3)),
        ("slots", "slots = [0, \"1\"]\n", "", Some(BRule::B3)),
        ("kinds", "kinds = [\"word\", 1]\n", "", Some(BRule::B3)),
        ("kinds", "ports = [0.5]\n", "", Some(BRule::B3)),
        ("version", "version = 3\n", "", Some(BRule::B4)),
        ("tile", "tile = 1\n", "", Some(BRule::B5)),
        ("slots", "slots = [1, 0]\n", "", Some(BRule::B6)),
        ("base", "base = 8\n", "", Some(BRule::B7)),
        ("image", "image = \"9302700\"\n", "", Some(BRule::B8)),
        ("image", "image = \"930270\"\n", "", Some(BRule::B8)),
        ("image", "image = \"9302700g\"\n", "", Some(BRule::B8)),
        ("entry", "entry = 2\n", "", Some(BRule::B9)),
        ("trace", "trace = 4097\n", "", Some(BRule::B10)),
        ("", "", "ports = [0]\n", Some(BRule::B11)),
        (
            "",
            "",
            "[[pair]]\na = [0, 0]\nb = [0, 1]\nthere.path = []\nthere.slots = []\nback = { path = [], slots = [0] }\n",
            Some(BRule::B11),
        ),
    ];
    let platform = platform(rt.alloc(), 1, 8, &[])?;
    for (key, line, tail, rule) in cases {
        let text = changed(rt.alloc(), &ONE, key, line, tail)?;
        assert_eq!(rt;
            judged(rt.alloc(), text.as_bytes(), &platform)?,
            rule,
            "{text}"
        );
    }
    Ok(())
}

#[test]
fn judges_pairs(rt: HostRuntime) -> Result<(), Fail> {
    let cases = [
        ("", "", "", None),
        ("pair", "[[pair]]\ncolour = 1\n", "", Some(BRule::B2)),
        ("a", "a = \"x\"\ncolour = 1\n", "", Some(BRule::B2)),
        ("a", "", "[[pair]]\nc = 1\n", Some(BRule::B2)),
        (
            "there",
            "there = { path = [0], slots = [1], colour = 1 }\n",
            "",
            Some(BRule::B2),
        ),
        (
            "back",
            "back = { path = [1], slots = [5], port = 0 }\n",
            "",
            Some(BRule::B2),
        ),
        ("a", "", "", Some(BRule::B3)),
        ("b", "", "", Some(BRule::B3)),
        ("there", "", "", Some(BRule::B3)),
        ("back", "", "", Some(BRule::B3)),
        ("", "", "[[pair]]\n", Some(BRule::B3)),
        ("a", "a = 0\n", "", Some(BRule::B3)),
        ("b", "b = [1, 0.0]\n", "", Some(BRule::B3)),
        ("b", "b = [1, [0]]\n", "", Some(BRule::B3)),
        ("there", "there = [0]\n", "", Some(BRule::B3)),
        ("there", "there = { slots = [1] }\n", "", Some(BRule::B3)),
        (
            "there",
            "there = { path = [\"0\"], slots = [1] }\n",
            "",
            Some(BRule::B3),
        ),
        (
            "there",
            "there = { path = 0, slots = [1] }\n",
            "",
            Some(BRule::B3),
        ),
        ("back", "back = { path = [1] }\n", "", Some(BRule::B3)),
        (
            "back",
            "back = { path = [1], slots = [true] }\n",
            "",
            Some(BRule::B3),
        ),
        ("ports", "ports = 0\n", "", Some(BRule::B3)),
        ("version", "version = 2\n", "", Some(BRule::B4)),
        ("a", "a = [0]\n", "", Some(BRule::B11)),
        ("a", "a = [0, 0, 0]\n", "", Some(BRule::B11)),
        ("b", "b = []\n", "", Some(BRule::B11)),
        ("a", "a = [-1, 0]\n", "", Some(BRule::B11)),
        ("a", "a = [0, 1]\n", "", Some(BRule::B11)),
        ("b", "b = [2, 0]\n", "", Some(BRule::B11)),
        ("b", "b = [0, 0]\n", "", Some(BRule::B11)),
        ("ports", "", "", Some(BRule::B11)),
        ("ports", "ports = [-1]\n", "", Some(BRule::B11)),
        ("ports", "ports = [2]\n", "", Some(BRule::B11)),
        ("ports", "ports = [0, 0]\n", "", Some(BRule::B11)),
        ("ports", "ports = [0, 1]\n", "", Some(BRule::B11)),
        (
            "",
            "",
            "[[pair]]\na = [0, 0]\nb = [1, 0]\nthere = { path = [0], slots = [2] }\nback = { path = [1], slots = [6] }\n",
            Some(BRule::B11),
        ),
        (
            "there",
            "there = { path = [1], slots = [1] }\n",
            "",
            Some(BRule::B12),
        ),
        (
            "there",
            "there = { path = [], slots = [1] }\n",
            "",
            Some(BRule::B12),
        ),
        (
            "there",
            "there = { path = [-1], slots = [1] }\n",
            "",
            Some(BRule::B12),
        ),
        (
            "there",
            "there = { path = [0, 1], slots = [1] }\n",
            "",
            Some(BRule::B12),
        ),
        (
            "there",
            "there = { path = [0], slots = [] }\n",
            "",
            Some(BRule::B12),
        ),
        (
            "there",
            "there = { path = [0], slots = [2, 1] }\n",
            "",
            Some(BRule::B12),
        ),
        (
            "back",
            "back = { path = [0], slots = [5] }\n",
            "",
            Some(BRule::B12),
        ),
        (
            "back",
            "back = { path = [2], slots = [5] }\n",
            "",
            Some(BRule::B12),
        ),
        (
            "back",
            "back = { path = [1], slots = [8] }\n",
            "",
            Some(BRule::B12),
        ),
        (
            "back",
            "back = { path = [1], slots = [-1] }\n",
            "",
            Some(BRule::B12),
        ),
        (
            "ports",
            "ports = [0, 1]\n",
            "[[pair]]\na = [0, 1]\nb = [1, 1]\nthere = { path = [0], slots = [1] }\nback = { path = [1], slots = [6] }\n",
            Some(BRule::B13),
        ),
        (
            "ports",
            "ports = [0, 1]\n",
            "[[pair]]\na = [1, 1]\nb = [0, 1]\nthere = { path = [1], slots = [6] }\nback = { path = [0], slots = [2] }\n",
            None,
        ),
    ];
    let two = platform(rt.alloc(), 2, 8, &TWO)?;
    for (key, line, tail, rule) in cases {
        let text = changed(rt.alloc(), &PIPE, key, line, tail)?;
        assert_eq!(rt; judged(rt.alloc(), text.as_bytes(), &two)?, rule, "{text}");
    }
    Ok(())
}

#[test]
fn counts_resources(rt: HostRuntime) -> Result<(), Fail> {
    // the slots of four channels over sixteen links each, and the rule that is broken: each claims 18 resources
    // a slot, and the parts 12 in all
    let platform = ring(rt.alloc())?;
    for (count, rule) in [
        (56, None),
        (57, Some(BRule::B14)),
        (64, Some(BRule::B14)),
        (65, Some(BRule::B12)),
    ] {
        let text = many(rt.alloc(), count)?;
        assert_eq!(rt;
            judged(rt.alloc(), text.as_bytes(), &platform)?,
            rule,
            "{count} slots"
        );
    }
    Ok(())
}
