//! An index of sixteen grants of touching spans, and of one that overlaps two of them.

ghost use Rattle.std.specs.Prelude.{◌≡◌, ◌≢◌, All, Contains, IsTrue, IfOk};
ghost use Rattle.vep_manager.specs.inner.Small.{IsSmallScript};

use super::fixture::{File, setup, world_of};
use super::runs::{load_script, span};
use crate::granting::named_grant;
use crate::{OwnerIndex, Setup};
use bundle_model::{Grant, LoadName, Resource};
use script_file::Script;
use soc_base::{Items, Label};
use std::alloc::Global;
use std::process::Abort;
use std::test::Fail;

// The bundle files: each has partition slot 0 and 64 bytes. Sixteen touch, and the last overlaps `b`
// and `c`.
const FILES: [File; 17] = [
    ("a", 0, 1, 0, 64),
    ("b", 0, 1, 64, 64),
    ("c", 0, 1, 128, 64),
    ("d", 0, 1, 192, 64),
    ("e", 0, 1, 256, 64),
    ("f", 0, 1, 320, 64),
    ("g", 0, 1, 384, 64),
    ("h", 0, 1, 448, 64),
    ("i", 0, 1, 512, 64),
    ("j", 0, 1, 576, 64),
    ("k", 0, 1, 640, 64),
    ("l", 0, 1, 704, 64),
    ("m", 0, 1, 768, 64),
    ("n", 0, 1, 832, 64),
    ("o", 0, 1, 896, 64),
    ("p", 0, 1, 960, 64),
    ("over", 0, 1, 96, 64),
];

// The loads of session 1, in the order in which they are granted. Session 2 loads `over`.
const LOADS: [&str; 16] = [
    "p", "o", "n", "m", "l", "k", "j", "i", "a", "b", "c", "d", "e", "f", "g", "h",
];

// Of each of the touching spans the first byte, the grant's place, and who holds the first and the last
// byte from the slot after the grant's end on. The grant at place k ends in slot 10 + k.
const SPANS: [(u32, u16, Option<u16>, Option<u16>); 16] = [
    (0, 8, None, None),
    (64, 9, None, Some(16)),
    (128, 10, Some(16), None),
    (192, 11, None, None),
    (256, 12, None, None),
    (320, 13, None, None),
    (384, 14, None, None),
    (448, 15, None, None),
    (512, 7, None, None),
    (576, 6, None, None),
    (640, 5, None, None),
    (704, 4, None, None),
    (768, 3, None, None),
    (832, 2, None, None),
    (896, 1, None, None),
    (960, 0, None, None),
];

// Of spans of tile 0: the first byte, the length, a slot from which on they are asked for, and the place of
// the first grant that holds one of their bytes then. The first ones touch several grants, the next ones lie
// at the ends of `over`, and the last ones are empty or lie behind all grants.
const SPANS_ASKED: [(u32, u32, u64, Option<u16>); 17] = [
    (60, 8, 18, Some(8)),
    (60, 8, 19, Some(9)),
    (60, 8, 20, None),
    (508, 8, 17, Some(7)),
    (508, 8, 18, Some(15)),
    (508, 8, 26, None),
    (0, 1024, 0, Some(0)),
    (0, 1024, 25, Some(15)),
    (0, 1024, 26, Some(16)),
    (95, 1, 20, None),
    (96, 1, 20, Some(16)),
    (159, 1, 20, Some(10)),
    (159, 1, 21, Some(16)),
    (160, 1, 21, None),
    (100, 0, 0, None),
    (1024, 64, 0, None),
    (u32::MAX, u32::MAX, 0, None),
];

// The same of other resources. The last ones lie outside the platform.
const OTHERS_ASKED: [(Resource, u64, Option<u16>); 11] = [
    (Resource::Partition { tile: 0, slot: 0 }, 0, Some(0)),
    (Resource::Partition { tile: 0, slot: 0 }, 11, Some(1)),
    (Resource::Partition { tile: 0, slot: 0 }, 26, Some(16)),
    (Resource::Partition { tile: 0, slot: 1 }, 0, None),
    (Resource::Port { tile: 0, port: 0 }, 0, None),
    (Resource::Inject { tile: 0, slot: 0 }, 0, None),
    (Resource::Deliver { tile: 0, slot: 0 }, 0, None),
    (
        Resource::Span {
            tile: 1,
            base: 0,
            len: 64,
        },
        0,
        None,
    ),
    (Resource::LinkSlot { link: 0, slot: 0 }, 0, None),
    (
        Resource::LinkSlot {
            link: 255,
            slot: 255,
        },
        0,
        None,
    ),
    (
        Resource::Partition {
            tile: 255,
            slot: 255,
        },
        0,
        None,
    ),
];

// Whether no grant has a label.
fn is_new(grants: &[Grant], label: Label) -> bool
    ensures { IsTrue result → All (λ grant. grant.label ≢ label) grants.now }
{
    match named_grant(grants, label) {
        Some(_) => false,
        None => true,
    }
}

// Adds the grant of a load, still open.
fn add(index: &mut OwnerIndex<'_>, setup: &Setup, load: &LoadName) -> Result<(), Fail>
    requires same { setup.now ≡ index.old.setup }
    requires of { Contains setup.now.loads load.now }
    ensures { index.new.setup ≡ index.old.setup }
{
    if setup.world.bundle(load.bundle).is_none() {
        return Err(Fail::new("a bundle breaks a rule"));
    }
    if !is_new(index.grants(), load.label) {
        return Err(Fail::new("a load is granted twice"));
    }
    let grant = Grant {
        label: load.label,
        bundle: load.bundle,
        start: 0,
        end: None,
    };
    index.add(setup, &grant);
    Ok(())
}

// Gives the last grant its end, where it is one of the first sixteen.
fn end_last(index: &mut OwnerIndex<'_>)
    ensures { index.new.setup ≡ index.old.setup }
{
    let count = index.grants().len();
    if 0 < count && count <= 16 {
        let place = (count - 1) as u16;
        index.set_end(place, 10 + u64::from(place));
    }
}

// Grants every load of a setup, in order.
fn grant_all(index: &mut OwnerIndex<'_>, setup: &Setup) -> Result<(), Fail>
    requires { setup.now ≡ index.old.setup }
{
    for load in setup.loads.as_slice() {
        add(index, setup, load)?;
        end_last(index);
    }
    Ok(())
}

// The scripts of the two sessions.
fn scripts(alloc: Global) -> Result<Vec<Script>, Fail>
    ensures { IfOk result (λ scripts. All IsSmallScript scripts.items) }
{
    let mut scripts = Vec::new(alloc);
    scripts.push(load_script(alloc, &LOADS)?)?;
    scripts.push(load_script(alloc, &["over"])?)?;
    Ok(scripts)
}

// Checks the boundary bytes of a span, before, at and after the grant's end.
fn check_span<A: Abort>(
    rt: &A,
    index: &OwnerIndex<'_>,
    (base, place, first, last): (u32, u16, Option<u16>, Option<u16>),
) {
    let end = 10 + u64::from(place);
    let low = span(base, 1);
    let high = span(base.saturating_add(63), 1);
    for start in [0, end] {
        assert_eq!(rt; index.first(&low, start), Some(place));
        assert_eq!(rt; index.first(&high, start), Some(place));
    }
    assert_eq!(rt; index.first(&low, end + 1), first);
    assert_eq!(rt; index.first(&high, end + 1), last);
}

// Checks who is first to hold what the tables ask for.
fn check_asked<A: Abort>(rt: &A, index: &OwnerIndex<'_>) {
    for (base, len, start, wanted) in SPANS_ASKED {
        assert_eq!(rt; index.first(&span(base, len), start), wanted);
    }
    for (resource, start, wanted) in OTHERS_ASKED {
        assert_eq!(rt; index.first(&resource, start), wanted);
    }
}

#[test]
fn finds_the_first_owner(rt: HostRuntime) -> Result<(), Fail> {
    let alloc = rt.alloc();
    let scripts = Items::from_vec(scripts(alloc)?);
    let setup = setup(alloc, world_of(alloc, &FILES)?, 100, scripts)?;
    let mut index = OwnerIndex::new(alloc, &setup)?;
    assert_eq!(rt; index.first(&span(0, 1024), 0), None);
    grant_all(&mut index, &setup)?;
    assert_eq!(rt; index.grants().len(), 17);
    for row in SPANS {
        check_span(&rt, &index, row);
    }
    check_asked(&rt, &index);
    Ok(())
}
