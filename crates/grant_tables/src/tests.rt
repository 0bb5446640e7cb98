//! Three tiles in a row under two grants, with the entries of their tables worked out by hand.

ghost use Rattle.std.specs.Prelude.{◌≡◌, ◌≢◌, ◌≤◌, [], ◌∷◌, length, Ok, IfOk, IfSome, IsSome, IsTrue};
ghost use Rattle.bundle_model.specs.Grants.{IsApart};
ghost use Rattle.bundle_model.specs.World.{IsSoundCatalog};

/// Two grants of two bundles on three tiles in a row.
mod fixture;

use self::fixture::{FIRST, LONG, PairRow, SECOND, SHORT, check_apart, grant, world};
use super::*;
use bundle_model::{Grant, World};
use soc_base::Label;
use std::alloc::Global;
use std::process::Abort;
use std::test::Fail;
use tdm_network::{SlotTables, Source, TableEntry};

// The tables of a tile at the beginning of a slot.
fn settled(
    alloc: Global,
    world: &World,
    tile: u8,
    grants: &[Grant],
    slots: u64,
) -> Result<SlotTables, Fail>
    requires sound { IsSoundCatalog world.now }
    requires apart { IsApart world.now grants.now }
    ensures { IfOk result (λ tables. length tables ≡ world.now.platform.table_slots) }
{
    tables_follow();
    let mut tables = SlotTables::new(alloc, world.platform.table_slots)?;
    for slot in 0..slots {
        settle_tables(&mut tables, world, tile, grants, slot);
    }
    Ok(tables)
}

// What a row of a table holds, slot by slot.
fn add_row(
    list: &mut Vec<(Label, TableEntry)>,
    tables: &SlotTables,
    table_slots: u8,
    table: u8,
    row: u8,
) -> Result<(), Fail>
    requires table { table ≤ 2 }
    requires row { row ≤ 6 }
    requires slots { table_slots ≡ length tables.now }
{
    for slot in 0..table_slots {
        if let Some(entry) = tables.place(table, row, slot) {
            list.push(entry)?;
        }
    }
    Ok(())
}

// What tables hold: the injections, then the outputs, then the deliveries.
fn listed(
    alloc: Global,
    tables: &SlotTables,
    table_slots: u8,
) -> Result<Vec<(Label, TableEntry)>, Fail>
    requires slots { table_slots ≡ length tables.now }
{
    let mut list = Vec::new(alloc);
    add_row(&mut list, tables, table_slots, 0, 0)?;
    for row in 0..7u8 {
        add_row(&mut list, tables, table_slots, 1, row)?;
    }
    add_row(&mut list, tables, table_slots, 2, 0)?;
    Ok(list)
}

// Checks the tables of a tile at the beginning of a slot under two grants.
fn check_tables<A: Abort>(
    rt: &A,
    alloc: Global,
    world: &World,
    tile: u8,
    first: Grant,
    second: Grant,
    slots: u64,
    entries: &[(Label, TableEntry)],
) -> Result<(), Fail>
    requires sound { IsSoundCatalog world.now }
    requires labels { first.label ≢ second.label }
    requires begins { IfSome first.end (λ end. first.start ≤ end) }
    requires follows { IfSome second.end (λ end. second.start ≤ end) }
{
    check_apart(rt, alloc, world, &first, &second)?;
    let grants = [first, second];
    let tables = settled(alloc, world, tile, &grants, slots)?;
    let list = listed(alloc, &tables, world.platform.table_slots)?;
    assert_eq!(rt; list.as_slice(), entries);
    Ok(())
}

fn inject(label: Label, slot: u8, port: u8) -> (Label, TableEntry) {
    (label, TableEntry::Inject { slot, port })
}

fn local(label: Label, out: u8, slot: u8) -> (Label, TableEntry) {
    let source = Source::Local;
    (label, TableEntry::Out { out, slot, source })
}

fn through(label: Label, out: u8, slot: u8, input: u8) -> (Label, TableEntry) {
    let source = Source::Input(input);
    (label, TableEntry::Out { out, slot, source })
}

fn deliver(label: Label, slot: u8, input: u8, port: u8) -> (Label, TableEntry) {
    (label, TableEntry::Deliver { slot, input, port })
}

// Checks the three tiles at the beginning of a slot under two grants.
fn check_tiles<A: Abort>(
    rt: &A,
    alloc: Global,
    world: &World,
    first: Grant,
    second: Grant,
    slots: u64,
    tiles: [&[(Label, TableEntry)]; 3],
) -> Result<(), Fail>
    requires sound { IsSoundCatalog world.now }
    requires labels { first.label ≢ second.label }
    requires begins { IfSome first.end (λ end. first.start ≤ end) }
    requires follows { IfSome second.end (λ end. second.start ≤ end) }
{
    let [zero, one, two] = tiles;
    check_tables(rt, alloc, world, 0, first, second, slots, zero)?;
    check_tables(rt, alloc, world, 1, first, second, slots, one)?;
    check_tables(rt, alloc, world, 2, first, second, slots, two)
}

// The entries of the long pair for a label. Of what is injected in slot 6, tile 1 sends the flit on in
// slot 0, in which tile 2 receives it.
fn long(
    label: Label,
) -> (
    [(Label, TableEntry); 5],
    [(Label, TableEntry); 3],
    [(Label, TableEntry); 4],
) {
    (
        [
            inject(label, 1, 0),
            inject(label, 6, 0),
            local(label, 0, 2),
            local(label, 0, 7),
            deliver(label, 7, 0, 0),
        ],
        [
            through(label, 0, 0, 0),
            through(label, 0, 3, 0),
            through(label, 1, 7, 1),
        ],
        [
            inject(label, 5, 0),
            local(label, 0, 6),
            deliver(label, 0, 0, 0),
            deliver(label, 3, 0, 0),
        ],
    )
}

#[test]
fn passes_places_on_a_slot_later(rt: HostRuntime) -> Result<(), Fail> {
    let alloc = rt.alloc();
    let world = world(alloc, 8, LONG, LONG)?;
    let first = grant(FIRST, 0, 0, Some(4));
    let second = grant(SECOND, 0, 5, None);
    let none: [(Label, TableEntry); 0] = [];
    let (zero, one, two) = long(FIRST);
    for slots in 1..5u64 {
        check_tiles(
            &rt,
            alloc,
            &world,
            first,
            second,
            slots,
            [&zero, &one, &two],
        )?;
    }
    for slots in [0, 5u64] {
        check_tiles(
            &rt,
            alloc,
            &world,
            first,
            second,
            slots,
            [&none, &none, &none],
        )?;
    }
    let (zero, one, two) = long(SECOND);
    for slots in [6, 20u64] {
        check_tiles(
            &rt,
            alloc,
            &world,
            first,
            second,
            slots,
            [&zero, &one, &two],
        )?;
    }
    Ok(())
}

#[test]
fn keeps_the_entries_of_others(rt: HostRuntime) -> Result<(), Fail> {
    let alloc = rt.alloc();
    let world = world(alloc, 8, LONG, SHORT)?;
    let first = grant(FIRST, 0, 0, Some(4));
    let second = grant(SECOND, 1, 2, None);
    let (zero, one, two) = long(FIRST);
    check_tiles(&rt, alloc, &world, first, second, 2, [&zero, &one, &two])?;
    let both = [
        inject(FIRST, 1, 0),
        inject(SECOND, 3, 1),
        inject(FIRST, 6, 0),
        local(FIRST, 0, 2),
        local(FIRST, 0, 7),
        local(SECOND, 1, 4),
        deliver(SECOND, 2, 0, 1),
        deliver(FIRST, 7, 0, 0),
    ];
    let between = [
        through(FIRST, 0, 0, 0),
        through(FIRST, 0, 3, 0),
        through(SECOND, 1, 2, 1),
        through(FIRST, 1, 7, 1),
    ];
    let far = [
        inject(SECOND, 0, 1),
        inject(FIRST, 5, 0),
        local(SECOND, 0, 1),
        local(FIRST, 0, 6),
        deliver(FIRST, 0, 0, 0),
        deliver(FIRST, 3, 0, 0),
        deliver(SECOND, 4, 1, 1),
    ];
    for slots in [3, 4u64] {
        check_tiles(
            &rt,
            alloc,
            &world,
            first,
            second,
            slots,
            [&both, &between, &far],
        )?;
    }
    let zero = [
        inject(SECOND, 3, 1),
        local(SECOND, 1, 4),
        deliver(SECOND, 2, 0, 1),
    ];
    let one = [through(SECOND, 1, 2, 1)];
    let two = [
        inject(SECOND, 0, 1),
        local(SECOND, 0, 1),
        deliver(SECOND, 4, 1, 1),
    ];
    check_tiles(&rt, alloc, &world, first, second, 5, [&zero, &one, &two])?;
    // One ends in the slot in which the other begins.
    let late = grant(SECOND, 1, 4, None);
    check_tiles(&rt, alloc, &world, first, late, 5, [&zero, &one, &two])
}

#[test]
fn has_one_row(rt: HostRuntime) -> Result<(), Fail> {
    let alloc = rt.alloc();
    let row = PairRow {
        there: (&[0, 1], &[0]),
        back: (&[2, 3], &[0]),
        ..LONG
    };
    let world = world(alloc, 1, row, row)?;
    let first = grant(FIRST, 0, 1, None);
    // One that ends in the slot in which it begins has no entries.
    let second = grant(SECOND, 0, 0, Some(0));
    let none: [(Label, TableEntry); 0] = [];
    let ends = [
        inject(FIRST, 0, 0),
        local(FIRST, 0, 0),
        deliver(FIRST, 0, 0, 0),
    ];
    let between = [through(FIRST, 0, 0, 0), through(FIRST, 1, 0, 1)];
    check_tiles(&rt, alloc, &world, second, first, 1, [&none, &none, &none])?;
    check_tiles(
        &rt,
        alloc,
        &world,
        second,
        first,
        2,
        [&ends, &between, &ends],
    )
}

#[test]
fn begins_and_ends(rt: HostRuntime) {
    let rows = [
        (0, Some(4), 0, true, false),
        (0, Some(4), 4, false, true),
        (0, Some(4), 3, false, false),
        (3, None, 3, true, false),
        (3, None, 4, false, false),
        (3, Some(3), 3, false, false),
    ];
    for (start, end, slot, begins, ends) in rows {
        let grant = grant(FIRST, 0, start, end);
        assert_eq!(rt; begins_in(&grant, slot), begins);
        assert_eq!(rt; ends_in(&grant, slot), ends);
        assert_eq!(rt; is_quiet(&[grant], slot), !begins && !ends);
    }
}

#[test]
fn tells_the_next_turn(rt: HostRuntime) {
    let grants = [
        grant(FIRST, 0, 3, Some(9)),
        grant(SECOND, 0, 5, None),
        grant(SECOND, 1, 7, Some(7)),
    ];
    let rows = [
        (0, 3),
        (3, 3),
        (4, 5),
        (5, 5),
        (6, 9),
        (9, 9),
        (10, u64::MAX),
    ];
    for (slot, turn) in rows {
        assert_eq!(rt; next_turn(&grants, slot), turn);
    }
}
