//! Tables and routes that were worked out by hand.

ghost use Rattle.std.specs.Prelude.{◌≡◌, ◌<◌, ◌≤◌, length, None, IsTrue, IfOk};
ghost use Rattle.tdm_network.specs.Spots.{IsInRange, IsNumbered, spots_of, spot_of};

use super::*;
use soc_base::{Flit, Label, NoMemory};
use std::alloc::Global;
use std::process::Abort;
use std::test::Fail;

const FIRST: Label = Label {
    session: 1,
    load: 1,
};

const SECOND: Label = Label {
    session: 2,
    load: 1,
};

fn word(word: u32) -> Flit {
    Flit {
        word: Some(word),
        credits: 0,
    }
}

// Seven flits with the words 100 to 106.
fn inputs() -> [Flit; 7] {
    [
        word(100),
        word(101),
        word(102),
        word(103),
        word(104),
        word(105),
        word(106),
    ]
}

// Whether the entry's place is free.
fn is_free(tables: &SlotTables, entry: TableEntry) -> bool
    requires { IsInRange (length tables.now) entry }
    ensures { IsTrue result → spots_of tables.now (spot_of entry) ≡ None }
{
    match entry {
        TableEntry::Inject { slot, port: _ } => tables.place(0, 0, slot).is_none(),
        TableEntry::Out {
            out,
            slot,
            source: _,
        } => tables.place(1, out, slot).is_none(),
        TableEntry::Deliver {
            slot,
            input: _,
            port: _,
        } => tables.place(2, 0, slot).is_none(),
    }
}

// Whether the entry's numbers are in range, its slot aside.
fn is_numbered(entry: TableEntry) -> bool
    ensures { IsTrue result → IsNumbered entry }
{
    match entry {
        TableEntry::Inject { slot: _, port } => port < 16,
        TableEntry::Out {
            out,
            slot: _,
            source,
        } => match source {
            Source::Local => out < 7,
            Source::Input(input) => out < 7 && input < 7,
        },
        TableEntry::Deliver {
            slot: _,
            input,
            port,
        } => input < 7 && port < 16,
    }
}

// Installs an entry at a place that has to be free.
fn add(rt: &impl Abort, tables: &mut SlotTables, table_slots: u8, label: Label, entry: TableEntry)
    requires { length tables.old ≡ table_slots }
    ensures { length tables.new ≡ table_slots }
{
    assert!(rt; entry.slot() < table_slots);
    assert!(rt; is_numbered(entry));
    assert!(rt; is_free(tables, entry));
    tables.install(label, entry);
}

// Tables with entries that are installed in turn.
fn filled(
    rt: &impl Abort,
    alloc: Global,
    table_slots: u8,
    entries: &[(Label, TableEntry)],
) -> Result<SlotTables, NoMemory>
    requires some { 0 < table_slots }
    requires most { table_slots ≤ 64 }
    ensures { IfOk result (λ tables. length tables ≡ table_slots) }
{
    let mut tables = SlotTables::new(alloc, table_slots)?;
    for (label, entry) in entries {
        add(rt, &mut tables, table_slots, *label, *entry);
    }
    Ok(tables)
}

fn inject(slot: u8, port: u8) -> TableEntry {
    TableEntry::Inject { slot, port }
}

fn local(out: u8, slot: u8) -> TableEntry {
    let source = Source::Local;
    TableEntry::Out { out, slot, source }
}

fn through(out: u8, slot: u8, input: u8) -> TableEntry {
    let source = Source::Input(input);
    TableEntry::Out { out, slot, source }
}

fn deliver(slot: u8, input: u8, port: u8) -> TableEntry {
    TableEntry::Deliver { slot, input, port }
}

// Checks the words of the outputs, 0 for none.
fn check(rt: &impl Abort, outputs: &Outputs, words: [u32; 7]) {
    for (link, word) in outputs.links.iter().zip(words.iter()) {
        assert_eq!(rt; link.word.unwrap_or(0), *word);
        assert_eq!(rt; link.credits, 0);
    }
}

// Checks what is delivered: the port and the word.
fn check_delivery(rt: &impl Abort, outputs: &Outputs, port: u8, word: u32) {
    match outputs.deliver {
        Some(delivery) => {
            assert_eq!(rt; delivery.port, port);
            assert_eq!(rt; delivery.flit.word, Some(word));
        }
        None => panic!(rt; "nothing is delivered"),
    }
}

#[test]
fn seven_inputs_go_to_seven_outputs(rt: HostRuntime) -> Result<(), Fail> {
    let entries = [
        (FIRST, through(0, 3, 6)),
        (FIRST, through(1, 3, 2)),
        (FIRST, through(2, 3, 1)),
        (FIRST, through(3, 3, 0)),
        (FIRST, through(4, 3, 5)),
        (FIRST, through(5, 3, 3)),
        (FIRST, through(6, 3, 4)),
        (SECOND, deliver(2, 4, 15)),
    ];
    let tables = filled(&rt, rt.alloc(), 8, &entries)?;
    // slot 10 stands in row 2, and its outputs in row 3
    let outputs = tables.route(10, &inputs(), word(9));
    check(&rt, &outputs, [106, 102, 101, 100, 105, 103, 104]);
    check_delivery(&rt, &outputs, 15, 104);
    for slot in [9, 11, u64::MAX] {
        let outputs = tables.route(slot, &inputs(), word(9));
        check(&rt, &outputs, [0; 7]);
        assert!(rt; outputs.deliver.is_none());
    }
    Ok(())
}

#[test]
fn a_path_of_two_links_by_tables_of_64_slots(rt: HostRuntime) -> Result<(), Fail> {
    // injected in slot 62, on the first link in slot 63, on the second in slot 0, delivered in it
    let entries = [
        (FIRST, inject(62, 3)),
        (FIRST, local(5, 63)),
        (FIRST, through(0, 0, 2)),
        (FIRST, deliver(0, 6, 7)),
    ];
    let tables = filled(&rt, rt.alloc(), 64, &entries)?;
    for start in [0, 64, 640u64] {
        assert_eq!(rt; tables.inject_port(start + 61), None);
        assert_eq!(rt; tables.inject_port(start + 62), Some(3));
        assert_eq!(rt; tables.inject_port(start + 63), None);
        let sent = tables.route(start + 62, &inputs(), word(9));
        check(&rt, &sent, [0, 0, 0, 0, 0, 9, 0]);
        assert!(rt; sent.deliver.is_none());
        let passed = tables.route(start + 63, &inputs(), word(9));
        check(&rt, &passed, [102, 0, 0, 0, 0, 0, 0]);
        assert!(rt; passed.deliver.is_none());
        let came = tables.route(start + 64, &inputs(), word(9));
        check(&rt, &came, [0; 7]);
        check_delivery(&rt, &came, 7, 106);
    }
    Ok(())
}

#[test]
fn tables_of_one_slot_serve_every_slot(rt: HostRuntime) -> Result<(), Fail> {
    let entries = [
        (FIRST, inject(0, 1)),
        (FIRST, local(6, 0)),
        (SECOND, deliver(0, 0, 2)),
    ];
    let tables = filled(&rt, rt.alloc(), 1, &entries)?;
    for slot in [0, 1, 7, 1_000_000u64] {
        assert_eq!(rt; tables.inject_port(slot), Some(1));
        let outputs = tables.route(slot, &inputs(), word(9));
        check(&rt, &outputs, [0, 0, 0, 0, 0, 0, 9]);
        check_delivery(&rt, &outputs, 2, 100);
    }
    Ok(())
}

#[test]
fn a_label_leaves_and_others_stay(rt: HostRuntime) -> Result<(), Fail> {
    let entries = [
        (FIRST, inject(1, 0)),
        (SECOND, inject(2, 0)),
        (FIRST, local(3, 2)),
        (SECOND, through(4, 2, 0)),
        (FIRST, deliver(3, 1, 5)),
    ];
    let mut tables = filled(&rt, rt.alloc(), 4, &entries)?;
    assert_eq!(rt; tables.place(0, 0, 1), Some((FIRST, inject(1, 0))));
    assert_eq!(rt; tables.place(1, 3, 2), Some((FIRST, local(3, 2))));
    assert_eq!(rt; tables.place(2, 0, 3), Some((FIRST, deliver(3, 1, 5))));
    tables.remove(FIRST);
    assert_eq!(rt; tables.place(0, 0, 1), None);
    assert_eq!(rt; tables.place(1, 3, 2), None);
    assert_eq!(rt; tables.place(2, 0, 3), None);
    assert_eq!(rt; tables.place(0, 0, 2), Some((SECOND, inject(2, 0))));
    assert_eq!(rt; tables.place(1, 4, 2), Some((SECOND, through(4, 2, 0))));
    // a free place can be taken again
    add(&rt, &mut tables, 4, SECOND, inject(1, 0));
    assert_eq!(rt; tables.place(0, 0, 1), Some((SECOND, inject(1, 0))));
    Ok(())
}

#[test]
fn knows_that_every_place_is_free(rt: HostRuntime) -> Result<(), Fail> {
    let mut tables = filled(&rt, rt.alloc(), 4, &[])?;
    assert!(rt; tables.is_free());
    add(&rt, &mut tables, 4, FIRST, inject(1, 0));
    assert!(rt; !tables.is_free());
    tables.remove(FIRST);
    assert!(rt; tables.is_free());
    // what stood on the outputs before is gone
    let mut links = inputs();
    let delivery = tables.route_into(2, &inputs(), word(9), &mut links);
    assert!(rt; delivery.is_none());
    for link in links {
        assert!(rt; link.word.is_none() && link.credits == 0);
    }
    Ok(())
}
