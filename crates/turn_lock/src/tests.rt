//! Calls in many orders, and from two threads.

ghost use Rattle.std.specs.Prelude.{◌≡◌, ◌+◌, ◌≤◌, IfOk};
ghost use Rattle.turn_lock.specs.Seen.{whole_share, RestsAt};

use crate::{Kept, Pass, Turns};
use std::alloc::Global;
use std::process::Abort;
use std::sync::Wait;
use std::test::Fail;
use std::thread;
use std::thread::Threads;

// A journal of numbers.
#[derive(Drop)]
struct Journal {
    name: u8,
    entries: Vec<u32>,
}

impl Kept for Journal {
    type Base = u8;

    type Entry = u32;

    ghost base = { λ j. j.name };

    ghost entries = { λ j. j.entries.items };

    fn count(&self) -> u64 {
        self.entries.len() as u64
    }
}

// Makes a lock round an empty journal.
fn open(alloc: Global) -> Result<(Turns<Journal>, Pass<Journal>), Fail>
    ensures { IfOk result (λ r. RestsAt r.0 r.1 × (r.1.share ≡ whole_share)) }
{
    let journal = Journal {
        name: 7,
        entries: Vec::new(alloc),
    };
    match Turns::new(alloc, journal) {
        Ok(made) => Ok(made),
        Err(_) => Err(Fail::new("no memory")),
    }
}

// Writes a number in a turn of its own, and answers how many were written before it.
fn write<R: Wait>(rt: &R, turns: &Turns<Journal>, pass: &mut Pass<Journal>, number: u32) -> usize
    requires { RestsAt turns.now pass.old }
    ensures rests { RestsAt turns.now pass.new }
    ensures share { pass.new.share ≡ pass.old.share }
{
    let mut journal = turns.enter(rt, pass);
    let before = journal.entries.len();
    let _ = journal.entries.push(number);
    turns.leave(pass, journal);
    before
}

// Writes the numbers, each by the pass of that number.
fn write_in_order<R: Abort + Wait>(
    rt: &R,
    turns: &Turns<Journal>,
    first: &mut Pass<Journal>,
    second: &mut Pass<Journal>,
    third: &mut Pass<Journal>,
    order: &[u32],
)
    requires { RestsAt turns.now first.old × RestsAt turns.now second.old × RestsAt turns.now third.old }
    ensures rest { RestsAt turns.now first.new × RestsAt turns.now second.new × RestsAt turns.now third.new }
    ensures first { first.new.share ≡ first.old.share }
    ensures second { second.new.share ≡ second.old.share }
    ensures third { third.new.share ≡ third.old.share }
{
    for written in 0..order.len() {
        let before = match order[written] {
            1 => write(rt, turns, first, 1),
            2 => write(rt, turns, second, 2),
            _ => write(rt, turns, third, 3),
        };
        assert_eq!(rt; before, written);
    }
}

// Joins three passes in one of three ways.
fn join_all(
    turns: &Turns<Journal>,
    mut first: Pass<Journal>,
    mut second: Pass<Journal>,
    mut third: Pass<Journal>,
    way: usize,
) -> Pass<Journal>
    requires { RestsAt turns.now first × RestsAt turns.now second × RestsAt turns.now third }
    ensures rests { RestsAt turns.now result }
    ensures share { result.share ≡ first.share + second.share + third.share }
{
    if way == 0 {
        turns.join(&mut first, second);
        turns.join(&mut first, third);
        return first;
    }
    if way == 1 {
        turns.join(&mut second, third);
        turns.join(&mut first, second);
        return first;
    }
    turns.join(&mut third, first);
    turns.join(&mut third, second);
    third
}

// Writes the numbers by three passes, joins these, and checks the journal.
fn check_order<R: Abort + Wait>(
    rt: &R,
    alloc: Global,
    order: &[u32],
    way: usize,
) -> Result<(), Fail> {
    let (turns, mut first) = open(alloc)?;
    let mut second = turns.split(&mut first)?;
    let mut third = turns.split(&mut first)?;
    write_in_order(rt, &turns, &mut first, &mut second, &mut third, order);
    let pass = join_all(&turns, first, second, third, way);
    let journal = turns.close(pass);
    assert_eq!(rt; journal.entries.as_slice(), order);
    Ok(())
}

#[test]
fn keeps_one_history_in_every_order(rt: HostRuntime) -> Result<(), Fail> {
    let orders: [&[u32]; 12] = [
        &[1, 1, 2, 2],
        &[1, 2, 1, 2],
        &[1, 2, 2, 1],
        &[2, 1, 1, 2],
        &[2, 1, 2, 1],
        &[2, 2, 1, 1],
        &[1, 2, 3],
        &[1, 3, 2],
        &[2, 1, 3],
        &[2, 3, 1],
        &[3, 1, 2],
        &[3, 2, 1],
    ];
    for order in orders {
        for way in 0..3 {
            check_order(&rt, rt.alloc(), order, way)?;
        }
    }
    Ok(())
}

#[test]
fn shows_a_pass_what_another_added(rt: HostRuntime) -> Result<(), Fail> {
    let (turns, mut first) = open(rt.alloc())?;
    let mut second = turns.split(&mut first)?;
    assert_eq!(&rt; write(&rt, &turns, &mut first, 5), 0);
    let journal = turns.enter(&rt, &mut second);
    assert_eq!(&rt; journal.entries.as_slice(), [5].as_slice());
    let third = turns.split(&mut first)?;
    turns.join(&mut first, third);
    turns.leave(&mut second, journal);
    assert_eq!(&rt; write(&rt, &turns, &mut second, 6), 1);
    turns.join(&mut second, first);
    let journal = turns.close(second);
    assert_eq!(&rt; journal.entries.as_slice(), [5, 6].as_slice());
    Ok(())
}

// Writes a thousand numbers, each in a turn of its own.
fn write_thousand<R: Wait>(
    rt: &R,
    turns: &Turns<Journal>,
    mut pass: Pass<Journal>,
    from: u32,
) -> Pass<Journal>
    requires rests { RestsAt turns.now pass }
    requires few { from ≤ 1000 }
    ensures rests { RestsAt turns.now result }
    ensures share { result.share ≡ pass.share }
{
    for number in from..from + 1000 {
        write(rt, turns, &mut pass, number);
    }
    pass
}

// Writes the numbers below two thousand, in two threads.
fn write_in_two<R: Threads + Wait + Sync>(rt: &R, alloc: Global) -> Result<Journal, Fail> {
    let (turns, mut pass) = open(alloc)?;
    let other = turns.split(&mut pass)?;
    let shared = &turns;
    let (mut pass, other) = thread::join(
        rt,
        move || -> Pass<Journal>
            requires { RestsAt shared.now pass × (pass.share + 1 ≡ whole_share) }
            ensures { RestsAt shared.entry.now result × (result.share + 1 ≡ whole_share) }
        { write_thousand(rt, shared, pass, 0) },
        move || -> Pass<Journal>
            requires { RestsAt shared.now other × (other.share ≡ 1) }
            ensures { RestsAt shared.entry.now result × (result.share ≡ 1) }
        { write_thousand(rt, shared, other, 1000) },
    );
    turns.join(&mut pass, other);
    Ok(turns.close(pass))
}

#[test]
fn keeps_each_entry_of_two_threads_once(rt: HostRuntime) -> Result<(), Fail> {
    let Journal { name, mut entries } = write_in_two(&rt, rt.alloc())?;
    entries.sort()?;
    assert_eq!(&rt; name, 7);
    assert_eq!(&rt; entries.len(), 2000);
    let mut next = 0;
    for number in entries.as_slice() {
        assert_eq!(&rt; *number, next);
        next = number.wrapping_add(1);
    }
    Ok(())
}
