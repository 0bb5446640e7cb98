//! Runs on the plain platform, whose slots have 8 cycles: who commits, what, and the reply.

use super::runs::{Ask, Step, check_run, granted, slot, span, stopped, taken};
use crate::Reply;
use bundle_model::BRule;
use std::test::Fail;

#[test]
fn grants_loads_that_meet_no_grant(rt: HostRuntime) -> Result<(), Fail> {
    let alloc = rt.alloc();
    let apart = [
        (1, Ask::Load("a", 0), granted(1, 1, 0)),
        (1, Ask::Load("over", 0), taken(span(48, 64), 1, None)),
        (1, Ask::Load("b", 0), granted(1, 3, 0)),
        (1, Ask::Load("a", 0), taken(slot(0), 1, None)),
    ];
    check_run(&rt, alloc, (1, 64), &apart, 2)?;
    let first_resource = [
        (1, Ask::Load("b", 0), granted(1, 1, 0)),
        (1, Ask::Load("a", 0), granted(1, 2, 0)),
        (1, Ask::Load("both", 0), taken(slot(0), 2, None)),
    ];
    check_run(&rt, alloc, (1, 64), &first_resource, 2)?;
    let first_owner = [
        (1, Ask::Load("a", 0), granted(1, 1, 0)),
        (1, Ask::Stop(1, 8), stopped(1, 1, 1)),
        (1, Ask::Load("a", 16), granted(1, 2, 2)),
        (1, Ask::Load("a", 0), taken(slot(0), 1, Some(2))),
    ];
    check_run(&rt, alloc, (1, 64), &first_owner, 2)?;
    let broken = [
        (1, Ask::Load("none", 0), Reply::Malformed(BRule::B6)),
        (1, Ask::Load("a", 1), granted(1, 2, 1)),
        (1, Ask::Load("none", 0), Reply::Malformed(BRule::B6)),
    ];
    check_run(&rt, alloc, (1, 64), &broken, 1)
}

#[test]
fn stops_a_grant_once(rt: HostRuntime) -> Result<(), Fail> {
    let alloc = rt.alloc();
    let before_the_start = [
        (1, Ask::Load("a", 256), granted(1, 1, 32)),
        (1, Ask::Stop(1, 128), stopped(1, 1, 32)),
        (1, Ask::Stop(1, 300), Reply::Already(32)),
        (1, Ask::Stop(2, 300), Reply::NoLoad),
    ];
    check_run(&rt, alloc, (1, 64), &before_the_start, 1)?;
    let in_the_slot_of_the_start = [
        (1, Ask::Load("a", 256), granted(1, 1, 32)),
        (1, Ask::Stop(1, 256), stopped(1, 1, 32)),
        (1, Ask::Load("a", 256), taken(slot(0), 1, Some(33))),
        (1, Ask::Load("a", 257), granted(1, 3, 33)),
    ];
    check_run(&rt, alloc, (1, 64), &in_the_slot_of_the_start, 2)?;
    let granted_again = [
        (1, Ask::Load("a", 0), granted(1, 1, 0)),
        (1, Ask::Stop(1, 80), stopped(1, 1, 10)),
        (1, Ask::Load("a", 80), taken(slot(0), 1, Some(11))),
        (1, Ask::Load("a", 88), granted(1, 3, 11)),
    ];
    check_run(&rt, alloc, (1, 64), &granted_again, 2)?;
    let around_the_horizon = [
        (1, Ask::Load("a", 0), granted(1, 1, 0)),
        (1, Ask::Until(1024), Reply::Horizon(128)),
        (1, Ask::Stop(1, 1016), Reply::Past(128)),
        (1, Ask::Stop(1, 1024), stopped(1, 1, 128)),
        (1, Ask::Stop(1, 0), Reply::Already(128)),
        (1, Ask::Stop(2, 0), Reply::NoLoad),
    ];
    check_run(&rt, alloc, (1, 256), &around_the_horizon, 1)
}

#[test]
fn keeps_promises(rt: HostRuntime) -> Result<(), Fail> {
    let alloc = rt.alloc();
    let one = [
        (1, Ask::Until(1024), Reply::Horizon(128)),
        (1, Ask::Load("a", 1016), Reply::Past(128)),
        (1, Ask::Load("a", 1024), granted(1, 2, 128)),
    ];
    check_run(&rt, alloc, (1, 256), &one, 1)?;
    let lower = [
        (1, Ask::Until(1024), Reply::Horizon(128)),
        (1, Ask::Until(512), Reply::Horizon(128)),
        (1, Ask::Load("a", 1016), Reply::Past(128)),
    ];
    check_run(&rt, alloc, (1, 256), &lower, 0)?;
    let alone = [(1, Ask::Until(0), Reply::Horizon(64))];
    check_run(&rt, alloc, (1, 64), &alone, 0)?;
    let used_up_first = [
        (1, Ask::Until(0), Reply::Horizon(0)),
        (2, Ask::Until(80), Reply::Horizon(10)),
        (2, Ask::Load("a", 72), Reply::Past(10)),
    ];
    check_run(&rt, alloc, (2, 64), &used_up_first, 0)?;
    let used_up_beside_another = [
        (2, Ask::Until(40), Reply::Horizon(0)),
        (1, Ask::Until(16), Reply::Horizon(5)),
        (2, Ask::Load("a", 32), Reply::Past(5)),
        (2, Ask::Load("a", 40), granted(2, 2, 5)),
    ];
    check_run(&rt, alloc, (2, 64), &used_up_beside_another, 1)
}

// What sixteen sessions commit in turn, 16 commands each: 15 promises, each a slot above the one before,
// and then a load of the same place. The least promise is that of the session which comes next.
fn full_step(turn: u16) -> Step {
    let session = (turn % 16 + 1) as u8;
    if turn < 240 {
        let least = u64::from(turn.saturating_sub(14));
        return (session, Ask::Until(8 * (turn + 1)), Reply::Horizon(least));
    }
    let reply = if session == 1 {
        granted(1, 1, 240)
    } else {
        taken(slot(0), 1, None)
    };
    (session, Ask::Load("both", 1920), reply)
}

#[test]
fn answers_sixteen_sessions_with_256_commands(rt: HostRuntime) -> Result<(), Fail> {
    let alloc = rt.alloc();
    let mut steps = Vec::new(alloc);
    for turn in 0..256 {
        steps.push(full_step(turn))?;
    }
    check_run(&rt, alloc, (16, 250), steps.as_slice(), 1)
}
