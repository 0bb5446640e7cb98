//! Moves with states that were worked out by hand.

ghost use Rattle.std.specs.Prelude.{◌≡◌, ◌≤◌};

use super::*;
use Answer::{Done, NoRoom, NoWord, Sent, Word};
use Move::{Deliver, Inject, Put, Reset, Take};
use soc_base::Flit;
use std::process::Abort;
use std::test::Fail;

#[derive(Drop)]
enum Move {
    Put(u32),
    Take,
    Inject,
    Deliver(Option<u32>, u8),
    Reset(u8),
}

#[derive(Debug, PartialEq, Drop)]
enum Answer {
    Done,
    NoRoom,
    NoWord,
    Word(u32),
    Sent(Option<u32>, u8),
}

// Does a move. A flit has at most 63 credits, and a port of queue 2 is reset to a credit of at most 2.
fn moved(port: &mut Port, step: &Move) -> Answer
    requires { 2 ≤ port.old.queue }
    ensures { port.new.queue ≡ port.old.queue }
{
    match step {
        Put(word) => match port.put(*word) {
            Ok(()) => Done,
            Err(Full) => NoRoom,
        },
        Take => match port.take() {
            Ok(word) => Word(word),
            Err(Empty) => NoWord,
        },
        Inject => {
            let flit = port.inject();
            Sent(flit.word, flit.credits)
        }
        Deliver(word, credits) => {
            port.deliver(Flit {
                word: *word,
                credits: (*credits).min(63),
            });
            Done
        }
        Reset(credit) => {
            port.reset((*credit).min(2));
            Done
        }
    }
}

// Checks the oldest word of each queue, 0 for none; then room, fill, credit and owed.
fn check(rt: &impl Abort, port: &Port, oldest: [u32; 2], counts: [u8; 4]) {
    let send = port.send_word(0).unwrap_or(0);
    let recv = port.recv_word(0).unwrap_or(0);
    assert_eq!(rt; [send, recv], oldest);
    let held = [port.room(), port.fill(), port.credit(), port.owed()];
    assert_eq!(rt; held, counts);
}

#[test]
fn moves_leave_the_states_worked_out_by_hand(rt: HostRuntime) -> Result<(), Fail> {
    // the move and its answer; the oldest words; room, fill, credit and owed
    let rows = [
        (Put(7), Done, [7, 0], [1, 0, 0, 0]),
        // without credit the word waits
        (Inject, Sent(None, 0), [7, 0], [1, 0, 0, 0]),
        (Deliver(None, 1), Done, [7, 0], [1, 0, 1, 0]),
        (Put(8), Done, [7, 0], [0, 0, 1, 0]),
        (Put(9), NoRoom, [7, 0], [0, 0, 1, 0]),
        (Deliver(Some(40), 0), Done, [7, 40], [0, 1, 1, 0]),
        (Inject, Sent(Some(7), 0), [8, 40], [1, 1, 0, 0]),
        // credit stops at the size of a queue
        (Deliver(Some(41), 5), Done, [8, 40], [1, 2, 2, 0]),
        // a word beyond the queue is dropped, also where places are owed for
        (Deliver(Some(42), 0), Done, [8, 40], [1, 2, 2, 0]),
        (Take, Word(40), [8, 41], [1, 1, 2, 1]),
        (Deliver(Some(43), 0), Done, [8, 41], [1, 1, 2, 1]),
        (Take, Word(41), [8, 0], [1, 0, 2, 2]),
        (Take, NoWord, [8, 0], [1, 0, 2, 2]),
        (Inject, Sent(Some(8), 2), [0, 0], [2, 0, 1, 0]),
        // with nothing to send no credit is spent
        (Inject, Sent(None, 0), [0, 0], [2, 0, 1, 0]),
        (Deliver(Some(44), 63), Done, [0, 44], [2, 1, 2, 0]),
        (Reset(1), Done, [0, 0], [2, 0, 1, 0]),
    ];
    let mut port = Port::new(rt.alloc(), 2)?;
    check(&rt, &port, [0, 0], [2, 0, 0, 0]);
    for (step, answer, oldest, counts) in rows.iter() {
        assert_eq!(rt; moved(&mut port, step), *answer);
        check(&rt, &port, *oldest, *counts);
    }
    Ok(())
}

#[test]
fn a_queue_of_one_word_is_full_after_it(rt: HostRuntime) -> Result<(), Fail> {
    let mut port = Port::new(rt.alloc(), 1)?;
    assert_eq!(rt; port.put(5), Ok(()));
    assert_eq!(rt; port.put(6), Err(Full));
    for _ in 0..2 {
        port.deliver(Flit {
            word: Some(9),
            credits: 1,
        });
    }
    check(&rt, &port, [5, 9], [0, 1, 1, 0]);
    assert_eq!(rt; port.take(), Ok(9));
    assert_eq!(rt; port.take(), Err(Empty));
    check(&rt, &port, [5, 0], [0, 0, 1, 1]);
    Ok(())
}

#[test]
fn a_queue_of_63_words_holds_as_many(rt: HostRuntime) -> Result<(), Fail> {
    let mut port = Port::new(rt.alloc(), 63)?;
    for word in 0..63u32 {
        assert_eq!(rt; port.put(word), Ok(()));
        port.deliver(Flit {
            word: Some(word + 100),
            credits: 63,
        });
    }
    assert_eq!(rt; port.put(63), Err(Full));
    check(&rt, &port, [0, 100], [0, 63, 63, 0]);
    assert_eq!(rt; (port.send_word(62), port.send_word(63)), (Some(62), None));
    assert_eq!(rt; (port.recv_word(62), port.recv_word(63)), (Some(162), None));
    for word in 0..63u32 {
        assert_eq!(rt; port.take(), Ok(word + 100));
        assert_eq!(rt; port.inject().word, Some(word));
    }
    check(&rt, &port, [0, 0], [63, 0, 0, 0]);
    Ok(())
}
