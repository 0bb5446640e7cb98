//! A port and its moves.

ghost use Rattle.std.specs.Prelude.{◌≡◌, ◌-◌, ◌<◌, ◌≤◌, ◌↔◌, [], length, slice_get};
ghost use Rattle.std.specs.Prelude.{is_ok, is_some, IsErr, IfOk, Some, option_map};
ghost use Rattle.std.specs.Result.{result_ok};
ghost use Rattle.soc_base.specs.Port.{empty_port, free_port, put, take_word, inject, receive};

use circular_buffer::HeapCircularBuffer;
use soc_base::{Flit, NoMemory};
use std::alloc::Global;
use std::marker::Model;

/// The send queue has no free place.
#[derive(Clone, Copy, Debug, PartialEq, Eq)]
pub struct Full;

/// The receive queue holds no word.
#[derive(Clone, Copy, Debug, PartialEq, Eq)]
pub struct Empty;

/// A port of a network interface: a send and a receive queue of `queue` words each, the credit that it
/// may still spend, and the credits that it owes.
#[derive(Drop)]
pub struct Port {
    queue: u8,
    send: HeapCircularBuffer<u32>,
    recv: HeapCircularBuffer<u32>,
    credit: u8,
    owed: u8,
}

impl Model for Port {
    ghost use Rattle.std.specs.Prelude.{◌≡◌};
    ghost use Rattle.ni_port.specs.SizedPort.{SizedPort};

    ghost Value = { SizedPort };

    ghost use Rattle.ni_port.specs.Fields.{shown, IsSized};

    ghost view = { shown };

    ghost invariant = { IsSized };
}

impl Port {
    ghost use Rattle.ni_port.specs.SizedPort.{in_state, after_put, after_take, after_inject, after_deliver, IsWithin};

    /// Makes a port with queues of `queue` words (1 to 63). It is empty and has no credit.
    pub fn new(alloc: Global, queue: u8) -> Result<Port, NoMemory>
        requires some { 0 < queue }
        requires most { queue ≤ 63 }
        ensures { IfOk result (λ made. made ≡ record { queue = queue; port = free_port }) }
    {
        let send = HeapCircularBuffer::with_capacity(alloc, usize::from(queue))?;
        let recv = HeapCircularBuffer::with_capacity(alloc, usize::from(queue))?;
        Ok(Port {
            queue,
            send,
            recv,
            credit: 0,
            owed: 0,
        })
    }

    /// Empties both queues, owes nothing and sets the credit, which is at most the number of words that a
    /// queue holds. Takes no memory.
    pub fn reset(&mut self, credit: u8)
        requires { credit ≤ self.old.queue }
        ensures { self.new ≡ in_state self.old (empty_port credit) }
    {
        self.send.clear();
        self.recv.clear();
        self.credit = credit;
        self.owed = 0;
    }

    /// Puts a word into the send queue. Refuses it where the queue has no free place, and then nothing is
    /// changed. Takes no memory.
    pub fn put(&mut self, word: u32) -> Result<(), Full>
        ensures done { is_ok result ≡ is_some (put self.old.queue word self.old.port) }
        ensures full { IsErr result ↔ (length self.old.port.send ≡ self.old.queue) }
        ensures port { self.new ≡ after_put word self.old }
    {
        match self.send.try_push_back(word) {
            Ok(()) => Ok(()),
            Err(_word) => Err(Full),
        }
    }

    /// Takes the oldest word from the receive queue, and owes the far port a credit for its place.
    /// Refuses where the queue holds no word, and then nothing is changed. Takes no memory.
    pub fn take(&mut self) -> Result<u32, Empty>
        ensures word { result_ok result ≡ option_map (λ taken. taken.0) (take_word self.old.port) }
        ensures empty { IsErr result ↔ (self.old.port.recv ≡ []) }
        ensures port { self.new ≡ after_take self.old }
    {
        let Some(word) = self.recv.pop_front() else {
            return Err(Empty);
        };
        self.owed += 1;
        Ok(word)
    }

    /// Answers the flit that the port injects into the network: the oldest word of the send queue, where
    /// there is one and credit to spend, and all credits that it owes. Takes no memory.
    pub fn inject(&mut self) -> Flit
        ensures flit { result ≡ (inject self.old.port).0 }
        ensures port { self.new ≡ after_inject self.old }
    {
        let word = if self.credit == 0 {
            None
        } else {
            self.send.pop_front()
        };
        if word.is_some() {
            self.credit -= 1;
        }
        let credits = self.owed;
        self.owed = 0;
        Flit { word, credits }
    }

    /// Receives a flit, whatever sent it. Its word joins the receive queue, or is dropped where the words
    /// there and those that credits are owed for take all places; its credits are added, up to the
    /// number of words that a queue holds. Takes no memory.
    pub fn deliver(&mut self, flit: Flit)
        ensures { self.new ≡ after_deliver flit self.old }
    {
        if let Some(word) = flit.word {
            self.receive(word);
        }
        self.credit = (self.credit + flit.credits).min(self.queue);
    }

    // Puts a word that arrived into the receive queue, or drops it.
    fn receive(&mut self, word: u32)
        ensures { self.new ≡ in_state self.old (receive self.old.queue (Some word) self.old.port) }
    {
        if self.recv.len() + usize::from(self.owed) < usize::from(self.queue) {
            let _ = self.recv.try_push_back(word);
        }
    }

    /// Answers how many words the send queue has places for.
    pub fn room(&self) -> u8
        ensures room { result ≡ self.now.queue - length self.now.port.send }
        ensures within { IsWithin self.now }
    {
        self.queue - self.send.len() as u8
    }

    /// Answers how many words the receive queue holds.
    pub fn fill(&self) -> u8
        ensures fill { result ≡ length self.now.port.recv }
        ensures within { IsWithin self.now }
    {
        self.recv.len() as u8
    }

    /// Answers how many words the port may still send.
    pub fn credit(&self) -> u8
        ensures credit { result ≡ self.now.port.credit }
        ensures within { IsWithin self.now }
    {
        self.credit
    }

    /// Answers how many words were taken that the far port wasn't told of.
    pub fn owed(&self) -> u8
        ensures owed { result ≡ self.now.port.owed }
        ensures within { IsWithin self.now }
    {
        self.owed
    }

    /// Answers the n-th word of the send queue, counted from the oldest as 0, if there is one.
    pub fn send_word(&self, n: u8) -> Option<u32>
        ensures { result ≡ slice_get self.now.port.send n }
    {
        self.send.get(usize::from(n)).copied()
    }

    /// Answers the n-th word of the receive queue, counted from the oldest as 0, if there is one.
    pub fn recv_word(&self, n: u8) -> Option<u32>
        ensures { result ≡ slice_get self.now.port.recv n }
    {
        self.recv.get(usize::from(n)).copied()
    }
}
