//! Rows of what grants hold, each with a fixed room, all in one pool.

ghost use Rattle.std.specs.Prelude.{◌≡◌, ◌≢◌, ℕ, ◌≤◌, ◌<◌, ◌^◌, ◌+◌, [], length, map, slice_index_or, slice_index, IfOk};
ghost use Rattle.vep_manager.specs.inner.Held.{IsInOrder};
ghost use Rattle.vep_manager.specs.inner.Rows.{AreHeads, HoldsOneMore, IsSameAround, row_in};

use super::held::{Held, settle};
use super::places::high;
use bundle_model::Resource;
use soc_base::NoMemory;
use std::alloc::Global;
use std::marker::Model;

/// Where a row lies in the pool.
#[derive(Clone, Copy, Debug)]
pub struct Head {
    /// Its first place.
    pub begin: usize,
    /// How many entries it has.
    pub len: u32,
    /// How many entries it has room for.
    pub room: u32,
}

/// Rows with fixed rooms, each in order of first bytes.
#[derive(Drop)]
pub struct Rows {
    heads: Vec<Head>,
    pool: Vec<Held>,
}

impl Model for Rows {
    ghost use Rattle.std.specs.Prelude.{map};
    ghost use Rattle.vep_manager.specs.inner.Shelf.{Shelf};

    ghost Value = { Shelf };

    ghost use Rattle.vep_manager.specs.inner.Rows.{IsLaidOut, row_in};

    /// The entries of each row, and how many it has room for.
    ghost view = { λ r. record { rows = map (row_in r.pool.items) r.heads.items; rooms = map (λ head. head.room) r.heads.items } };

    /// The rows lie apart in the pool, each with no more entries than it has room for.
    ghost invariant = { λ r. IsLaidOut r.heads.items r.pool.items };
}

// Adds an entry behind those of a row that has room, and brings it to its place.
fn add(pool: &mut [Held], head: Head, resource: Resource, grant: u16)
    requires room { head.begin + head.len < length pool.old }
    requires order { IsInOrder (row_in pool.old head) }
    ensures around { IsSameAround head pool.old pool.new }
    ensures order { IsInOrder (row_in pool.new (record head { len = head.len + 1 })) }
    ensures held { HoldsOneMore resource grant (row_in pool.old head) (row_in pool.new (record head { len = head.len + 1 })) }
{
    let end = head.begin + head.len as usize;
    let reach = high(&resource);
    pool[end] = Held {
        resource,
        grant,
        reach,
    };
    settle(&mut pool[head.begin..end + 1]);
}

// Where a row lies once it has an entry more.
fn longer(head: Head) -> Head
    requires { head.len < head.room }
    ensures { result ≡ record head { len = head.len + 1 } }
{
    Head {
        begin: head.begin,
        len: head.len + 1,
        room: head.room,
    }
}

// Where rows with these rooms lie, one behind the other, and how many places they take.
fn heads(alloc: Global, rooms: &[u32]) -> Result<(Vec<Head>, usize), NoMemory>
    requires { length rooms.now ≤ 2 ^ 20 }
    ensures { IfOk result (λ made. AreHeads rooms.now made.1 made.0.items) }
{
    let mut heads = Vec::with_capacity(alloc, rooms.len())?;
    let mut begin = 0;
    for room in rooms {
        let room = *room;
        heads.push_reserved(Head {
            begin,
            len: 0,
            room,
        });
        begin += room as usize;
    }
    Ok((heads, begin))
}

impl Rows {
    /// Makes empty rows with these rooms.
    pub fn new(alloc: Global, rooms: &[u32]) -> Result<Rows, NoMemory>
        requires { length rooms.now ≤ 2 ^ 20 }
        ensures { IfOk result (λ rows. rows ≡ record { rows = map (λ room. []) rooms.now; rooms = rooms.now }) }
    {
        let (heads, size) = heads(alloc, rooms)?;
        let spare = Held {
            resource: Resource::Port { tile: 0, port: 0 },
            grant: 0,
            reach: 0,
        };
        let pool = vec![in alloc; spare; size]?;
        Ok(Rows { heads, pool })
    }

    /// Answers how many rows there are.
    pub fn len(&self) -> usize
        ensures { result ≡ length self.now.rows }
    {
        self.heads.len()
    }

    /// Answers a row.
    pub fn row(&self, number: usize) -> &[Held]
        requires { number < length self.now.rows }
        ensures { result.now ≡ slice_index_or self.now.rows number [] }
    {
        let head = self.heads[number];
        &self.pool[head.begin..head.begin + head.len as usize]
    }

    /// Adds an entry to a row that has room. Takes no memory.
    pub fn put(&mut self, number: usize, resource: Resource, grant: u16)
        requires there { number < length self.old.rows }
        requires room { length (slice_index_or self.old.rows number []) < slice_index self.old.rooms number }
        requires order { IsInOrder (slice_index_or self.old.rows number []) }
        ensures rooms { self.new.rooms ≡ self.old.rooms }
        ensures count { length self.new.rows ≡ length self.old.rows }
        ensures others { (other : ℕ) → other ≢ number
            → slice_index_or self.new.rows other [] ≡ slice_index_or self.old.rows other [] }
        ensures order { IsInOrder (slice_index_or self.new.rows number []) }
        ensures held { HoldsOneMore resource grant (slice_index_or self.old.rows number []) (slice_index_or self.new.rows number []) }
    {
        let head = self.heads[number];
        add(self.pool.as_mut_slice(), head, resource, grant);
        self.heads[number] = longer(head);
    }
}
