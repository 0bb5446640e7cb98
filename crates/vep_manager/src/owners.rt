//! An index of owners: which of the grants hold a resource.
//!
//! A resource is looked up in one row, where only those grants stand that hold its place: of spans,
//! those of its tile, in order of first bytes. Row 0, that of the spans of tile 0, also serves resources
//! outside the platform that have no row of their own. All memory is taken when the index is made.

ghost use Rattle.std.specs.Prelude.{◌≡◌, ℕ, ◌<◌, ◌++◌, [], ◌∷◌, length, position, IfOk, IfSome, slice_index_or};
ghost use Rattle.bundle_model.specs.Grants.{conflicts};
ghost use Rattle.vep_manager.specs.Owners.{CanAdd, with_end};
ghost use Rattle.vep_manager.specs.Setup.{IsSound};
ghost use Rattle.vep_manager.specs.inner.Claims.{claimed_at};
ghost use Rattle.vep_manager.specs.inner.Owned.{Fits, HoldsMore};
ghost use Rattle.vep_manager.specs.inner.Held.{IsInOrder};

/// A row of what grants hold.
mod held;
/// Where a resource lies.
mod places;
/// How much room each row needs.
mod room;
/// The rows.
mod rows;

use crate::claims::{held_by, listed};
use crate::setup::Setup;
use bundle_model::{Grant, Resource};
use held::least_hit;
use places::row_number;
use room::rooms;
use rows::Rows;
use soc_base::{Items, NoMemory};
use std::alloc::Global;
use std::marker::Model;

/// An index of owners. Contracts see the setup that it was made for, and the grants that were added.
#[derive(Drop)]
pub struct OwnerIndex<'s> {
    setup: &'s Setup,
    lists: Vec<Items<Resource>>,
    tiles: u8,
    rows: Rows,
    grants: Vec<Grant>,
}

impl<'s> Model for OwnerIndex<'s> {
    ghost use Rattle.std.specs.Prelude.{vec_capacity};
    ghost use Rattle.vep_manager.specs.Owners.{Owners};
    ghost use Rattle.vep_manager.specs.inner.Owned.{IsIndex};

    ghost Value = { Owners };

    /// The setup that it was made for, and the grants that were added.
    ghost view = { λ i. record { setup = i.setup.now; grants = i.grants.items } };

    /// The rows stand for the grants, and have room for those of every load.
    ghost invariant = { λ i. IsIndex i.setup.now i.grants.items
        (record { lists = i.lists.items; tiles = i.tiles; shelf = i.rows; room = vec_capacity i.grants }) };
}

// Puts the resources of a list, which the grant at a place holds, into their rows.
fn hold(rows: &mut Rows, tiles: u8, list: &[Resource], place: u16)
    requires some { 0 < length rows.old.rows }
    requires order { (n : ℕ) → n < length rows.old.rows → IsInOrder (slice_index_or rows.old.rows n []) }
    requires fits { Fits tiles list.now rows.old }
    ensures { HoldsMore tiles list.now place rows.old rows.new }
{
    for resource in list {
        let row = row_number(tiles, rows.len(), resource);
        rows.put(row, *resource, place);
    }
}

impl<'s> OwnerIndex<'s> {
    /// Makes an index of no grants, with room for a grant of each load. Takes all the memory that the
    /// other calls need.
    pub fn new(alloc: Global, setup: &'s Setup) -> Result<OwnerIndex<'s>, NoMemory>
        requires { IsSound setup.now }
        ensures { IfOk result (λ index. index ≡ record { setup = setup.now; grants = [] }) }
    {
        let lists = listed(alloc, &setup.world)?;
        let rooms = rooms(alloc, setup, lists.as_slice())?;
        let rows = Rows::new(alloc, rooms.as_slice())?;
        let grants = Vec::with_capacity(alloc, setup.loads.len())?;
        Ok(OwnerIndex {
            setup,
            lists,
            tiles: setup.world.platform.tiles,
            rows,
            grants,
        })
    }

    /// Adds a grant, the last one, of a load of the setup that the index was made for. Takes no memory.
    pub fn add(&mut self, setup: &Setup, grant: &Grant)
        requires same { setup.now ≡ self.old.setup }
        requires can { CanAdd self.old grant.now }
        ensures { self.new ≡ record self.old { grants = self.old.grants ++ grant.now ∷ [] } }
    {
        let place = self.grants.len() as u16;
        let tiles = setup.world.platform.tiles;
        hold(
            &mut self.rows,
            tiles,
            held_by(self.lists.as_slice(), grant.bundle),
            place,
        );
        self.grants.push_reserved(*grant);
    }

    /// Gives the grant at a place, counted from 0 in the order of the history, this end. Takes no memory.
    pub fn set_end(&mut self, place: u16, end: u64)
        requires { place < length self.old.grants }
        ensures { self.new ≡ record self.old { grants = with_end self.old.grants place end } }
    {
        let grant = &mut self.grants[usize::from(place)];
        grant.end = Some(end);
    }

    /// Answers the place of the first grant, in the order of the history, that conflicts with a resource
    /// which is asked for from slot `start` on, if there is one. The resource may lie outside the platform.
    /// Takes no memory.
    pub fn first(&self, resource: &Resource, start: u64) -> Option<u16>
        ensures first { result ≡ position (conflicts self.now.setup.world start resource.now) self.now.grants }
        ensures within { IfSome result (λ place. place < length self.now.grants) }
    {
        let row = self
            .rows
            .row(row_number(self.tiles, self.rows.len(), resource));
        least_hit(row, self.grants.as_slice(), start, resource)
    }

    /// Answers the grants, in the order of the history.
    pub(crate) fn grants(&self) -> &[Grant]
        ensures { result.now ≡ self.now.grants }
    {
        self.grants.as_slice()
    }

    /// Answers what the bundle at a place of the catalog holds: nothing where it breaks a rule or there
    /// is none.
    pub(crate) fn of_bundle(&self, place: u16) -> &[Resource]
        ensures { result.now ≡ claimed_at self.now.setup.world place }
    {
        held_by(self.lists.as_slice(), place)
    }
}
