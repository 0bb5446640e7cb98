//! Entries of grants that end and begin.

ghost use Rattle.std.specs.Prelude.{◌≡◌, ◌+◌, filter};
ghost use Rattle.std.specs.List.{flat_map};
ghost use Rattle.bundle_model.specs.Grants.{IsApart};
ghost use Rattle.bundle_model.specs.World.{IsSoundCatalog};
ghost use Rattle.grant_tables.specs.Turns.{begins_in};
ghost use Rattle.grant_tables.specs.Entries.{grant_entries};
ghost use Rattle.grant_tables.specs.Tables.{with_entries, tables_ended, tables_begun, tables_after, AreTabled};
ghost use Rattle.grant_tables.specs.inner.Room.{HaveRoom};

use crate::channels::{Site, install_bundle};
use crate::turns::{begins_in, ends_in, is_quiet};
use bundle_model::{Grant, World};
use tdm_network::SlotTables;

/// Lets the entries of the grants that end in a slot leave the tables of a tile, and installs those of the
/// grants that begin in it. The tables hold the entries of the grants that stand at the slot, and then those
/// of the grants that stand at the next one. Takes no memory.
pub fn settle_tables(tables: &mut SlotTables, world: &World, tile: u8, grants: &[Grant], slot: u64)
    requires sound { IsSoundCatalog world.now }
    requires apart { IsApart world.now grants.now }
    requires tabled { AreTabled world.now grants.now slot tile tables.old }
    ensures rows { tables.new ≡ tables_after world.now tile grants.now slot tables.old }
    ensures tabled { AreTabled world.now grants.now (slot + 1) tile tables.new }
{
    if is_quiet(grants, slot) {
        return;
    }
    end_grants(tables, grants, slot);
    begin_grants(tables, world, tile, grants, slot);
}

// Lets the entries of the grants that end in a slot leave.
fn end_grants(tables: &mut SlotTables, grants: &[Grant], slot: u64)
    ensures { tables.new ≡ tables_ended grants.now slot tables.old }
{
    for grant in grants {
        if ends_in(grant, slot) {
            tables.remove(grant.label);
        }
    }
}

// Installs the entries of the grants that begin in a slot.
fn begin_grants(tables: &mut SlotTables, world: &World, tile: u8, grants: &[Grant], slot: u64)
    requires room { HaveRoom world.now.platform.table_slots
        (flat_map (grant_entries world.now tile) (filter (begins_in slot) grants.now)) tables.old }
    ensures { tables.new ≡ tables_begun world.now tile grants.now slot tables.old }
{
    for grant in grants {
        if begins_in(grant, slot) {
            begin_grant(tables, world, tile, grant);
        }
    }
}

// Installs the entries of a grant.
fn begin_grant(tables: &mut SlotTables, world: &World, tile: u8, grant: &Grant)
    requires room { HaveRoom world.now.platform.table_slots (grant_entries world.now tile grant.now) tables.old }
    ensures { tables.new ≡ with_entries grant.now.label (grant_entries world.now tile grant.now) tables.old }
{
    let site = Site {
        tile,
        label: grant.label,
    };
    if let Some(bundle) = world.bundle(grant.bundle) {
        install_bundle(tables, &world.platform, site, bundle);
    }
}
