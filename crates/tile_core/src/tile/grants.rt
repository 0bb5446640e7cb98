//! Grants that end and begin in a slot.

ghost use Rattle.std.specs.Prelude.{◌≡◌, ◌≤◌, All, if◌then◌else◌};
ghost use Rattle.soc_base.specs.Port.{empty_port};
ghost use Rattle.tile_mmio.specs.Ports.{AreNumbers};
ghost use Rattle.tile_core.specs.Slot.{ends_in, begins_in, with_each};

use super::Tile;
use bundle_model::{Grant, Part, Schedule, World};
use grant_tables::{begins_in, ends_in, is_quiet, settle_tables};
use ni_port::Port;

// Empties the ports of a tile at these numbers, and sets their credit. All queues have `queue` places.
fn reset_each(ports: &mut [Port], numbers: &[u8], queue: u8, credit: u8)
    requires numbers { AreNumbers ports.old numbers.now }
    requires queues { All (λ port. port.queue ≡ queue) ports.old }
    requires credit { credit ≤ queue }
    ensures { ports.new ≡ with_each (record { queue = queue; port = empty_port credit }) numbers.now ports.old }
{
    for number in numbers {
        ports[usize::from(*number)].reset(credit);
    }
}

impl Tile {
    ghost use Rattle.std.specs.Prelude.{true, IsTrue};
    ghost use Rattle.grant_tables.specs.Turns.{is_quiet};
    ghost use Rattle.tile_core.specs.Tile.{number_of};
    ghost use Rattle.tile_core.specs.Slot.{removed, after_end, with_ends};
    ghost use Rattle.tile_core.specs.Slot.{installed, after_start, with_starts, with_grants};
    ghost use Rattle.tile_core.specs.Fit.{IsUnderway};
    ghost use Rattle.tile_core.specs.inner.Ready.{HasPorts, CanLeave, CanCome, CanEnd, CanBegin, HasEnded};

    // Resets the ports of a part.
    fn reset_ports(&mut self, world: &World, part: &Part, credit: u8)
        requires ports { HasPorts world.now self.old part.now }
        requires credit { credit ≤ world.now.platform.queue }
        ensures { self.new ≡ record self.old {
          ports = with_each (record { queue = world.now.platform.queue; port = empty_port credit })
              part.now.ports self.old.ports;
        } }
    {
        reset_each(
            self.ports.as_mut_slice(),
            part.ports.as_slice(),
            world.platform.queue,
            credit,
        );
    }

    // Takes a part out. Its ports have no credit then.
    fn remove(&mut self, world: &World, part: &Part)
        requires { CanLeave world.now self.old part.now }
        ensures { self.new ≡ removed world.now self.old part.now }
    {
        let number = part.slots.trailing_zeros() as u8;
        self.microkernel.clear(number);
        self.numbers[usize::from(number)] = None;
        self.reset_ports(world, part, 0);
    }

    // Lets the part of a grant's load leave, if it has one on the tile.
    fn end_grant(&mut self, world: &World, grant: &Grant)
        requires { CanEnd world.now self.old grant.now }
        ensures { self.new ≡ after_end world.now self.old grant.now }
    {
        let Some(place) = self.load_place(grant.label) else {
            return;
        };
        let Some(part) = self.load_part(world, place) else {
            return;
        };
        self.remove(world, part);
    }

    // Installs the part of the load at a place: the microkernel prepares it, its region is filled, and each
    // of its ports has credit for all places of the far queue.
    fn install(&mut self, world: &World, place: usize, part: &Part)
        requires { CanCome world.now self.old part.now }
        ensures { self.new ≡ installed world.now self.old place part.now }
    {
        let number = self.microkernel.prepare(part.slots, part.entry);
        self.bytes.fill(part.region, part.image.as_slice());
        self.numbers[usize::from(number)] = Some(place);
        self.reset_ports(world, part, world.platform.queue);
    }

    // Installs the part of a grant's load, if it has one on the tile.
    fn begin_grant(&mut self, world: &World, grant: &Grant)
        requires { CanBegin world.now self.old grant.now }
        ensures { self.new ≡ after_start world.now self.old grant.now }
    {
        let Some(place) = self.load_place(grant.label) else {
            return;
        };
        let Some(part) = self.load_part(world, place) else {
            return;
        };
        self.install(world, place, part);
    }

    // Ends a grant, if it ends in the slot.
    fn end_if(&mut self, world: &World, grant: &Grant, slot: u64)
        requires { ends_in slot grant.now ≡ true → CanEnd world.now self.old grant.now }
        ensures { self.new ≡ (if ends_in slot grant.now then after_end world.now self.old grant.now else self.old) }
    {
        if ends_in(grant, slot) {
            self.end_grant(world, grant);
        }
    }

    // Ends each grant that ends in the next slot.
    fn end_grants(&mut self, world: &World, schedule: &Schedule)
        requires { IsUnderway world.now schedule.now self.old }
        ensures { self.new ≡ with_ends world.now schedule.now.grants.items self.old }
    {
        let slot = self.slot;
        for grant in schedule.grants.as_slice() {
            self.end_if(world, grant, slot);
        }
    }

    // Begins a grant, if it begins in the slot.
    fn begin_if(&mut self, world: &World, grant: &Grant, slot: u64)
        requires { begins_in slot grant.now ≡ true → CanBegin world.now self.old grant.now }
        ensures { self.new ≡ (if begins_in slot grant.now then after_start world.now self.old grant.now else self.old) }
    {
        if begins_in(grant, slot) {
            self.begin_grant(world, grant);
        }
    }

    // Begins each grant that begins in the next slot.
    fn begin_grants(&mut self, world: &World, schedule: &Schedule)
        requires { HasEnded world.now schedule.now self.old }
        ensures { self.new ≡ with_starts world.now schedule.now.grants.items self.old }
    {
        let slot = self.slot;
        for grant in schedule.grants.as_slice() {
            self.begin_if(world, grant, slot);
        }
    }

    // Ends and begins the grants that do in the next slot.
    #[tactic(auto, using(crate::proofs::Ready::quiet_same, crate::proofs::Ready::ended_ready))]
    pub(super) fn settle(&mut self, world: &World, schedule: &Schedule)
        requires { IsUnderway world.now schedule.now self.old }
        ensures { self.new ≡ with_grants world.now schedule.now.grants.items self.old }
    {
        let grants = schedule.grants.as_slice();
        if is_quiet(grants, self.slot) {
            return;
        }
        self.end_grants(world, schedule);
        self.begin_grants(world, schedule);
        settle_tables(&mut self.tables, world, self.number, grants, self.slot);
    }

    // The same, where it is told whether none does.
    pub(super) fn settle_unless(&mut self, quiet: bool, world: &World, schedule: &Schedule)
        requires underway { IsUnderway world.now schedule.now self.old }
        requires quiet { IsTrue quiet → is_quiet schedule.now.grants.items self.old.at ≡ true }
        ensures { self.new ≡ with_grants world.now schedule.now.grants.items self.old }
    {
        if quiet {
            return;
        }
        self.settle(world, schedule);
    }
}
