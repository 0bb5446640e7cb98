//! The cycles of a slot, in stretches: a slot is shorter than the microkernel's cycles of an instance, so
//! it has rows of the microkernel, then cycles of one part, and then rows of the next instance at most.

ghost use Rattle.std.specs.Prelude.{◌≡◌, ◌+◌, ◌-◌, ◌*◌, ◌^◌, ◌<◌, ◌≤◌, length};
ghost use Rattle.soc_base.specs.Time.{instance_cycles};
ghost use Rattle.comik.specs.Places.{IsPlace};
ghost use Rattle.comik.specs.Table.{kernel_rows};
ghost use Rattle.tile_memory.specs.Bytes.{IsInside};
ghost use Rattle.tile_mmio.specs.Ports.{AreOwn};
ghost use Rattle.tile_core.specs.inner.Stretch.{ran_in, memory_ran, ports_ran};

use super::Tile;
use bundle_model::{Part, World};
use comik::{Frame, FramePlace, frame_place, place_after};
use ni_port::Port;
use part_model::Place;
use platform_model::Costs;
use rv_core::Regs;
use tile_memory::TileMemory;
use tile_mmio::PartOnTile;
use trace_log::PartLog;

// Does `count` cycles of a part with these registers and cycles left.
#[tactic(auto, using(crate::proofs::Memory::joined_region, crate::proofs::Memory::joined_ports))]
fn run(
    costs: &Costs,
    part: &Part,
    cycle: u64,
    count: u64,
    regs: &mut Regs,
    left: &mut u8,
    memory: &mut TileMemory,
    ports: &mut [Port],
    log: &mut PartLog,
)
    requires inside { IsInside memory.old part.now.region }
    requires own { AreOwn ports.old part.now.ports }
    requires bounded { cycle + count ≤ 2 ^ 64 }
    ensures regs { regs.new
        ≡ (ran_in costs.now cycle count part.now regs.old left.old memory.old ports.old log.old).regs }
    ensures left { left.new
        ≡ (ran_in costs.now cycle count part.now regs.old left.old memory.old ports.old log.old).left }
    ensures memory { memory.new
        ≡ memory_ran costs.now cycle count part.now regs.old left.old memory.old ports.old log.old }
    ensures ports { ports.new
        ≡ ports_ran costs.now cycle count part.now regs.old left.old memory.old ports.old log.old }
    ensures log { log.new ≡ (ran_in costs.now cycle count part.now regs.old left.old memory.old ports.old log.old).log }
{
    let place = Place {
        tile: part.tile,
        kinds: part.kinds,
    };
    let mut running = PartOnTile {
        regs,
        left,
        memory,
        region: part.region,
        ports,
        map: part.ports.as_slice(),
        log,
    };
    running.run(costs, place, cycle, count);
}

// How many cycles are left of the microkernel's at a place.
fn kernel_left(frame: &Frame, at: FramePlace) -> u32
    ensures { result ≡ frame.now.kernel - at.offset }
{
    u32::from(frame.kernel).saturating_sub(at.offset)
}

// How many cycles are left of the instance at a place.
fn instance_left(frame: &Frame, at: FramePlace) -> u32
    requires { IsPlace frame.now at }
    ensures { result ≡ instance_cycles frame.now - at.offset }
{
    u32::from(frame.kernel) + frame.partition - at.offset
}

impl Tile {
    ghost use Rattle.std.specs.Prelude.{Some};
    ghost use Rattle.soc_base.specs.declared.limits.TheConstants.{MOST_SLOT_CYCLES};
    ghost use Rattle.comik.specs.Places.{frame_place};
    ghost use Rattle.tile_core.specs.Slot.{cycled, with_cycles};
    ghost use Rattle.tile_core.specs.inner.Stretch.{ran_part, held_ran};
    ghost use Rattle.tile_core.specs.inner.Ready.{IsSoundTile};

    // Does the microkernel's rows for `count` cycles of one instance.
    fn rows(&mut self, at: FramePlace, count: u32)
        requires { at.served < self.old.kernel.times.slots }
        ensures { self.new ≡ record self.old { kernel = kernel_rows self.old.kernel at.served at.offset count } }
    {
        self.microkernel.rows(at.served, at.offset, count);
    }

    // Does `count` cycles of the part that is held, which is that of the load at a place.
    fn run_part(&mut self, costs: &Costs, part: &Part, place: usize, cycle: u64, count: u64)
        requires inside { IsInside self.old.memory part.now.region }
        requires own { AreOwn self.old.ports part.now.ports }
        requires logged { place < length self.old.logs }
        requires bounded { cycle + count ≤ 2 ^ 64 }
        ensures { self.new ≡ ran_part costs.now cycle count self.old place (Some part.now) }
    {
        let context = self.microkernel.context();
        run(
            costs,
            part,
            cycle,
            count,
            &mut context.regs,
            &mut context.left,
            &mut self.bytes,
            self.ports.as_mut_slice(),
            &mut self.part_logs[place],
        );
    }

    // Does `count` cycles of the part that is held, if one is.
    #[tactic(auto, using(crate::proofs::Ready::held_inside, crate::proofs::Ready::held_logged))]
    fn run_held(&mut self, world: &World, cycle: u64, count: u64)
        requires tile { IsSoundTile world.now self.old }
        requires bounded { cycle + count ≤ 2 ^ 64 }
        ensures { self.new ≡ held_ran world.now cycle count self.old }
    {
        let Some(number) = self.microkernel.held() else {
            return;
        };
        let Some(Some(place)) = self.numbers.as_slice().get(usize::from(number)) else {
            return;
        };
        let place = *place;
        let Some(part) = self.load_part(world, place) else {
            return;
        };
        self.run_part(&world.platform.costs, part, place, cycle, count);
    }

    // Does `count` cycles from one on, whose place in the frame is `at`.
    fn stretches(&mut self, world: &World, frame: &Frame, at: FramePlace, from: u64, count: u32)
        requires tile { IsSoundTile world.now self.old }
        requires frame { frame.now ≡ self.old.kernel.times }
        requires place { at ≡ frame_place frame.now from }
        requires valid { IsPlace frame.now at }
        requires short { count ≤ MOST_SLOT_CYCLES }
        requires bounded { from + count < 2 ^ 64 }
        ensures { self.new ≡ cycled world.now from count self.old }
    {
        let first = count.min(kernel_left(frame, at));
        self.rows(at, first);
        let next = place_after(frame, at, first);

        let second = (count - first).min(instance_left(frame, next));
        self.run_held(world, from + u64::from(first), u64::from(second));
        let last = place_after(frame, next, second);

        self.rows(last, count - first - second);
    }

    // Does the cycles of the next slot.
    pub(super) fn cycles(&mut self, world: &World)
        requires tile { IsSoundTile world.now self.old }
        requires bounded { (self.old.at + 1) * world.now.platform.slot_cycles < 2 ^ 64 }
        ensures { self.new ≡ with_cycles world.now self.old }
    {
        let frame = self.microkernel.frame();
        let count = u32::from(world.platform.slot_cycles);
        let from = self.slot * u64::from(count);
        let at = frame_place(&frame, from);
        self.stretches(world, &frame, at, from, count);
    }
}
