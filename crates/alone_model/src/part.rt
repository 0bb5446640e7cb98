//! One part with registers, a memory and ports of its own.

ghost use Rattle.std.specs.Prelude.{◌≡◌, ◌+◌, ◌-◌, ◌*◌, ◌%◌, ◌^◌, ◌<◌, ◌≤◌, length, IfOk};
ghost use Rattle.soc_base.specs.declared.limits.TheConstants.{MOST_MEMORY};
ghost use Rattle.soc_base.specs.Time.{offset_at};
ghost use Rattle.platform_model.specs.Platform.{frame_of};
ghost use Rattle.trace_log.specs.Log.{has_ended};
ghost use Rattle.tile_memory.specs.Bytes.{IsInside, region_bytes, filled_bytes};
ghost use Rattle.std.specs.List.{range_with_len};
ghost use Rattle.soc_base.specs.Steps.{after_steps};
ghost use Rattle.part_model.specs.Part.{part_cycle};
ghost use Rattle.tile_mmio.specs.Part.{rest_of};
ghost use Rattle.alone_model.specs.App.{own_region, place_of};
ghost use Rattle.alone_model.specs.inner.OnTile.{state_of, own_state};

use crate::exchange::{Arrival, Sender};
use crate::port::{arrive_each, granted_ports, leave_each, next_flit, numbers_below};
use bundle_model::Part;
use ni_port::Port;
use part_model::Place;
use platform_model::{Costs, Platform};
use rv_core::Regs;
use soc_base::{Flit, LAST_CYCLE, NoMemory, Region, instance_of, runs};
use std::alloc::Global;
use std::marker::Model;
use tile_memory::TileMemory;
use tile_mmio::PartOnTile;
use trace_log::PartLog;

// What a part has between two cycles, but its ports.
#[derive(Drop)]
struct Body {
    regs: Regs,
    left: u8,
    memory: TileMemory,
    log: PartLog,
}

/// A part of a bundle, and what it is between two cycles.
#[derive(Drop)]
pub struct RunningPart<'b> {
    part: &'b Part,
    body: Body,
    ports: Vec<Port>,
    // The numbers of the ports among the part's own.
    numbers: Vec<u8>,
}

impl<'b> Model for RunningPart<'b> {
    ghost use Rattle.alone_model.specs.Network.{AppPart};
    ghost use Rattle.alone_model.specs.inner.Stretch.{HasItsOwn};
    ghost use Rattle.alone_model.specs.inner.OnTile.{state_of};

    ghost Value = { AppPart };

    ghost view = { λ p. record {
      part = p.part.now;
      state = state_of p.part.now p.body p.ports.items;
    } };

    ghost invariant = { λ p. HasItsOwn p.part.now p.body.memory p.ports.items p.numbers.items };
}

// The first of the partition's cycles in the instance of a cycle, and the cycle after the last.
fn partition_cycles(platform: &Platform, cycle: u64) -> (u64, u64)
    requires { cycle ≤ LAST_CYCLE }
    ensures first { result.0 ≡ cycle - offset_at (frame_of platform.now) cycle + platform.now.kernel_cycles }
    ensures past { result.1 ≡ result.0 + platform.now.partition_cycles }
    ensures later { cycle < result.1 }
{
    let (_, offset) = instance_of(&platform.frame(), cycle);
    let first = cycle - offset + u64::from(platform.kernel_cycles);
    (first, first + u64::from(platform.partition_cycles))
}

// The region of a part in a memory of its own.
fn region_of(part: &Part) -> Region
    ensures { result ≡ own_region part.now }
{
    Region {
        base: 0,
        len: part.region.len,
    }
}

// A memory of a part's own, which holds its image and then zeros.
#[tactic(auto, using(crate::proofs::Opening::filled_inside, crate::proofs::Opening::filled_region))]
fn filled_memory(alloc: Global, part: &Part) -> Result<TileMemory, NoMemory>
    requires rows { part.now.region.len % 16 ≡ 0 }
    requires most { part.now.region.len ≤ MOST_MEMORY }
    requires holds { 4 * length part.now.image ≤ part.now.region.len }
    ensures inside { IfOk result (λ memory. IsInside memory (own_region part.now)) }
    ensures bytes { let filled = filled_bytes part.now.region.len part.now.image in
        IfOk result (λ memory. region_bytes memory (own_region part.now) ≡ filled) }
{
    let mut memory = TileMemory::new(alloc, part.region.len)?;
    memory.fill(region_of(part), part.image.as_slice());
    Ok(memory)
}

// Does cycles of a part, in each of which it runs.
fn run_body(
    body: &mut Body,
    ports: &mut [Port],
    numbers: &[u8],
    part: &Part,
    costs: &Costs,
    from: u64,
    count: u64,
)
    requires inside { IsInside body.old.memory (own_region part.now) }
    requires numbered { numbers.now ≡ range_with_len 0 (length ports.old) }
    requires bounded { from + count ≤ 2 ^ 64 }
    ensures inside { IsInside body.new.memory (own_region part.now) }
    ensures state { state_of part.now body.new ports.new
        ≡ after_steps (part_cycle costs.now (place_of part.now)) from count (state_of part.now body.old ports.old) }
{
    let place = Place {
        tile: part.tile,
        kinds: part.kinds,
    };
    let mut on_tile = PartOnTile {
        regs: &mut body.regs,
        left: &mut body.left,
        memory: &mut body.memory,
        region: region_of(part),
        ports,
        map: numbers,
        log: &mut body.log,
    };
    run_own(&mut on_tile, costs, place, from, count);
}

// Does cycles of a part on a tile all of whose ports are its own, in each of which it runs.
fn run_own(part: &mut PartOnTile<'_>, costs: &Costs, place: Place, from: u64, count: u64)
    requires inside { IsInside part.old.memory.now part.old.region }
    requires numbered { part.old.map.now ≡ range_with_len 0 (length part.old.ports.now) }
    requires bounded { from + count ≤ 2 ^ 64 }
    ensures state { own_state part.new ≡ after_steps (part_cycle costs.now place) from count (own_state part.old) }
    ensures rest { rest_of part.new ≡ rest_of part.old }
{
    part.run(costs, place, from, count);
}

impl<'b> RunningPart<'b> {
    ghost use Rattle.bundle_model.specs.WellFormed.{IsWellFormedPart};
    ghost use Rattle.alone_model.specs.App.{opening_part};
    ghost use Rattle.soc_base.specs.Port.{inject};
    ghost use Rattle.alone_model.specs.Network.{with_ports, port_among};
    ghost use Rattle.alone_model.specs.inner.Stretch.{part_ran, part_steps};
    ghost use Rattle.alone_model.specs.inner.Exchange.{after_leaving, after_arriving};

    /// Makes a part as it is when its application is granted.
    #[tactic(auto, using(crate::proofs::Opening::few_ports, crate::proofs::Opening::owns))]
    pub fn new(
        alloc: Global,
        platform: &Platform,
        part: &'b Part,
    ) -> Result<RunningPart<'b>, NoMemory>
        requires { IsWellFormedPart platform.now part.now }
        ensures { IfOk result (λ p. p ≡ opening_part platform.now part.entry.now) }
    {
        let memory = filled_memory(alloc, part)?;
        let ports = granted_ports(alloc, platform.queue, part.ports.as_slice())?;
        let numbers = numbers_below(alloc, part.ports.len())?;
        let log = PartLog::new(alloc, part.trace)?;
        let body = Body {
            regs: Regs::new(part.entry),
            left: 0,
            memory,
            log,
        };
        Ok(RunningPart {
            part,
            body,
            ports,
            numbers,
        })
    }

    // Does cycles in each of which the part runs.
    fn run_all(&mut self, costs: &Costs, from: u64, count: u64)
        requires { from + count ≤ 2 ^ 64 }
        ensures { self.new ≡ part_ran costs.now from count self.old }
    {
        run_body(
            &mut self.body,
            self.ports.as_mut_slice(),
            self.numbers.as_slice(),
            self.part,
            costs,
            from,
            count,
        );
    }

    // Does the cycles of an instance from `from` on, up to its end or to `to` where that is sooner, and
    // answers the cycle after them.
    fn run_instance(&mut self, platform: &Platform, start: u64, from: u64, to: u64) -> u64
        requires some { from < to }
        requires bounded { to ≤ LAST_CYCLE }
        ensures later { from < result }
        ensures within { result ≤ to }
        ensures cycles { self.new ≡ part_steps platform.now start from (result - from) self.old }
    {
        let (begin, past) = partition_cycles(platform, from);
        let first = from.max(begin);
        let end = to.min(past);
        if first < end && runs(&platform.frame(), self.part.slots, start, first) {
            self.run_all(&platform.costs, first, end - first);
        }
        end
    }

    /// Does the part's cycles from `from` to `to - 1`, where its application was granted from cycle `start`
    /// on.
    pub fn run(&mut self, platform: &Platform, start: u64, from: u64, to: u64)
        requires ordered { from ≤ to }
        requires bounded { to ≤ LAST_CYCLE }
        ensures { self.new ≡ part_steps platform.now start from (to - from) self.old }
    {
        let mut at = from;
        while at < to {
            // A part that has ended changes no more.
            if self.has_ended() {
                return;
            }
            at = self.run_instance(platform, start, at, to);
        }
    }

    /// Answers the flit that the port with a number on the tile injects next; the idle one where the part
    /// has no such port.
    pub fn next_flit(&self, number: u8) -> Flit
        ensures { result ≡ (inject (port_among self.now.part.ports self.now.state.ports number)).0 }
    {
        next_flit(self.part.ports.as_slice(), self.ports.as_slice(), number)
    }

    /// Injects from the ports that the senders leave.
    pub fn leave(&mut self, senders: &[Sender])
        ensures { self.new ≡ with_ports (after_leaving senders.now) self.old }
    {
        let tile = self.part.tile;
        leave_each(
            self.ports.as_mut_slice(),
            tile,
            self.part.ports.as_slice(),
            senders,
        );
    }

    /// Delivers to the ports what arrives at them.
    pub fn arrive(&mut self, arrivals: &[Arrival])
        ensures { self.new ≡ with_ports (after_arriving arrivals.now) self.old }
    {
        let tile = self.part.tile;
        arrive_each(
            self.ports.as_mut_slice(),
            tile,
            self.part.ports.as_slice(),
            arrivals,
        );
    }

    /// Answers whether the part has ended.
    pub fn has_ended(&self) -> bool
        ensures { result ≡ has_ended self.now.state.log.end }
    {
        self.body.log.end().has_ended()
    }

    /// Answers the part's log.
    pub fn log(&self) -> &PartLog
        ensures { result.now ≡ self.now.state.log }
    {
        &self.body.log
    }

    /// Answers the part's tile.
    pub fn tile(&self) -> u8
        ensures { result ≡ self.now.part.tile }
    {
        self.part.tile
    }
}
