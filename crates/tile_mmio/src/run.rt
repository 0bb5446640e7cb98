//! The cycles of a part over its region of a tile's memory.

use crate::part_bus::PartBus;
use ni_port::Port;
use part_model::{Place, cost_at, effect, instr_at, left_after, record_outcome};
use platform_model::Costs;
use rv_core::{Cause, Instr, Outcome, Regs};
use tile_memory::{Region, TileMemory};
use trace_log::PartLog;

/// A part on its tile, for a stretch of cycles in each of which it runs: the register file with the part's
/// words in it, the part's region of the tile's memory, and its log.
#[derive(Drop)]
pub struct PartOnTile<'a> {
    /// The part's registers.
    pub regs: &'a mut Regs,
    /// The cycles that the instruction under way needs still, 0 where there is none.
    pub left: &'a mut u8,
    /// The tile's memory.
    pub memory: &'a mut TileMemory,
    /// The part's region of it.
    pub region: Region,
    /// The tile's ports.
    pub ports: &'a mut [Port],
    /// The number there of each port of the part, in the part's order.
    pub map: &'a [u8],
    /// The part's log.
    pub log: &'a mut PartLog,
}

impl<'a> PartOnTile<'a> {
    ghost use Rattle.std.specs.Prelude.{◌≡◌, ◌+◌, ◌-◌, ◌<◌, ◌≤◌, ◌^◌, Some, false, IfOk};
    ghost use Rattle.std.specs.Result.{ForOk};
    ghost use Rattle.soc_base.specs.Steps.{after_steps};
    ghost use Rattle.rv_core.specs.Table.{IsInRange};
    ghost use Rattle.trace_log.specs.Log.{has_ended};
    ghost use Rattle.tile_memory.specs.Bytes.{IsInside, region_bytes};
    ghost use Rattle.part_model.specs.Running.{instr_of};
    ghost use Rattle.part_model.specs.Part.{part_cycle};
    ghost use Rattle.part_model.specs.inner.Steps.{word_at_pc, due_in, completed};
    ghost use Rattle.tile_mmio.specs.Ports.{AreNumbers, AreOwn};
    ghost use Rattle.tile_mmio.specs.Part.{view_of, rest_of};
    ghost use Rattle.tile_mmio.specs.inner.Acting.{acted, fixed_of};

    // Does what stands at pc on the part's bus, in a cycle, and answers what it came to.
    fn act(&mut self, place: Place, cycle: u64, here: Result<Instr, Cause>) -> Outcome
        requires inside { IsInside self.old.memory.now self.old.region }
        requires numbers { AreNumbers self.old.ports.now self.old.map.now }
        requires range { ForOk here IsInRange }
        ensures outcome { Some result ≡ (acted self.old place cycle here).outcome }
        ensures regs { self.new.regs.now ≡ (acted self.old place cycle here).regs }
        ensures bytes { region_bytes self.new.memory.now self.new.region ≡ (acted self.old place cycle here).bus.bytes }
        ensures ports { self.new.ports.now ≡ (acted self.old place cycle here).bus.ports }
        ensures log { self.new.log.now ≡ (acted self.old place cycle here).bus.log }
        ensures fixed { fixed_of self.new ≡ fixed_of self.old }
    {
        let mut bus = PartBus::new(
            self.memory,
            self.region,
            self.ports,
            self.map,
            self.log,
            place.kinds,
            place.tile,
            cycle,
        );
        effect(self.regs, &mut bus, here)
    }

    // Does what stands at pc, in a cycle, and writes down what it came to.
    fn complete(&mut self, place: Place, cycle: u64, here: Result<Instr, Cause>)
        requires inside { IsInside self.old.memory.now self.old.region }
        requires own { AreOwn self.old.ports.now self.old.map.now }
        requires range { ForOk here IsInRange }
        ensures view { view_of self.new ≡ completed place cycle (view_of self.old) here }
        ensures rest { rest_of self.new ≡ rest_of self.old }
    {
        let regs = &*self.regs;
        let pc = regs.pc;
        let outcome = self.act(place, cycle, here);
        *self.left = left_after(outcome);
        record_outcome(self.log, place, cycle, pc, Some(outcome));
    }

    // What stands at pc.
    fn here(&self) -> Result<Instr, Cause>
        requires inside { IsInside self.now.memory.now self.now.region }
        ensures exact { result ≡ instr_of (word_at_pc (view_of self.now)) }
        ensures range { IfOk result IsInRange }
    {
        let regs = &*self.regs;
        instr_at(self.memory.fetch(self.region, regs.pc))
    }

    // How many cycles what stands at pc needs still.
    #[tactic(auto, using(part_model::proofs::Laws::cost_of_word))]
    fn due(&self, costs: &Costs, here: Result<Instr, Cause>) -> u8
        requires here { here ≡ instr_of (word_at_pc (view_of self.now)) }
        requires range { ForOk here IsInRange }
        ensures due { result ≡ due_in costs.now (view_of self.now) }
        ensures some { 0 < result }
    {
        let left = *self.left;
        if left > 0 {
            left
        } else {
            cost_at(costs, &*self.regs, here)
        }
    }

    // Counts cycles down, of which there are more.
    fn wait(&mut self, due: u8, count: u64) -> u64
        requires { count < due }
        ensures count { result ≡ count }
        ensures view { view_of self.new ≡ record (view_of self.old) { left = due - count } }
        ensures rest { rest_of self.new ≡ rest_of self.old }
    {
        *self.left = due - count as u8;
        count
    }

    // Does the cycles of one instruction, and answers how many: those that it needs still, or `most` where
    // that is fewer. The part has not ended.
    #[tactic(auto, using(part_model::proofs::Laws::waits_for, part_model::proofs::Laws::does_in))]
    fn advance(&mut self, costs: &Costs, place: Place, cycle: u64, most: u64) -> u64
        requires inside { IsInside self.old.memory.now self.old.region }
        requires own { AreOwn self.old.ports.now self.old.map.now }
        requires some { 0 < most }
        requires bounded { cycle + most ≤ 2 ^ 64 }
        requires live { has_ended self.old.log.now.end ≡ false }
        ensures some { 0 < result }
        ensures most { result ≤ most }
        ensures view { view_of self.new ≡ after_steps (part_cycle costs.now place) cycle result (view_of self.old) }
        ensures rest { rest_of self.new ≡ rest_of self.old }
    {
        let left = *self.left;
        if u64::from(left) > most {
            return self.wait(left, most);
        }
        let here = self.here();
        let due = self.due(costs, here);
        let count = u64::from(due);
        if count > most {
            return self.wait(due, most);
        }
        self.complete(place, cycle + (count - 1), here);
        count
    }

    /// Does `count` cycles of the part from `cycle` on. A part that has ended does nothing, and any other in
    /// each cycle what the instruction at pc needs. No byte outside the region changes. Takes no memory.
    #[tactic(auto, using(soc_base::proofs::Laws::steps_none, soc_base::proofs::Laws::steps_split, crate::proofs::Rest::rest_own))]
    pub fn run(&mut self, costs: &Costs, place: Place, cycle: u64, count: u64)
        requires inside { IsInside self.old.memory.now self.old.region }
        requires own { AreOwn self.old.ports.now self.old.map.now }
        requires bounded { cycle + count ≤ 2 ^ 64 }
        ensures view { view_of self.new ≡ after_steps (part_cycle costs.now place) cycle count (view_of self.old) }
        ensures rest { rest_of self.new ≡ rest_of self.old }
    {
        let mut done = 0;
        while done < count {
            if self.log.end().has_ended() {
                return;
            }
            done += self.advance(costs, place, cycle + done, count - done);
        }
    }
}
