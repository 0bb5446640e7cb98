//! The bus of one part.

ghost use Rattle.std.specs.Prelude.{◌≡◌, ◌≤◌};
ghost use Rattle.part_model.specs.Answers.{cause_of, memory_answer};
ghost use Rattle.tile_memory.specs.Bytes.{IsInside};
ghost use Rattle.tile_mmio.specs.Ports.{AreNumbers};

/// The device registers.
mod registers;

use ni_port::Port;
use part_model::{DEVICE_BASE, Place};
use rv_core::{Answer, Bus, Cause};
use tile_memory::{MemFault, Region, TileMemory, Width};
use trace_log::PartLog;

/// The bus of one part in one cycle: addresses below `DEVICE_BASE` are the part's region, and from there
/// on stand the device registers: `TRACE`, `CYCLE` and `CYCLEH`, and those of the part's ports.
#[derive(Drop)]
pub struct PartBus<'a> {
    memory: &'a mut TileMemory,
    region: Region,
    ports: &'a mut [Port],
    map: &'a [u8],
    log: &'a mut PartLog,
    place: Place,
    cycle: u64,
    ghost inside: { IsInside memory.now region },
    ghost numbers: { AreNumbers ports.now map.now },
}

impl<'a> PartBus<'a> {
    ghost use Rattle.tile_mmio.specs.State.{bus_on, bus_state, bus_loans, bus_memory, bus_region};

    /// Makes the bus of a part in a cycle. The part's region lies in the memory; `ports` are the tile's, and
    /// `map` has the number there of each port of the part, in the part's order; `kinds` is the set of kinds
    /// of rows that the part names. Takes no memory.
    pub fn new(
        memory: &'a mut TileMemory,
        region: Region,
        ports: &'a mut [Port],
        map: &'a [u8],
        log: &'a mut PartLog,
        kinds: u8,
        tile: u8,
        cycle: u64,
    ) -> PartBus<'a>
        requires inside { IsInside memory.old region }
        requires numbers { AreNumbers ports.old map.now }
        ensures loans { bus_loans result ≡ (memory.entry.ghost_name, ports.entry.ghost_name, log.entry.ghost_name) }
        ensures memory { bus_memory result ≡ memory.old }
        ensures region { bus_region result ≡ region }
        ensures state { bus_state result ≡ bus_on memory.old region ports.old map.now log.old tile kinds cycle }
    {
        PartBus {
            memory,
            region,
            ports,
            map,
            log,
            place: Place { tile, kinds },
            cycle,
        }
    }
}

fn cause(fault: MemFault) -> Cause
    ensures { result ≡ cause_of fault }
{
    match fault {
        MemFault::Align => Cause::Align,
        MemFault::Outside => Cause::Access,
    }
}

// What the bus answers for what a load from the memory gave.
fn answer(loaded: Result<u32, MemFault>) -> Answer
    ensures { result ≡ memory_answer loaded }
{
    match loaded {
        Ok(value) => Answer::Done(value),
        Err(fault) => Answer::Fault(cause(fault)),
    }
}

impl<'a> Bus for PartBus<'a> {
    ghost use Rattle.std.specs.Prelude.{ℕ, List};
    ghost use Rattle.std.specs.Borrow.{GName};
    ghost use Rattle.soc_base.specs.declared.region.Region.{Region};
    ghost use Rattle.part_model.specs.Answers.{BusState};
    ghost use Rattle.part_model.specs.Part.{part_bus};
    ghost use Rattle.tile_mmio.specs.State.{bus_state, bus_rest};

    ghost State = { BusState };

    ghost state = { bus_state };

    ghost Kept = { (GName × GName × GName) × Region × List ℕ × List ℕ × ℕ × List ℕ };

    ghost kept = { bus_rest };

    ghost answers = { part_bus };

    fn fetch(&self, pc: u32) -> Option<u32> {
        self.memory.fetch(self.region, pc)
    }

    #[tactic(auto, unfolding(part_model::specs::Answers::load_answer))]
    fn load(&mut self, addr: u32, width: Width) -> Answer {
        if addr < DEVICE_BASE {
            return answer(self.memory.load(self.region, addr, width));
        }
        self.load_device(addr, width)
    }

    #[tactic(auto, unfolding(part_model::specs::Answers::store_answer))]
    fn store(&mut self, addr: u32, width: Width, value: u32) -> Answer {
        if addr < DEVICE_BASE {
            return match self.memory.store(self.region, addr, width, value) {
                Ok(()) => Answer::Done(0),
                Err(fault) => Answer::Fault(cause(fault)),
            };
        }
        self.store_device(addr, width, value)
    }
}
