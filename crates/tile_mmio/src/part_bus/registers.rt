//! The device registers of a part, among them those of its ports.

ghost use Rattle.std.specs.Prelude.{◌≡◌, ◌-◌, ◌/◌, ◌%◌, ◌==◌, ◌<◌, ◌≤◌, length, slice_get, IfSome};
ghost use Rattle.soc_base.specs.declared.region.Width.TheVariants.{Word};
ghost use Rattle.soc_base.specs.Widths.{width_bytes};
ghost use Rattle.rv_core.specs.Access.{IsLoaded, IsStored, IsKeptUnlessDone};
ghost use Rattle.part_model.specs.declared.device.TheConstants.{RECV, SEND, PORT_BYTES};
ghost use Rattle.part_model.specs.Answers.{device_load, device_store, register_load, register_store, port_load, port_store, register_of};

use super::PartBus;
use ni_port::{Empty, Full};
use part_model::{CYCLE, CYCLEH, FILL, PORT_BYTES, RECV, ROOM, SEND, TRACE, trace};
use rv_core::{Answer, Cause};
use tile_memory::Width;
use trace_log::Kind;

fn is_aligned(addr: u32, width: Width) -> bool
    ensures { result ≡ (addr % width_bytes width == 0) }
{
    match width {
        Width::Byte => true,
        Width::Half => addr % 2 == 0,
        Width::Word => addr % 4 == 0,
    }
}

// Which of a port's registers an address is, as the address of that register of the part's first port.
fn register(addr: u32) -> u32
    requires { SEND ≤ addr }
    ensures { result ≡ register_of addr }
{
    SEND + (addr - SEND) % PORT_BYTES
}

impl PartBus<'_> {
    ghost use Rattle.tile_mmio.specs.State.{bus_state, bus_rest};
    ghost use Rattle.tile_mmio.specs.inner.TilePort.{tile_port};

    // The tile's number of the port whose registers an address is among.
    fn number_at(&self, addr: u32) -> Option<u8>
        requires { SEND ≤ addr }
        ensures number { result ≡ slice_get (bus_state self.now).numbers ((addr - SEND) / PORT_BYTES) }
        ensures within { IfSome result (λ number. number < length (bus_state self.now).ports) }
    {
        self.map.get(((addr - SEND) / PORT_BYTES) as usize).copied()
    }

    // Takes the oldest word that a port received.
    fn receive(&mut self, number: u8) -> Answer
        requires { number < length (bus_state self.old).ports }
        ensures answer { result ≡ (port_load (bus_state self.old) RECV (tile_port (bus_state self.old) number)).0 }
        ensures state { bus_state self.new ≡ (port_load (bus_state self.old) RECV (tile_port (bus_state self.old) number)).1 }
        ensures refused { IsKeptUnlessDone result (bus_state self.old) (bus_state self.new) }
        ensures kept { bus_rest self.new ≡ bus_rest self.old }
    {
        let ports = &mut *self.ports;
        match ports[usize::from(number)].take() {
            Ok(word) => {
                trace(self.log, self.place, self.cycle, Kind::Recv, word);
                Answer::Done(word)
            }
            Err(Empty) => Answer::Stall,
        }
    }

    // Puts a word into the send queue of a port.
    fn send(&mut self, number: u8, word: u32) -> Answer
        requires { number < length (bus_state self.old).ports }
        ensures answer { result ≡ (port_store (bus_state self.old) SEND word (tile_port (bus_state self.old) number)).0 }
        ensures state { bus_state self.new ≡ (port_store (bus_state self.old) SEND word (tile_port (bus_state self.old) number)).1 }
        ensures bound { IsStored result }
        ensures refused { IsKeptUnlessDone result (bus_state self.old) (bus_state self.new) }
        ensures kept { bus_rest self.new ≡ bus_rest self.old }
    {
        let ports = &mut *self.ports;
        match ports[usize::from(number)].put(word) {
            Ok(()) => {
                trace(self.log, self.place, self.cycle, Kind::Send, word);
                Answer::Done(0)
            }
            Err(Full) => Answer::Stall,
        }
    }

    // Loads from a register of a port.
    fn load_port(&mut self, number: u8, register: u32) -> Answer
        requires { number < length (bus_state self.old).ports }
        ensures answer { result ≡ (port_load (bus_state self.old) register (tile_port (bus_state self.old) number)).0 }
        ensures state { bus_state self.new ≡ (port_load (bus_state self.old) register (tile_port (bus_state self.old) number)).1 }
        ensures refused { IsKeptUnlessDone result (bus_state self.old) (bus_state self.new) }
        ensures kept { bus_rest self.new ≡ bus_rest self.old }
    {
        if register == RECV {
            return self.receive(number);
        }
        // an element can't be lent through the field, so the slice is
        let lent = &mut *self.ports;
        let ports = &*lent;
        let port = &ports[usize::from(number)];
        match register {
            ROOM => Answer::Done(u32::from(port.room())),
            FILL => Answer::Done(u32::from(port.fill())),
            _ => Answer::Fault(Cause::Access),
        }
    }

    // Puts a word into a register of a port.
    fn store_port(&mut self, number: u8, register: u32, value: u32) -> Answer
        requires { number < length (bus_state self.old).ports }
        ensures answer { result ≡ (port_store (bus_state self.old) register value (tile_port (bus_state self.old) number)).0 }
        ensures state { bus_state self.new ≡ (port_store (bus_state self.old) register value (tile_port (bus_state self.old) number)).1 }
        ensures bound { IsStored result }
        ensures refused { IsKeptUnlessDone result (bus_state self.old) (bus_state self.new) }
        ensures kept { bus_rest self.new ≡ bus_rest self.old }
    {
        match register {
            SEND => self.send(number, value),
            _ => Answer::Fault(Cause::Access),
        }
    }

    // Loads a word from a device register.
    fn load_word(&mut self, addr: u32) -> Answer
        ensures answer { result ≡ (register_load (bus_state self.old) addr Word).0 }
        ensures state { bus_state self.new ≡ (register_load (bus_state self.old) addr Word).1 }
        ensures refused { IsKeptUnlessDone result (bus_state self.old) (bus_state self.new) }
        ensures kept { bus_rest self.new ≡ bus_rest self.old }
    {
        match addr {
            CYCLE => return Answer::Done((self.cycle % 0x1_0000_0000) as u32),
            CYCLEH => return Answer::Done((self.cycle / 0x1_0000_0000) as u32),
            _ => {}
        }
        if addr < SEND {
            return Answer::Fault(Cause::Access);
        }
        match self.number_at(addr) {
            Some(number) => self.load_port(number, register(addr)),
            None => Answer::Fault(Cause::Access),
        }
    }

    // Stores a word to a device register.
    fn store_word(&mut self, addr: u32, value: u32) -> Answer
        ensures answer { result ≡ (register_store (bus_state self.old) addr Word value).0 }
        ensures state { bus_state self.new ≡ (register_store (bus_state self.old) addr Word value).1 }
        ensures bound { IsStored result }
        ensures refused { IsKeptUnlessDone result (bus_state self.old) (bus_state self.new) }
        ensures kept { bus_rest self.new ≡ bus_rest self.old }
    {
        if addr == TRACE {
            trace(self.log, self.place, self.cycle, Kind::Word, value);
            return Answer::Done(0);
        }
        if addr < SEND {
            return Answer::Fault(Cause::Access);
        }
        match self.number_at(addr) {
            Some(number) => self.store_port(number, register(addr), value),
            None => Answer::Fault(Cause::Access),
        }
    }

    // Loads from a device register.
    pub(super) fn load_device(&mut self, addr: u32, width: Width) -> Answer
        ensures answer { result ≡ (device_load (bus_state self.old) addr width).0 }
        ensures state { bus_state self.new ≡ (device_load (bus_state self.old) addr width).1 }
        ensures bound { IsLoaded width result }
        ensures refused { IsKeptUnlessDone result (bus_state self.old) (bus_state self.new) }
        ensures kept { bus_rest self.new ≡ bus_rest self.old }
    {
        if !is_aligned(addr, width) {
            return Answer::Fault(Cause::Align);
        }
        match width {
            Width::Word => self.load_word(addr),
            Width::Byte | Width::Half => Answer::Fault(Cause::Access),
        }
    }

    // Stores to a device register.
    pub(super) fn store_device(&mut self, addr: u32, width: Width, value: u32) -> Answer
        ensures answer { result ≡ (device_store (bus_state self.old) addr width value).0 }
        ensures state { bus_state self.new ≡ (device_store (bus_state self.old) addr width value).1 }
        ensures bound { IsStored result }
        ensures refused { IsKeptUnlessDone result (bus_state self.old) (bus_state self.new) }
        ensures kept { bus_rest self.new ≡ bus_rest self.old }
    {
        if !is_aligned(addr, width) {
            return Answer::Fault(Cause::Align);
        }
        match width {
            Width::Word => self.store_word(addr, value),
            Width::Byte | Width::Half => Answer::Fault(Cause::Access),
        }
    }
}
