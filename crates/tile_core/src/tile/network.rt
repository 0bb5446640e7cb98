//! The network interface of a tile and its router, in a slot.

ghost use Rattle.std.specs.Prelude.{◌≡◌, ◌+◌, ◌*◌, ◌^◌, ◌<◌, length, replicate, All, if◌then◌else◌};
ghost use Rattle.soc_base.specs.Port.{idle};
ghost use Rattle.tdm_network.specs.declared.routing.Outputs.{Outputs};
ghost use Rattle.tdm_network.specs.Rows.{free_rows};
ghost use Rattle.tile_core.specs.Slot.{is_idle, counted};

use super::Tile;
use bundle_model::World;
use soc_base::Flit;
use tdm_network::Delivery;

// Neither a word nor credits.
pub(super) const IDLE: Flit = Flit {
    word: None,
    credits: 0,
};

// Whether a flit has neither a word nor credits.
fn is_idle(flit: Flit) -> bool
    ensures { result ≡ is_idle flit }
{
    flit.word.is_none() && flit.credits == 0
}

// A count of flits other than idle, after a flit.
fn after_flit(count: u64, flit: Flit) -> u64
    requires { count + 1 < 2 ^ 64 }
    ensures { result ≡ (if is_idle flit then count else count + 1) }
{
    if is_idle(flit) { count } else { count + 1 }
}

// Counts the outputs that carry a flit other than idle.
fn count_flits(links: &[Flit; 7], carried: &mut [u64; 7])
    requires { All (λ count. count + 1 < 2 ^ 64) carried.old }
    ensures { carried.new ≡ counted links.now carried.old }
{
    for out in 0..7usize {
        carried[out] = after_flit(carried[out], links[out]);
    }
}

impl Tile {
    ghost use Rattle.tile_core.specs.Slot.{with_injection, injected_flit, with_cycles};
    ghost use Rattle.tile_core.specs.Slot.{traffic, with_delivery, with_traffic};
    ghost use Rattle.tile_core.specs.inner.Ready.{IsSoundTile};

    // Lets the port inject that the tables name for the slot, and answers its flit: idle where they name none.
    fn inject(&mut self) -> Flit
        ensures tile { self.new ≡ with_injection self.old }
        ensures flit { result ≡ injected_flit self.old }
    {
        let Some(port) = self.tables.inject_port(self.slot) else {
            return IDLE;
        };
        let number = usize::from(port);
        if number >= self.ports.len() {
            return IDLE;
        }
        self.ports[number].inject()
    }

    // Injects, writes what the outputs carry in the slot after, and answers what is delivered in this one.
    pub(super) fn exchange(
        &mut self,
        inputs: &[Flit; 7],
        outputs: &mut [Flit; 7],
    ) -> Option<Delivery>
        ensures tile { self.new ≡ with_injection self.old }
        ensures links { outputs.new ≡ (traffic inputs.now self.old).links }
        ensures deliver { result ≡ (traffic inputs.now self.old).deliver }
    {
        let injected = self.inject();
        self.tables.route_into(self.slot, inputs, injected, outputs)
    }

    // Delivers a flit to its port, if there is one.
    fn deliver(&mut self, delivery: Option<Delivery>)
        ensures { self.new ≡ with_delivery delivery self.old }
    {
        let Some(delivery) = delivery else {
            return;
        };
        let number = usize::from(delivery.port);
        if number < self.ports.len() {
            self.ports[number].deliver(delivery.flit);
        }
    }

    // Delivers at the end of the slot, and counts what the outputs carry.
    pub(super) fn finish(&mut self, deliver: Option<Delivery>, links: &[Flit; 7])
        requires { All (λ count. count + 1 < 2 ^ 64) self.old.carried }
        ensures { self.new ≡ with_traffic (record { links = links.now; deliver = deliver }) self.old }
    {
        self.deliver(deliver);
        count_flits(links, &mut self.carried);
    }

    // Does the cycles of a slot in which no flit comes or goes, since no place of the slot tables is taken.
    pub(super) fn rest(&mut self, world: &World, outputs: &mut [Flit; 7])
        requires tile { IsSoundTile world.now self.old }
        requires bounded { (self.old.at + 1) * world.now.platform.slot_cycles < 2 ^ 64 }
        requires free { self.old.tables ≡ free_rows (length self.old.tables) }
        ensures tile { self.new ≡ with_cycles world.now self.old }
        ensures links { outputs.new ≡ replicate 7 idle }
    {
        let idle = [IDLE; 7];
        *outputs = idle;
        self.cycles(world);
    }
}
