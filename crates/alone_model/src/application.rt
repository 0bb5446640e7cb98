//! An application, slot by slot.

ghost use Rattle.std.specs.Prelude.{◌≡◌, ◌+◌, ◌-◌, ◌*◌, ◌<◌, ◌≤◌, ◌==◌, map, filter, not, find, true, All, IfOk, OnOk};
ghost use Rattle.std.specs.Option.{option_copied};
ghost use Rattle.soc_base.specs.Port.{inject};
ghost use Rattle.soc_base.specs.Steps.{after_steps};
ghost use Rattle.trace_log.specs.Log.{has_ended};
ghost use Rattle.bundle_model.specs.WellFormed.{IsWellFormed};
ghost use Rattle.alone_model.specs.Network.{with_ports, port_of, is_due};
ghost use Rattle.alone_model.specs.App.{opening_part};
ghost use Rattle.alone_model.specs.inner.Stretch.{part_steps, HasItsPorts};
ghost use Rattle.alone_model.specs.inner.Exchange.{after_leaving, after_arriving, flit_of};

use crate::exchange::{Arrival, Flight, Sender, is_due, list_arrivals, list_senders};
use crate::part::RunningPart;
use bundle_model::{Bundle, End};
use platform_model::Platform;
use soc_base::{Flit, LAST_CYCLE, NoMemory};
use std::alloc::Global;

/// An application between two cycles: the parts of its bundle, in the order of the file, and the flits on
/// their way, the latest first.
#[derive(Drop)]
pub struct Application<'b> {
    parts: Vec<RunningPart<'b>>,
    flying: Vec<Flight>,
    // The channels that inject in the slot at hand, and what arrives in it.
    senders: Vec<Sender>,
    arrivals: Vec<Arrival>,
}

// Makes each part of a bundle as it is when the application is granted.
fn open_all<'b>(
    alloc: Global,
    platform: &Platform,
    bundle: &'b Bundle,
) -> Result<Vec<RunningPart<'b>>, NoMemory>
    requires { IsWellFormed platform.now bundle.now }
    ensures { IfOk result (λ parts. parts.items ≡ map (opening_part platform.now) bundle.entry.now.parts) }
{
    let mut parts = Vec::with_capacity(alloc, bundle.parts.len())?;
    for part in bundle.parts.as_slice() {
        parts.push_reserved(RunningPart::new(alloc, platform, part)?);
    }
    Ok(parts)
}

// Does the cycles from `from` to `to - 1` of each part, where the application was granted from cycle
// `start` on.
fn run_each(parts: &mut Vec<RunningPart<'_>>, platform: &Platform, start: u64, from: u64, to: u64)
    requires ordered { from ≤ to }
    requires bounded { to ≤ LAST_CYCLE }
    ensures { parts.new.items ≡ map (part_steps platform.now start from (to - from)) parts.old.items }
{
    for part in parts.iter_mut() {
        part.run(platform, start, from, to);
    }
}

// Injects from the ports that the senders leave.
fn leave_all(parts: &mut Vec<RunningPart<'_>>, senders: &[Sender])
    ensures { parts.new.items ≡ map (with_ports (after_leaving senders.now)) parts.old.items }
{
    for part in parts.iter_mut() {
        part.leave(senders);
    }
}

// Delivers what arrives.
fn arrive_all(parts: &mut Vec<RunningPart<'_>>, arrivals: &[Arrival])
    ensures { parts.new.items ≡ map (with_ports (after_arriving arrivals.now)) parts.old.items }
{
    for part in parts.iter_mut() {
        part.arrive(arrivals);
    }
}

// The part on a tile, if there is one.
fn part_on<'p, 'b>(parts: &'p [RunningPart<'b>], tile: u8) -> Option<&'p RunningPart<'b>>
    ensures { option_copied result ≡ find (λ p. p.part.tile == tile) parts.entry.now }
{
    parts.iter().find(|part| part.tile() == tile)
}

// The flit that the port at an end injects next.
fn flit_from(parts: &[RunningPart<'_>], end: End) -> Flit
    ensures { result ≡ (inject (port_of parts.now end)).0 }
{
    match part_on(parts, end.tile) {
        Some(part) => part.next_flit(end.port),
        None => Flit {
            word: None,
            credits: 0,
        },
    }
}

// Makes the flit that a channel injects in a slot.
fn flight_of(parts: &[RunningPart<'_>], slot: u64, sender: &Sender) -> Flight
    ensures { result ≡ flit_of parts.now slot sender.now }
{
    Flight {
        number: sender.number,
        since: slot,
        flit: flit_from(parts, sender.from),
    }
}

// Makes the flits that channels inject in a slot, with room for as many more.
fn new_flights(
    alloc: Global,
    parts: &[RunningPart<'_>],
    slot: u64,
    senders: &[Sender],
) -> Result<Vec<Flight>, NoMemory>
    ensures { IfOk result (λ flights. flights.items ≡ map (flit_of parts.now slot) senders.now) }
{
    let mut flights = Vec::with_capacity(alloc, senders.len())?;
    for sender in senders {
        flights.push_reserved(flight_of(parts, slot, sender));
    }
    Ok(flights)
}

// Drops the flits that are due in a slot.
fn keep_flying(flying: &mut Vec<Flight>, bundle: &Bundle, slot: u64)
    ensures { flying.new.items ≡ filter (λ f. not (is_due bundle.now slot f)) flying.old.items }
{
    flying.retain(|flight| !is_due(bundle, slot, flight));
}

// Whether every part has ended.
fn have_ended(parts: &[RunningPart<'_>]) -> bool
    ensures { result ≡ true → All (λ p. has_ended p.state.log.end ≡ true) parts.now }
{
    parts.iter().all(|part| part.has_ended())
}

impl<'b> Application<'b> {
    ghost use Rattle.std.specs.Prelude.{◌++◌, []};
    ghost use Rattle.alone_model.specs.App.{opening, with_new, with_due, alone_at};
    ghost use Rattle.alone_model.specs.Slots.{app_slot};
    ghost use Rattle.alone_model.specs.inner.Told.{app_of, told};

    /// Makes an application as it is when it is granted.
    pub fn new(
        alloc: Global,
        platform: &Platform,
        bundle: &'b Bundle,
    ) -> Result<Application<'b>, NoMemory>
        requires { IsWellFormed platform.now bundle.now }
        ensures { IfOk result (λ app. app_of app ≡ opening platform.now bundle.entry.now) }
    {
        let parts = open_all(alloc, platform, bundle)?;
        Ok(Application {
            parts,
            flying: Vec::new(alloc),
            senders: Vec::new(alloc),
            arrivals: Vec::new(alloc),
        })
    }

    /// Answers the parts, in the order of the bundle.
    pub fn parts(&self) -> &[RunningPart<'b>]
        ensures { result.now ≡ self.now.parts.items }
    {
        self.parts.as_slice()
    }

    // Injects from each channel that injects in a slot.
    #[tactic(auto, using(crate::proofs::Steps::none_leaves, crate::proofs::Steps::some_leave))]
    fn send(
        &mut self,
        alloc: Global,
        platform: &Platform,
        bundle: &Bundle,
        slot: u64,
    ) -> Result<(), NoMemory>
        requires { All HasItsPorts self.old.parts.items }
        ensures { OnOk result (app_of self.new ≡ with_new platform.now bundle.now slot (app_of self.old)) }
    {
        let row = slot % u64::from(platform.table_slots);
        list_senders(&mut self.senders, bundle, row as u8)?;
        if self.senders.is_empty() {
            return Ok(());
        }
        let mut flying = new_flights(alloc, self.parts.as_slice(), slot, self.senders.as_slice())?;
        flying.extend_from_slice(self.flying.as_slice())?;
        self.flying = flying;
        leave_all(&mut self.parts, self.senders.as_slice());
        Ok(())
    }

    // Does the cycles from `from` to `to - 1` of the parts, where the application was granted from cycle
    // `start` on.
    fn run_parts(&mut self, platform: &Platform, start: u64, from: u64, to: u64)
        requires ordered { from ≤ to }
        requires bounded { to ≤ LAST_CYCLE }
        ensures { app_of self.new ≡ record (app_of self.old) {
          parts = map (part_steps platform.now start from (to - from)) self.old.parts.items;
        } }
    {
        run_each(&mut self.parts, platform, start, from, to);
    }

    // Delivers each flit that is due in a slot.
    #[tactic(auto, using(crate::proofs::Steps::none_due, crate::proofs::Steps::some_due))]
    fn receive(&mut self, bundle: &Bundle, slot: u64) -> Result<(), NoMemory>
        requires { All HasItsPorts self.old.parts.items }
        ensures { OnOk result (app_of self.new ≡ with_due bundle.now slot (app_of self.old)) }
    {
        list_arrivals(&mut self.arrivals, bundle, slot, self.flying.as_slice())?;
        if self.arrivals.is_empty() {
            return Ok(());
        }
        arrive_all(&mut self.parts, self.arrivals.as_slice());
        keep_flying(&mut self.flying, bundle, slot);
        Ok(())
    }

    // Does a slot of an application that was granted from cycle `start` on.
    fn step(
        &mut self,
        alloc: Global,
        platform: &Platform,
        bundle: &Bundle,
        start: u64,
        slot: u64,
    ) -> Result<(), NoMemory>
        requires ports { All HasItsPorts self.old.parts.items }
        requires bounded { slot * platform.now.slot_cycles + platform.now.slot_cycles ≤ LAST_CYCLE }
        ensures { OnOk result (app_of self.new ≡ app_slot platform.now bundle.now start slot (app_of self.old)) }
    {
        let slot_cycles = u64::from(platform.slot_cycles);
        let from = slot * slot_cycles;
        self.send(alloc, platform, bundle, slot)?;
        self.run_parts(platform, start, from, from + slot_cycles);
        self.receive(bundle, slot)?;
        Ok(())
    }

    // Does the slots from `start` to `end - 1` of an application that was granted at slot `start`. It stops
    // where every part has ended: then ports may change still, and what a trace tells doesn't.
    #[tactic(auto, using(crate::proofs::Run::slot_inside))]
    fn run_slots(
        &mut self,
        alloc: Global,
        platform: &Platform,
        bundle: &Bundle,
        start: u64,
        end: u64,
    ) -> Result<(), NoMemory>
        requires ports { All HasItsPorts self.old.parts.items }
        requires ordered { start ≤ end }
        requires bounded { end * platform.now.slot_cycles ≤ LAST_CYCLE }
        ensures { let step = app_slot platform.now bundle.now (start * platform.now.slot_cycles) in
            OnOk result (told (app_of self.new) ≡ told (after_steps step start (end - start) (app_of self.old))) }
    {
        let first = start * u64::from(platform.slot_cycles);
        for slot in start..end {
            if have_ended(self.parts.as_slice()) {
                return Ok(());
            }
            self.step(alloc, platform, bundle, first, slot)?;
        }
        Ok(())
    }

    /// Does the slots from `start` to `end - 1` of an application that was granted at slot `start`, or as
    /// many of them as change its trace.
    #[tactic(auto, using(crate::proofs::Run::alone_quiet, crate::proofs::Run::told_alone, crate::proofs::Steps::opening_ports))]
    pub fn run(
        &mut self,
        alloc: Global,
        platform: &Platform,
        bundle: &Bundle,
        start: u64,
        end: u64,
    ) -> Result<(), NoMemory>
        requires granted { app_of self.old ≡ opening platform.now bundle.now }
        requires ordered { start ≤ end }
        requires bounded { end * platform.now.slot_cycles ≤ LAST_CYCLE }
        ensures { OnOk result (told (app_of self.new) ≡ told (alone_at platform.now bundle.now start end)) }
    {
        if !bundle.pairs.is_empty() {
            return self.run_slots(alloc, platform, bundle, start, end);
        }
        // No part waits for another, so each has its cycles at once.
        let slot_cycles = u64::from(platform.slot_cycles);
        let first = start * slot_cycles;
        self.run_parts(platform, first, first, end * slot_cycles);
        Ok(())
    }
}
