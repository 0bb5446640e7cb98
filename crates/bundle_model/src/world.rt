//! What a run knows beforehand, and what is granted in it.

ghost use Rattle.std.specs.Prelude.{◌≡◌, ◌==◌, [], find, IfOk, vec_capacity};
ghost use Rattle.std.specs.Option.{option_copied};
ghost use Rattle.bundle_model.specs.Grants.{bundle_at};
ghost use Rattle.bundle_model.specs.World.{part_on};

use crate::bundle::{Bundle, Part};
use crate::rules::BRule;
use platform_model::Platform;
use soc_base::{Items, Label, NoMemory, Text};
use std::alloc::Global;

/// A bundle file by its name, and how it was judged.
#[derive(Debug, Drop)]
pub struct Named {
    /// The file's name.
    pub name: Text,
    /// Its bundle, or the least rule that it breaks.
    pub judged: Result<Bundle, BRule>,
}

/// The platform, and the bundle files that may be loaded.
#[derive(Debug, Drop)]
pub struct World {
    /// The platform.
    pub platform: Platform,
    /// The bundle files.
    pub catalog: Items<Named>,
}

impl World {
    /// Answers the bundle at a place of the catalog, if there is one and it breaks no rule.
    pub fn bundle(&self, place: u16) -> Option<&Bundle>
        ensures { option_copied result ≡ bundle_at self.entry.now place }
    {
        match self.catalog.get(usize::from(place)) {
            Some(named) => match &named.judged {
                Ok(bundle) => Some(bundle),
                Err(_) => None,
            },
            None => None,
        }
    }

    /// Answers the part on a tile of the bundle at a place of the catalog, if there is one.
    pub fn part_on(&self, tile: u8, place: u16) -> Option<&Part>
        ensures { option_copied result ≡ part_on self.entry.now tile place }
    {
        match self.bundle(place) {
            Some(bundle) => part_of(bundle, tile),
            None => None,
        }
    }
}

// The part of a bundle on a tile, if there is one.
fn part_of(bundle: &Bundle, tile: u8) -> Option<&Part>
    ensures { option_copied result ≡ find (λ part. part.tile == tile) bundle.entry.now.parts }
{
    bundle
        .parts
        .as_slice()
        .iter()
        .find(|part| part.tile == tile)
}

/// A load command's name, and the bundle that it asks for.
#[derive(Clone, Copy, Debug)]
pub struct LoadName {
    /// The load's name.
    pub label: Label,
    /// The bundle's place in the catalog.
    pub bundle: u16,
}

/// An application that was granted.
#[derive(Clone, Copy, Debug)]
pub struct Grant {
    /// The load's name.
    pub label: Label,
    /// The bundle's place in the catalog.
    pub bundle: u16,
    /// The slot at which the grant begins.
    pub start: u64,
    /// The slot at which the grant ends; none while it is open.
    pub end: Option<u64>,
}

/// The grants of a run, and how far they are settled.
#[derive(Debug, Drop)]
pub struct Schedule {
    /// The grants, in the order in which they were given.
    pub grants: Vec<Grant>,
    /// The horizon, in slots: no later command changes what happens before it.
    pub horizon: u64,
}

impl Schedule {
    /// Makes a schedule with no grant, horizon 0 and room for so many grants.
    pub fn new(alloc: Global, room: u16) -> Result<Schedule, NoMemory>
        ensures none { IfOk result (λ schedule. schedule.grants.items ≡ []) }
        ensures room { IfOk result (λ schedule. vec_capacity schedule.grants ≡ room) }
        ensures begins { IfOk result (λ schedule. schedule.horizon ≡ 0) }
    {
        let grants = Vec::with_capacity(alloc, usize::from(room))?;
        Ok(Schedule { grants, horizon: 0 })
    }
}
