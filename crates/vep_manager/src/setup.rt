//! What a run knows beforehand.

ghost use Rattle.std.specs.Prelude.{◌≡◌, length, nat_lt, IsTrue};
ghost use Rattle.std.specs.List.{list_all};
ghost use Rattle.vep_manager.specs.Loads.{loads_of};

use bundle_model::{LoadName, World};
use script_file::Script;
use soc_base::Items;

/// The setup of a run: the platform and the bundle files, how long it runs, the scripts of its sessions,
/// and their load commands by name.
#[derive(Debug, Drop)]
pub struct Setup {
    /// The platform, and the bundle files that scripts name.
    pub world: World,
    /// The slot at which the run ends.
    pub budget: u64,
    /// The scripts of the sessions, which are numbered from 1.
    pub scripts: Items<Script>,
    /// Each load command once, in the order of the sessions, with the catalog's entry of its name.
    pub loads: Items<LoadName>,
    /// The loads are those of the scripts.
    pub ghost loads_named: { loads ≡ loads_of world.catalog scripts },
    /// Each load names an entry that the catalog has.
    pub ghost loads_known: { IsTrue (list_all (λ load. nat_lt load.bundle (length world.catalog)) loads) },
}
