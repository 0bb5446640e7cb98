//! Entries of the channels of a bundle, installed in the tables of one tile.

ghost use Rattle.std.specs.Prelude.{◌≡◌, ◌+◌, ◌%◌, ◌≤◌, ◌^◌, ◌==◌, if◌then◌else◌, [], ◌∷◌};
ghost use Rattle.std.specs.List.{flat_map};
ghost use Rattle.bundle_model.specs.Ways.{way_of, pair_ways};
ghost use Rattle.tdm_network.specs.Rows.{installed};
ghost use Rattle.tdm_network.specs.declared.entries.Source.TheVariants.{Local};
ghost use Rattle.grant_tables.specs.Entries.{link_of, last_input, link_entries, slot_entries, way_entries, bundle_entries, entries_on};
ghost use Rattle.grant_tables.specs.Tables.{with_entries};
ghost use Rattle.grant_tables.specs.inner.Room.{HaveRoom};

use bundle_model::{Bundle, Channel, End, Pair};
use platform_model::{Link, Platform};
use soc_base::Label;
use tdm_network::{SlotTables, Source, TableEntry};

/// The tile whose tables get entries, and the label that they are installed for.
#[derive(Clone, Copy)]
pub(crate) struct Site {
    pub tile: u8,
    pub label: Label,
}

// Installs the entries of a bundle that stand on the tile.
pub(crate) fn install_bundle(
    tables: &mut SlotTables,
    platform: &Platform,
    site: Site,
    bundle: &Bundle,
)
    requires room { HaveRoom platform.now.table_slots (entries_on site.tile (bundle_entries platform.now bundle.now)) tables.old }
    ensures { tables.new ≡ with_entries site.label (entries_on site.tile (bundle_entries platform.now bundle.now)) tables.old }
{
    for pair in bundle.pairs.as_slice() {
        install_pair(tables, platform, site, pair);
    }
}

// Installs those of a pair: there, and back.
fn install_pair(tables: &mut SlotTables, platform: &Platform, site: Site, pair: &Pair)
    requires room { HaveRoom platform.now.table_slots
        (entries_on site.tile (flat_map (way_entries platform.now) (pair_ways pair.now))) tables.old }
    ensures { tables.new ≡ with_entries site.label
        (entries_on site.tile (flat_map (way_entries platform.now) (pair_ways pair.now))) tables.old }
{
    install_way(tables, platform, site, pair.a, pair.b, &pair.there);
    install_way(tables, platform, site, pair.b, pair.a, &pair.back);
}

// Installs those of a channel between two ends.
fn install_way(
    tables: &mut SlotTables,
    platform: &Platform,
    site: Site,
    from: End,
    to: End,
    channel: &Channel,
)
    requires room { HaveRoom platform.now.table_slots
        (entries_on site.tile (way_entries platform.now (way_of from to channel.now))) tables.old }
    ensures { tables.new ≡ with_entries site.label
        (entries_on site.tile (way_entries platform.now (way_of from to channel.now))) tables.old }
{
    for slot in channel.slots.as_slice() {
        install_slot(tables, platform, site, from, to, channel, *slot);
    }
}

// Installs those of an injection slot: the injection, the links, the delivery.
fn install_slot(
    tables: &mut SlotTables,
    platform: &Platform,
    site: Site,
    from: End,
    to: End,
    channel: &Channel,
    slot: u8,
)
    requires room { HaveRoom platform.now.table_slots
        (entries_on site.tile (slot_entries platform.now (way_of from to channel.now) slot)) tables.old }
    ensures { tables.new ≡ with_entries site.label
        (entries_on site.tile (slot_entries platform.now (way_of from to channel.now) slot)) tables.old }
{
    let path = channel.path.as_slice();
    let port = from.port;
    let entry = TableEntry::Inject { slot, port };
    install_on(tables, platform, site, from.tile, entry);
    install_links(tables, platform, site, path, slot);
    let slot = slots_later(platform, slot, path.len());
    let input = last_input(platform, path);
    let port = to.port;
    let entry = TableEntry::Deliver { slot, input, port };
    install_on(tables, platform, site, to.tile, entry);
}

// Installs those of the links of a path, whose flit is injected in a slot.
fn install_links(tables: &mut SlotTables, platform: &Platform, site: Site, path: &[u8], slot: u8)
    requires room { HaveRoom platform.now.table_slots
        (entries_on site.tile (link_entries platform.now (slot + 1) Local path.now)) tables.old }
    ensures { tables.new ≡ with_entries site.label
        (entries_on site.tile (link_entries platform.now (slot + 1) Local path.now)) tables.old }
{
    let mut source = Source::Local;
    for (hop, number) in path.iter().enumerate() {
        let link = link_of(platform, *number);
        let slot = slots_later(platform, slot, hop + 1);
        let out = link.out;
        let entry = TableEntry::Out { out, slot, source };
        install_on(tables, platform, site, link.from, entry);
        source = Source::Input(link.input);
    }
}

// Installs an entry of the tables of a tile if it is the site's.
fn install_on(tables: &mut SlotTables, platform: &Platform, site: Site, tile: u8, entry: TableEntry)
    requires room { tile ≡ site.tile → HaveRoom platform.now.table_slots (entry ∷ []) tables.old }
    ensures { tables.new ≡ (if tile == site.tile then installed site.label entry tables.old else tables.old) }
{
    if tile == site.tile {
        tables.install(site.label, entry);
    }
}

// The link of a number. One that the platform hasn't is of noughts.
#[tactic(auto, using(crate::proofs::Wired::no_link))]
fn link_of(platform: &Platform, number: u8) -> Link
    ensures { result ≡ link_of platform.now number }
{
    match platform.links.get(usize::from(number)) {
        Some(link) => *link,
        None => Link {
            from: 0,
            out: 0,
            to: 0,
            input: 0,
        },
    }
}

// The input at which the last link of a path ends.
fn last_input(platform: &Platform, path: &[u8]) -> u8
    ensures { result ≡ last_input platform.now path.now }
{
    let number = match path.last() {
        Some(number) => *number,
        None => 0,
    };
    link_of(platform, number).input
}

// The slot of the tables so many slots after a slot.
fn slots_later(platform: &Platform, slot: u8, count: usize) -> u8
    requires { count ≤ 2 ^ 63 }
    ensures { result ≡ (slot + count) % platform.now.table_slots }
{
    let later = (usize::from(slot) + count) % usize::from(platform.table_slots);
    later as u8
}
