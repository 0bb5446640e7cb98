//! Whether the raw numbers of a platform file break a rule, and the least that they break.

ghost use Rattle.std.specs.Prelude.{◌≡◌, ◌||◌};
ghost use Rattle.std.specs.List.{list_all};
ghost use Rattle.soc_base.specs.Twins.{has_twin};
ghost use Rattle.platform_model.specs.Links.{joins_tiles, is_router_port, has_router_ports, leaves_alike, enters_alike};
ghost use Rattle.platform_model.specs.Rules.{is_memory, is_frame, are_costs, breaks, first_rule};

use crate::range::{divides, is_between};
use crate::raw::{RawCosts, RawLink, RawPlatform};
use crate::rules::PRule;
use soc_base::{
    LEAST_KERNEL_CYCLES, LEAST_MEMORY, Likeness, MOST_COST, MOST_KERNEL_CYCLES, MOST_LINKS,
    MOST_MEMORY, MOST_PARTITION_CYCLES, MOST_PARTITION_SLOTS, MOST_PORTS, MOST_QUEUE,
    MOST_SLOT_CYCLES, MOST_TABLE_SLOTS, MOST_TILES, ROUTER_PORTS, has_twin,
};

/// The rules of the raw numbers, in their order.
const NUMBER_RULES: [PRule; 9] = [
    PRule::P4,
    PRule::P5,
    PRule::P6,
    PRule::P7,
    PRule::P8,
    PRule::P9,
    PRule::P10,
    PRule::P11,
    PRule::P12,
];

/// Answers the least rule of P4 to P12 that the raw numbers break.
pub fn first_broken(raw: &RawPlatform) -> Option<PRule>
    ensures { result ≡ first_rule raw.now }
{
    NUMBER_RULES
        .iter()
        .copied()
        .find(|rule| is_broken(*rule, raw))
}

// Whether the raw numbers break a rule.
fn is_broken(rule: PRule, raw: &RawPlatform) -> bool
    ensures { result ≡ breaks rule raw.now }
{
    match rule {
        PRule::P4 => !is_between(raw.tiles, 1, i64::from(MOST_TILES)),
        PRule::P5 => !is_memory(raw.mem_bytes),
        PRule::P6 => {
            !(is_between(raw.slot_cycles, 1, i64::from(MOST_SLOT_CYCLES))
                && is_between(raw.table_slots, 1, i64::from(MOST_TABLE_SLOTS)))
        }
        PRule::P7 => !is_frame(raw),
        PRule::P8 => {
            !(is_between(raw.ports, 0, i64::from(MOST_PORTS))
                && is_between(raw.queue, 1, i64::from(MOST_QUEUE)))
        }
        PRule::P9 => !(raw.links.len() <= MOST_LINKS
            && join_tiles(raw.tiles, raw.links.as_slice())),
        PRule::P10 => !have_router_ports(raw.links.as_slice()),
        PRule::P11 => share_ports(raw.links.as_slice()),
        PRule::P12 => !are_in_range(&raw.costs),
        PRule::P1 | PRule::P2 | PRule::P3 => false,
    }
}

// Whether so many bytes are a tile's memory.
fn is_memory(bytes: i64) -> bool
    ensures { result ≡ is_memory bytes }
{
    is_between(bytes, i64::from(LEAST_MEMORY), i64::from(MOST_MEMORY)) && divides(16, bytes)
}

// Whether the numbers are those of a frame.
fn is_frame(raw: &RawPlatform) -> bool
    ensures { result ≡ is_frame raw.now }
{
    let kernel = (
        i64::from(LEAST_KERNEL_CYCLES),
        i64::from(MOST_KERNEL_CYCLES),
    );
    is_between(raw.kernel_cycles, kernel.0, kernel.1)
        && is_between(raw.partition_cycles, 1, i64::from(MOST_PARTITION_CYCLES))
        && is_between(raw.partition_slots, 1, i64::from(MOST_PARTITION_SLOTS))
}

// Whether each link leads from one of so many tiles to another.
fn join_tiles(tiles: i64, links: &[RawLink]) -> bool
    ensures { result ≡ list_all (joins_tiles tiles) links.now }
{
    links.iter().all(|link| joins(tiles, link))
}

// Whether a link leads from one of so many tiles to another.
fn joins(tiles: i64, link: &RawLink) -> bool
    ensures { result ≡ joins_tiles tiles link.now }
{
    0 <= link.from && link.from < tiles && 0 <= link.to && link.to < tiles && link.from != link.to
}

// Whether each link's ports are those of routers.
fn have_router_ports(links: &[RawLink]) -> bool
    ensures { result ≡ list_all has_router_ports links.now }
{
    links.iter().all(|link| is_router_port(link.out) && is_router_port(link.input))
}

// Whether a port is one of a router's.
fn is_router_port(port: i64) -> bool
    ensures { result ≡ is_router_port port }
{
    0 <= port && port < i64::from(ROUTER_PORTS)
}

// Links that leave one tile by one port.
struct Leaving;

impl Likeness<RawLink> for Leaving {
    ghost use Rattle.platform_model.specs.Links.{leaves_alike};

    ghost alike = { leaves_alike };

    fn are_alike(one: &RawLink, other: &RawLink) -> bool {
        one.from == other.from && one.out == other.out
    }
}

// Links that enter one tile by one port.
struct Entering;

impl Likeness<RawLink> for Entering {
    ghost use Rattle.platform_model.specs.Links.{enters_alike};

    ghost alike = { enters_alike };

    fn are_alike(one: &RawLink, other: &RawLink) -> bool {
        one.to == other.to && one.input == other.input
    }
}

// Whether two links leave one tile by one port, or enter one.
fn share_ports(links: &[RawLink]) -> bool
    ensures { result ≡ (has_twin leaves_alike links.now || has_twin enters_alike links.now) }
{
    has_twin::<RawLink, Leaving>(links) || has_twin::<RawLink, Entering>(links)
}

// Whether each cost is one that an instruction may have.
fn are_in_range(costs: &RawCosts) -> bool
    ensures { result ≡ are_costs costs.now }
{
    let all = [
        costs.integer,
        costs.mul,
        costs.div,
        costs.load,
        costs.store,
        costs.taken,
        costs.untaken,
        costs.jump,
        costs.device,
        costs.system,
    ];
    all.iter()
        .all(|cost| is_between(*cost, 1, i64::from(MOST_COST)))
}
