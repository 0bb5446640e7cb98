//! Judging the raw numbers of a platform file.

ghost use Rattle.std.specs.Prelude.{◌≡◌, ◌≤◌, pos, map, None, IsTrue, IfOk};
ghost use Rattle.std.specs.List.{list_all};
ghost use Rattle.soc_base.specs.declared.limits.TheConstants.{MOST_TILES, MOST_COST};
ghost use Rattle.platform_model.specs.Limits.{is_within};
ghost use Rattle.platform_model.specs.Links.{raw_link, joins_tiles, has_router_ports};
ghost use Rattle.platform_model.specs.Rules.{is_cost, are_costs, first_rule};
ghost use Rattle.platform_model.specs.Platform.{Judges, raw_costs, raw_of};
ghost use Rattle.platform_model.specs.declared.raw.TheConstants.{DEFAULT_COSTS};
ghost use Rattle.platform_model.specs.Plain.{plain_platform};

use crate::broken::first_broken;
use crate::costs::Costs;
use crate::link::Link;
use crate::platform::Platform;
use crate::raw::{DEFAULT_COSTS, RawCosts, RawLink, RawPlatform};
use crate::rules::PlatformFault;
use soc_base::{
    Items, LEAST_KERNEL_CYCLES, LEAST_MEMORY, MOST_COST, MOST_KERNEL_CYCLES, MOST_MEMORY,
    MOST_PARTITION_CYCLES, MOST_PARTITION_SLOTS, MOST_PORTS, MOST_QUEUE, MOST_SLOT_CYCLES,
    MOST_TABLE_SLOTS, MOST_TILES, NoMemory,
};
use std::alloc::Global;

impl Platform {
    /// Makes the platform that raw numbers mean. Refuses the least rule of P4 to P12 that they
    /// break.
    pub fn check(alloc: Global, raw: &RawPlatform) -> Result<Platform, PlatformFault>
        ensures rule { Judges (first_rule raw.now) result }
        ensures value { IfOk result (λ platform. raw_of platform ≡ raw.now) }
    {
        if let Some(rule) = first_broken(raw) {
            return Err(PlatformFault::Rule(rule));
        }
        let links = links_of(alloc, raw.links.as_slice())?;
        Ok(platform_of(raw, links))
    }

    /// Makes the plain platform, from which tests and examples begin.
    pub fn plain(alloc: Global) -> Result<Platform, PlatformFault>
        ensures { IfOk result (λ platform. raw_of platform ≡ plain_platform) }
    {
        Platform::check(alloc, &RawPlatform::plain(alloc))
    }
}

impl Costs {
    /// Answers the default costs: what instructions cost where a platform file doesn't say otherwise.
    pub fn standard() -> Costs
        ensures { raw_costs result ≡ DEFAULT_COSTS }
    {
        costs_of(&DEFAULT_COSTS)
    }
}

// The platform that raw numbers mean which break no rule.
fn platform_of(raw: &RawPlatform, links: Items<Link>) -> Platform
    requires unbroken { first_rule raw.now ≡ None }
    requires links { map raw_link links ≡ raw.now.links }
    ensures { raw_of result ≡ raw.now }
{
    Platform {
        tiles: byte_within(raw.tiles, 1, MOST_TILES),
        mem_bytes: within(raw.mem_bytes, LEAST_MEMORY, MOST_MEMORY),
        slot_cycles: byte_within(raw.slot_cycles, 1, MOST_SLOT_CYCLES),
        table_slots: byte_within(raw.table_slots, 1, MOST_TABLE_SLOTS),
        kernel_cycles: within(
            raw.kernel_cycles,
            u32::from(LEAST_KERNEL_CYCLES),
            u32::from(MOST_KERNEL_CYCLES),
        ) as u16,
        partition_cycles: within(raw.partition_cycles, 1, MOST_PARTITION_CYCLES),
        partition_slots: byte_within(raw.partition_slots, 1, MOST_PARTITION_SLOTS),
        ports: byte_within(raw.ports, 0, MOST_PORTS),
        queue: byte_within(raw.queue, 1, MOST_QUEUE),
        links,
        costs: costs_of(&raw.costs),
    }
}

// A raw number in its range.
fn within(number: i64, least: u32, greatest: u32) -> u32
    requires { IsTrue (is_within number (pos least) (pos greatest)) }
    ensures same { pos result ≡ number }
    ensures least { least ≤ result }
    ensures greatest { result ≤ greatest }
{
    number as u32
}

// A raw number in its range, which a byte holds.
fn byte_within(number: i64, least: u8, greatest: u8) -> u8
    requires { IsTrue (is_within number (pos least) (pos greatest)) }
    ensures same { pos result ≡ number }
    ensures least { least ≤ result }
    ensures greatest { result ≤ greatest }
{
    number as u8
}

// A cost in its range.
fn cost(cycles: i64) -> u8
    requires { IsTrue (is_cost cycles) }
    ensures same { pos result ≡ cycles }
    ensures least { 1 ≤ result }
    ensures greatest { result ≤ MOST_COST }
{
    byte_within(cycles, 1, MOST_COST)
}

// The costs that raw numbers mean.
fn costs_of(raw: &RawCosts) -> Costs
    requires { IsTrue (are_costs raw.now) }
    ensures { raw_costs result ≡ raw.now }
{
    Costs {
        integer: cost(raw.integer),
        mul: cost(raw.mul),
        div: cost(raw.div),
        load: cost(raw.load),
        store: cost(raw.store),
        taken: cost(raw.taken),
        untaken: cost(raw.untaken),
        jump: cost(raw.jump),
        device: cost(raw.device),
        system: cost(raw.system),
    }
}

// The links that raw numbers mean.
fn links_of(alloc: Global, raw: &[RawLink]) -> Result<Items<Link>, NoMemory>
    requires join { IsTrue (list_all (joins_tiles (pos MOST_TILES)) raw.now) }
    requires ports { IsTrue (list_all has_router_ports raw.now) }
    ensures { IfOk result (λ links. map raw_link links ≡ raw.now) }
{
    let mut links = Vec::new(alloc);
    for link in raw {
        links.push(link_of(link))?;
    }
    Ok(Items::from_vec(links))
}

// The link that raw numbers mean.
fn link_of(raw: &RawLink) -> Link
    requires joins { IsTrue (joins_tiles (pos MOST_TILES) raw.now) }
    requires ports { IsTrue (has_router_ports raw.now) }
    ensures { raw_link result ≡ raw.now }
{
    Link {
        from: raw.from as u8,
        out: raw.out as u8,
        to: raw.to as u8,
        input: raw.input as u8,
    }
}

#[cfg(test)]
mod tests {
    use super::*;
    use crate::rules::PRule;
    use std::test::Fail;

    // The numbers of the plain platform, in the order of the file.
    const NUMBERS: [i64; 9] = [1, 4096, 8, 8, 72, 56, 2, 2, 8];

    // The links of a platform of two tiles and of one of three: `from`, `out`, `to` and `input` of each.
    const TWO: [[i64; 4]; 2] = [[0, 0, 1, 0], [1, 0, 0, 0]];

    const THREE: [[i64; 4]; 4] = [[0, 0, 1, 0], [1, 0, 2, 0], [2, 0, 1, 1], [1, 1, 0, 0]];

    fn raw(alloc: Global, numbers: [i64; 9], costs: RawCosts) -> RawPlatform {
        RawPlatform {
            tiles: numbers[0],
            mem_bytes: numbers[1],
            slot_cycles: numbers[2],
            table_slots: numbers[3],
            kernel_cycles: numbers[4],
            partition_cycles: numbers[5],
            partition_slots: numbers[6],
            ports: numbers[7],
            queue: numbers[8],
            links: Items::new(alloc),
            costs,
        }
    }

    // So many tiles with these links, and else the plain platform's numbers.
    fn linked(alloc: Global, tiles: i64, links: &[[i64; 4]]) -> Result<RawPlatform, Fail> {
        let mut raw_links = Items::new(alloc);
        for [from, out, to, input] in links.iter().copied() {
            raw_links.push(RawLink {
                from,
                out,
                to,
                input,
            })?;
        }
        let mut raw = raw(alloc, NUMBERS, DEFAULT_COSTS);
        raw.tiles = tiles;
        raw.links = raw_links;
        Ok(raw)
    }

    // The rule that a platform's file breaks, if it breaks one.
    fn judged(alloc: Global, raw: &RawPlatform) -> Result<Option<PRule>, Fail> {
        match Platform::check(alloc, raw) {
            Ok(_) => Ok(None),
            Err(PlatformFault::Rule(rule)) => Ok(Some(rule)),
            Err(PlatformFault::NoMemory) => Err(Fail::from(PlatformFault::NoMemory)),
        }
    }

    #[test]
    fn keeps_the_numbers(rt: HostRuntime) -> Result<(), Fail> {
        let mut raw = linked(rt.alloc(), 3, &THREE)?;
        raw.table_slots = 9;
        raw.ports = 3;
        raw.queue = 7;
        let platform = Platform::check(rt.alloc(), &raw)?;
        assert_eq!(rt; platform.tiles, 3);
        assert_eq!(rt; platform.mem_bytes, 4096);
        assert_eq!(rt; platform.slot_cycles, 8);
        assert_eq!(rt; platform.table_slots, 9);
        assert_eq!(rt; platform.kernel_cycles, 72);
        assert_eq!(rt; platform.partition_cycles, 56);
        assert_eq!(rt; platform.partition_slots, 2);
        assert_eq!(rt; platform.ports, 3);
        assert_eq!(rt; platform.queue, 7);
        assert_eq!(rt; platform.links.len(), 4);
        let link = platform.links.get(2).ok_or("no link")?;
        assert_eq!(rt; (link.from, link.out, link.to, link.input), (2, 0, 1, 1));
        assert_eq!(rt; platform.costs.div, 34);
        assert_eq!(rt; platform.costs.device, 4);
        Ok(())
    }

    #[test]
    fn judges_numbers(rt: HostRuntime) -> Result<(), Fail> {
        // a number's place, its value and the rule that it breaks
        let cases = [
            (0, -1, Some(PRule::P4)),
            (0, 0, Some(PRule::P4)),
            (0, 1, None),
            (0, 2, None),
            (0, 32, None),
            (0, 33, Some(PRule::P4)),
            (1, 0, Some(PRule::P5)),
            (1, 16, None),
            (1, 24, Some(PRule::P5)),
            (1, 1_048_576, None),
            (1, 1_048_592, Some(PRule::P5)),
            (2, 0, Some(PRule::P6)),
            (2, 64, None),
            (2, 65, Some(PRule::P6)),
            (3, 0, Some(PRule::P6)),
            (3, 65, Some(PRule::P6)),
            (4, 65, Some(PRule::P7)),
            (4, 66, None),
            (4, 4097, Some(PRule::P7)),
            (5, 0, Some(PRule::P7)),
            (5, 65_537, Some(PRule::P7)),
            (6, 0, Some(PRule::P7)),
            (6, 17, Some(PRule::P7)),
            (7, -1, Some(PRule::P8)),
            (7, 17, Some(PRule::P8)),
            (8, 0, Some(PRule::P8)),
            (8, 63, None),
            (8, 64, Some(PRule::P8)),
        ];
        for (place, value, rule) in cases {
            let mut numbers = NUMBERS;
            if let Some(number) = numbers.get_mut(place) {
                *number = value;
            }
            let raw = raw(rt.alloc(), numbers, DEFAULT_COSTS);
            assert_eq!(rt; judged(rt.alloc(), &raw)?, rule, "{value} at {place}");
        }
        Ok(())
    }

    #[test]
    fn judges_in_order(rt: HostRuntime) -> Result<(), Fail> {
        let numbers = [1, 24, 8, 8, 72, 56, 2, 2, 64];
        let low = RawCosts {
            integer: 0,
            ..DEFAULT_COSTS
        };
        let high = RawCosts {
            system: 65,
            ..DEFAULT_COSTS
        };
        for (raw, rule) in [
            (raw(rt.alloc(), NUMBERS, DEFAULT_COSTS), None),
            (raw(rt.alloc(), NUMBERS, low), Some(PRule::P12)),
            (raw(rt.alloc(), NUMBERS, high), Some(PRule::P12)),
            (raw(rt.alloc(), numbers, high), Some(PRule::P5)),
        ] {
            assert_eq!(rt; judged(rt.alloc(), &raw)?, rule);
        }
        Ok(())
    }

    #[test]
    fn judges_links(rt: HostRuntime) -> Result<(), Fail> {
        // tiles, links and the rule that they break
        let cases: [(i64, &[[i64; 4]], Option<PRule>); 18] = [
            (2, &TWO, None),
            (32, &TWO, None),
            (3, &THREE, None),
            (2, &[[0, 3, 1, 3], [1, 3, 0, 3]], None),
            (2, &[[0, 6, 1, 6], [1, 0, 0, 0]], None),
            (33, &[[0, 0, 33, 7]], Some(PRule::P4)),
            (1, &TWO, Some(PRule::P9)),
            (2, &THREE, Some(PRule::P9)),
            (2, &[[-1, 0, 1, 6]], Some(PRule::P9)),
            (2, &[[0, 0, -1, 6]], Some(PRule::P9)),
            (2, &[[0, 0, 1, 6], [1, 6, 1, 0]], Some(PRule::P9)),
            (2, &[[0, 7, 2, 0]], Some(PRule::P9)),
            (2, &[[0, 7, 1, 6]], Some(PRule::P10)),
            (2, &[[0, 0, 1, 7]], Some(PRule::P10)),
            (2, &[[0, 0, 1, -1]], Some(PRule::P10)),
            (2, &[[0, 7, 1, 6], [0, 7, 1, 5]], Some(PRule::P10)),
            (2, &[[0, 3, 1, 6], [0, 3, 1, 5]], Some(PRule::P11)),
            (2, &[[0, 3, 1, 6], [0, 4, 1, 6]], Some(PRule::P11)),
        ];
        for (tiles, links, rule) in cases {
            let raw = linked(rt.alloc(), tiles, links)?;
            assert_eq!(rt; judged(rt.alloc(), &raw)?, rule, "{tiles} tiles, {links:?}");
        }
        Ok(())
    }

    #[test]
    fn counts_links(rt: HostRuntime) -> Result<(), Fail> {
        // so many links in rings of 32 tiles, and the rule that they break
        for (count, rule) in [(64, None), (128, None), (129, Some(PRule::P9))] {
            let mut links = Vec::new(rt.alloc());
            for i in 0i64..count {
                links.push([i % 32, i / 32, (i + 1) % 32, i / 32])?;
            }
            let raw = linked(rt.alloc(), 32, &links)?;
            assert_eq!(rt; judged(rt.alloc(), &raw)?, rule, "{count} links");
        }
        Ok(())
    }
}
