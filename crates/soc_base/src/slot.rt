//! Slots of cycles.

ghost use Rattle.std.specs.Prelude.{◌≡◌, ◌<◌, ◌≤◌};
ghost use Rattle.soc_base.specs.Time.{slot_up_of, IsSlotUp};

/// Answers the slot granted for a cycle: the least slot that begins at or after it, where a slot
/// has `slot_cycles` cycles (1 to 64) and slot 0 begins at cycle 0.
pub fn slot_up(cycle: u64, slot_cycles: u8) -> u64
    requires some { 0 < slot_cycles }
    requires most { slot_cycles ≤ 64 }
    ensures granted { result ≡ slot_up_of cycle slot_cycles }
    ensures least { IsSlotUp cycle slot_cycles result }
{
    cycle.div_ceil(u64::from(slot_cycles))
}

#[cfg(test)]
mod tests {
    use super::*;

    #[test]
    fn rounds_up_to_the_least_slot(rt: HostRuntime) {
        let cases = [
            (0, 8, 0),
            (1, 8, 1),
            (8, 8, 1),
            (9, 8, 2),
            (296, 8, 37),
            (5, 1, 5),
            (1_000_000_000_000, 64, 15_625_000_000),
            (u64::MAX, 64, 288_230_376_151_711_744),
            (u64::MAX, 1, u64::MAX),
        ];
        for (cycle, slot_cycles, slot) in cases {
            assert_eq!(rt;
                slot_up(cycle, slot_cycles),
                slot,
                "at {cycle} by {slot_cycles}"
            );
        }
    }
}
