//! The frame by which partitions share a core, and when a part runs (CoMik: microkernel slots of a
//! fixed length alternate with partition slots).

ghost use Rattle.std.specs.Prelude.{◌≡◌, ◌<◌, ◌==◌};
ghost use Rattle.std.specs.Int.{bit_at};
ghost use Rattle.soc_base.specs.Time.{instance_at, offset_at, is_among, runs};
ghost use Rattle.soc_base.specs.Slots.{slots_of};
ghost use Rattle.soc_base.specs.Frame.{IsFrame};

use std::marker::Model;

/// The times of a frame: an instance has `kernel` microkernel cycles and then `partition` cycles for
/// one of the partition slots 0 to `slots - 1`, each slot in turn.
#[derive(Clone, Copy, Debug)]
pub struct Frame {
    /// The microkernel cycles of an instance, from 66 to 4096.
    pub kernel: u16,
    /// The partition cycles of an instance, from 1 to 65536.
    pub partition: u32,
    /// The number of partition slots, from 1 to 16.
    pub slots: u8,
}

impl Model for Frame {
    ghost use Rattle.soc_base.specs.Time.{FrameTimes};
    ghost use Rattle.soc_base.specs.Frame.{IsFrame};

    ghost Value = { FrameTimes };

    ghost view = { λ f. record { kernel = f.kernel; partition = f.partition; slots = f.slots } };

    ghost invariant = { λ f. IsFrame (record { kernel = f.kernel; partition = f.partition; slots = f.slots }) };

    ghost inverse = { λ v. record { kernel = v.kernel; partition = v.partition; slots = v.slots } };
}

/// Answers the instance that a cycle lies in, counted from 0, and the cycle's offset, its distance in
/// cycles from the instance's beginning.
pub fn instance_of(frame: &Frame, cycle: u64) -> (u64, u64)
    ensures instance { result.0 ≡ instance_at frame.now cycle }
    ensures offset { result.1 ≡ offset_at frame.now cycle }
    ensures valid { IsFrame frame.now }
{
    let length = u64::from(frame.kernel) + u64::from(frame.partition);
    (cycle / length, cycle % length)
}

/// Answers whether a partition slot, from 0 to 15, is in a set, whose bit k is slot k.
#[tactic(auto, using(crate::proofs::Slots::among_slots))]
pub fn has_slot(slots: u16, slot: u8) -> bool
    requires { slot < 16 }
    ensures among { result ≡ is_among slot (slots_of slots) }
    ensures bit { result ≡ (bit_at slots slot == 1) }
{
    (slots >> slot) % 2 == 1
}

/// Answers whether a part with a set of partition slots, of an application that was granted from
/// cycle `start` on, runs in a cycle: past the microkernel's cycles, in an instance of its own that
/// began at the start or later.
pub fn runs(frame: &Frame, slots: u16, start: u64, cycle: u64) -> bool
    ensures { result ≡ runs frame.now (slots_of slots) start cycle }
{
    let (instance, offset) = instance_of(frame, cycle);
    let served = instance % u64::from(frame.slots);
    let length = u64::from(frame.kernel) + u64::from(frame.partition);
    offset >= u64::from(frame.kernel) && has_slot(slots, served as u8) && instance * length >= start
}

#[cfg(test)]
mod tests {
    use super::*;

    #[test]
    fn a_part_runs_past_the_microkernel_in_its_own_instances(rt: HostRuntime) {
        let frame = Frame {
            kernel: 72,
            partition: 56,
            slots: 2,
        };
        // slots, start, cycle, whether it runs
        let cases = [
            (1, 0, 71, false),
            (1, 0, 72, true),
            (1, 0, 127, true),
            (1, 0, 128, false),
            (1, 0, 200, false),
            (1, 0, 328, true),
            (2, 0, 200, true),
            (3, 0, 200, true),
            (1, 8, 72, false),
            (1, 8, 328, true),
            (1, 256, 328, true),
            (1, 257, 328, false),
        ];
        for (slots, start, cycle, answer) in cases {
            assert_eq!(rt;
                runs(&frame, slots, start, cycle),
                answer,
                "{slots} from {start} at {cycle}"
            );
        }
    }
}
