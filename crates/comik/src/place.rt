//! Where a cycle lies in the frame.

ghost use Rattle.std.specs.Prelude.{ℕ, ◌≡◌, ◌+◌, ◌≤◌};
ghost use Rattle.soc_base.specs.Time.{instance_cycles};
ghost use Rattle.soc_base.specs.Frame.{IsFrame};
ghost use Rattle.comik.specs.Places.{frame_place, IsPlace};

use soc_base::{Frame, instance_of};

/// Where a cycle lies in the frame.
#[derive(Clone, Copy)]
pub struct FramePlace {
    /// The partition slot that its instance serves, from 0 to `slots - 1`.
    pub served: u8,
    /// The distance in cycles from its instance's beginning.
    pub offset: u32,
}

/// Answers where a cycle lies in the frame. It divides.
pub fn frame_place(frame: &Frame, cycle: u64) -> FramePlace
    ensures place { result ≡ frame_place frame.now cycle }
    ensures valid { IsPlace frame.now result }
{
    let (instance, offset) = instance_of(frame, cycle);
    FramePlace {
        served: (instance % u64::from(frame.slots)) as u8,
        offset: offset as u32,
    }
}

/// Answers the cycles of an instance, and the number of partition slots.
pub fn sizes(frame: &Frame) -> (u32, u8)
    ensures length { result.0 ≡ instance_cycles frame.now }
    ensures slots { result.1 ≡ frame.now.slots }
    ensures valid { IsFrame frame.now }
{
    (u32::from(frame.kernel) + frame.partition, frame.slots)
}

/// Answers where the cycle lies that comes `count` cycles after one, at most the first of the next
/// instance. It only counts.
#[tactic(auto, using(crate::proofs::Places::place_within, crate::proofs::Places::place_next, crate::proofs::Places::place_around))]
pub fn place_after(frame: &Frame, at: FramePlace, count: u32) -> FramePlace
    requires place { IsPlace frame.now at }
    requires within { at.offset + count ≤ instance_cycles frame.now }
    ensures valid { IsPlace frame.now result }
    ensures after { (cycle : ℕ) → at ≡ frame_place frame.now cycle → result ≡ frame_place frame.now (cycle + count) }
{
    let (length, slots) = sizes(frame);
    if at.offset + count < length {
        return FramePlace {
            served: at.served,
            offset: at.offset + count,
        };
    }
    FramePlace {
        served: if at.served + 1 < slots {
            at.served + 1
        } else {
            0
        },
        offset: 0,
    }
}
