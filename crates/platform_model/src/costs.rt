//! What instructions cost.

ghost use Rattle.std.specs.Prelude.{◌<◌, ◌≤◌};
ghost use Rattle.soc_base.specs.declared.limits.TheConstants.{MOST_COST};

/// What instructions cost on a platform, in cycles from 1 to `MOST_COST`.
#[derive(Clone, Copy, Debug)]
pub struct Costs {
    /// An instruction on integers with no row of its own.
    pub integer: u8,
    /// A multiplication.
    pub mul: u8,
    /// A division or a remainder.
    pub div: u8,
    /// A load from an address below 0x80000000.
    pub load: u8,
    /// A store to an address below 0x80000000.
    pub store: u8,
    /// A branch that is taken.
    pub taken: u8,
    /// A branch that isn't taken.
    pub untaken: u8,
    /// A jump.
    pub jump: u8,
    /// A load or a store at an address from 0x80000000 on.
    pub device: u8,
    /// FENCE, ECALL and EBREAK.
    pub system: u8,
    pub ghost integer_in_range: { (0 < integer) × (integer ≤ MOST_COST) },
    pub ghost mul_in_range: { (0 < mul) × (mul ≤ MOST_COST) },
    pub ghost div_in_range: { (0 < div) × (div ≤ MOST_COST) },
    pub ghost load_in_range: { (0 < load) × (load ≤ MOST_COST) },
    pub ghost store_in_range: { (0 < store) × (store ≤ MOST_COST) },
    pub ghost taken_in_range: { (0 < taken) × (taken ≤ MOST_COST) },
    pub ghost untaken_in_range: { (0 < untaken) × (untaken ≤ MOST_COST) },
    pub ghost jump_in_range: { (0 < jump) × (jump ≤ MOST_COST) },
    pub ghost device_in_range: { (0 < device) × (device ≤ MOST_COST) },
    pub ghost system_in_range: { (0 < system) × (system ≤ MOST_COST) },
}
