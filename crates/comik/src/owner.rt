//! The owners of the partition slots: for each slot the number of the part that owns it, or none.

ghost use Rattle.std.specs.Prelude.{ℕ, ◌≡◌, ◌<◌, ◌≤◌, ◌↔◌, length, map, get_or, None, IsTrue};
ghost use Rattle.std.specs.Int.{bit_at};
ghost use Rattle.comik.specs.Kernel.{without};
ghost use Rattle.comik.specs.Parts.{claimed_slot, claimed};

/// Answers an owner, but none where it is the part that leaves.
pub fn without(part: u8, owner: Option<u8>) -> Option<u8>
    ensures { result ≡ without part owner }
{
    match owner {
        Some(other) if other == part => None,
        _ => owner,
    }
}

/// Takes a part's partition slots from it.
pub fn free(owners: &mut [Option<u8>], part: u8)
    ensures { owners.new ≡ map (without part) owners.old }
{
    for owner in owners.iter_mut() {
        *owner = without(part, *owner);
    }
}

// Gives a part one of the partition slots, if it is in a set.
fn claim_slot(owners: &mut [Option<u8>], slots: u16, part: u8, slot: usize)
    requires inside { slot < length owners.old }
    requires most { length owners.old ≤ 16 }
    ensures { owners.new ≡ claimed_slot slots part slot owners.old }
{
    if (slots >> slot) % 2 == 1 {
        owners[slot] = Some(part);
    }
}

/// Gives a part those of the partition slots that are in a set, whose bit k is slot k.
#[tactic(auto, using(soc_base::proofs::Laws::steps_none, soc_base::proofs::Laws::steps_more))]
pub fn claim(owners: &mut [Option<u8>], slots: u16, part: u8)
    requires { length owners.old ≤ 16 }
    ensures { owners.new ≡ claimed slots part owners.old }
{
    for slot in 0..owners.len() {
        claim_slot(owners, slots, part, slot);
    }
}

/// Answers whether no partition slot of a set, whose bit k is slot k, is owned.
pub fn is_free(owners: &[Option<u8>], slots: u16) -> bool
    requires { length owners.now ≤ 16 }
    ensures { IsTrue result ↔ ((slot : ℕ) → bit_at slots slot ≡ 1 → get_or owners.now slot None ≡ None) }
{
    for slot in 0..owners.len() {
        if (slots >> slot) % 2 == 1 && owners[slot].is_some() {
            return false;
        }
    }
    true
}
