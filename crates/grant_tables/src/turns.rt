//! Grants that end and begin in a slot.

ghost use Rattle.std.specs.Prelude.{◌≡◌, ◌&&◌, ◌<◌, ◌≤◌, ◌^◌, ◌-◌, ℕ, true, false, not};
ghost use Rattle.std.specs.List.{list_all};
ghost use Rattle.grant_tables.specs.Turns.{ends_in, begins_in, stays_in, is_quiet, AreQuiet};

use bundle_model::Grant;

/// Answers whether a grant ends in a slot, having begun before.
pub fn ends_in(grant: &Grant, slot: u64) -> bool
    ensures { result ≡ ends_in slot grant.now }
{
    match grant.end {
        Some(end) => end == slot && grant.start < end,
        None => false,
    }
}

/// Answers whether a grant begins in a slot, and has no end or a later one.
pub fn begins_in(grant: &Grant, slot: u64) -> bool
    ensures { result ≡ begins_in slot grant.now }
{
    grant.start == slot
        && match grant.end {
            Some(end) => slot < end,
            None => true,
        }
}

/// Answers whether no grant ends or begins in a slot.
pub fn is_quiet(grants: &[Grant], slot: u64) -> bool
    ensures { result ≡ list_all (λ grant. not (ends_in slot grant) && not (begins_in slot grant)) grants.now }
{
    grants
        .iter()
        .all(|grant| !ends_in(grant, slot) && !begins_in(grant, slot))
}

// The first slot from one on in which the grant ends or begins; `u64::MAX` where there is none.
fn turn_of(grant: &Grant, slot: u64) -> u64
    ensures later { slot ≤ result }
    ensures quiet { (at : ℕ) → slot ≤ at → at < result → stays_in at grant.now ≡ true }
    ensures turn { result < 2 ^ 64 - 1 → stays_in result grant.now ≡ false }
{
    let Some(end) = grant.end else {
        return if slot <= grant.start {
            grant.start
        } else {
            u64::MAX
        };
    };
    if grant.start >= end || slot > end {
        return u64::MAX;
    }
    if slot <= grant.start {
        grant.start
    } else {
        end
    }
}

/// Answers the first slot from one on in which a grant ends or begins; `u64::MAX` where there is none.
pub fn next_turn(grants: &[Grant], slot: u64) -> u64
    ensures later { slot ≤ result }
    ensures quiet { AreQuiet grants.now slot result }
    ensures turn { result < 2 ^ 64 - 1 → is_quiet grants.now result ≡ false }
{
    let mut next = u64::MAX;
    for grant in grants {
        next = next.min(turn_of(grant, slot));
    }
    next
}
