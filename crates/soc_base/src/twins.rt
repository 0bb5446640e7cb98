//! Lists in which two items are alike.

ghost use Rattle.std.specs.Prelude.{◌≡◌};
ghost use Rattle.std.specs.List.{list_any};
ghost use Rattle.soc_base.specs.Twins.{has_twin};

/// In what two items are alike, as two links that leave one tile by one port. A type without values
/// stands for each such relation.
pub trait Likeness<T> {
    ghost use Rattle.std.specs.Prelude.{◌≡◌, Bool};

    ghost alike: { T → T → Bool };

    /// Answers whether two items are alike.
    fn are_alike(one: &T, other: &T) -> bool
        ensures { result ≡ alike one.now other.now };
}

/// Answers whether two items of a list, at different places, are alike.
pub fn has_twin<T, L: Likeness<T>>(items: &[T]) -> bool
    ensures { result ≡ has_twin L.alike items.now }
{
    match items {
        [] => false,
        [one, rest @ ..] => is_alike_any::<T, L>(one, rest) || has_twin::<T, L>(rest),
    }
}

// Whether an item is like one of the others.
fn is_alike_any<T, L: Likeness<T>>(one: &T, others: &[T]) -> bool
    ensures { result ≡ list_any (L.alike one.now) others.now }
{
    others.iter().any(|other| L::are_alike(one, other))
}

#[cfg(test)]
mod tests {
    use super::*;

    // Numbers that leave one remainder by 10.
    struct LastDigit;

    impl Likeness<u32> for LastDigit {
        ghost use Rattle.std.specs.Prelude.{◌%◌, ◌==◌};

        ghost alike = { λ one other. one % 10 == other % 10 };

        fn are_alike(one: &u32, other: &u32) -> bool {
            *one % 10 == *other % 10
        }
    }

    #[test]
    fn finds_two_that_are_alike(rt: HostRuntime) {
        let cases: [(&[u32], bool); 5] = [
            (&[], false),
            (&[7], false),
            (&[7, 8, 19], false),
            (&[7, 8, 17], true),
            (&[1, 9, 2, 19], true),
        ];
        for (items, found) in cases {
            assert_eq!(rt; has_twin::<u32, LastDigit>(items), found, "in {items:?}");
        }
    }
}
