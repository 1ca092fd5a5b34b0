//! What holds of keys.

ghost use Rattle.std.specs.Prelude.{◌≡◌, ℕ, ◌≤◌, ℤ, List, ◌||◌};
ghost use Rattle.gx_class_intset.specs.declared.interval.Interval.{Interval};
ghost use Rattle.gx_class_intset.specs.Intervals.{has, together, reduced};
ghost use Rattle.gx_class_intset.specs.JoinLaws.{JoinsLeast};

/// Of a key that was reduced, no pair of neighbours that were joined had a greater gap than one that was kept apart.
pub fn least_gaps_are_joined()
    ensures { (limit : ℕ) (intervals : List Interval) → 1 ≤ limit → JoinsLeast intervals (reduced limit intervals) }
{}

/// Two lists of intervals together have the numbers of both, and no others.
pub fn no_number_is_added()
    ensures { (a b : List Interval) (n : ℤ) → has (together a b) n ≡ (has a n || has b n) }
{}
