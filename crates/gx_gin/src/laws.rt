//! What holds of rising lists.

ghost use Rattle.std.specs.Prelude.{◌≡◌, ◌↔◌, ℕ, List, Contains};
ghost use Rattle.gx_gin.specs.Rising.{IsRising, rising_of};

/// Two rising lists with the same strings are the same.
pub fn one_list()
    ensures { (xs ys : List (List ℕ)) → IsRising xs → IsRising ys → ((z : List ℕ) → Contains xs z ↔ Contains ys z) → xs ≡ ys }
{}

/// Strings in rising order rise, and are just those that were given.
pub fn made_rising()
    ensures rising { (xs : List (List ℕ)) → IsRising (rising_of xs) }
    ensures same { (xs : List (List ℕ)) (z : List ℕ) → Contains (rising_of xs) z ↔ Contains xs z }
{}
