//! Laws of keys.

ghost use Rattle.std.specs.Prelude.{◌≡◌, ◌≢◌, ℕ, ◌-◌, ◌/◌, ◌^◌, ◌<◌, ◌≤◌};
ghost use Rattle.gx_class_inet.specs.Keys.{shared};

/// Two addresses have as many first bits in common as `shared` says, and up to the limit no more.
pub fn no_more_bits_are_shared()
    ensures same { (w x y limit : ℕ) → x < 2 ^ w → y < 2 ^ w → x / 2 ^ (w - shared w x y limit) ≡ y / 2 ^ (w - shared w x y limit) }
    ensures most { (w x y limit n : ℕ) → shared w x y limit < n → n ≤ limit → x / 2 ^ (w - n) ≢ y / 2 ^ (w - n) }
{}
