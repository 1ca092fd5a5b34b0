//! Laws of openings.

ghost use Rattle.std.specs.Prelude.{◌≡◌, ℕ};
ghost use Rattle.gx_words.specs.Image.{Image};
ghost use Rattle.gx_pager.specs.Openings.{OpenBroken};

/// A disk is refused for one reason at most, the first one, with one place and one pair of numbers.
pub fn one_reason()
    ensures { (image : Image) (at expected found place wanted there : ℕ) → OpenBroken image at expected found → OpenBroken image place wanted there
        → (at ≡ place) × (expected ≡ wanted) × (found ≡ there) }
{}
