//! A walk over pages that comes back to where it was.

ghost use Rattle.std.specs.Prelude.{◌≡◌, ◌⊎◌, true, false};

/// A mark on the way of a walk over pages: one that the walk passed, which moves on after 1, 2, 4, 8, .. pages. A walk that
/// goes round in a circle meets it within four times as many pages as there are different ones on its way.
#[derive(Clone, Copy, Debug, Drop)]
pub struct Trail {
    pub mark: u64,
    left: u64,
    stride: u64,
}

impl Trail {
    /// The walk passed no page yet.
    pub fn new() -> Trail
        ensures { result.mark ≡ 0 }
    {
        Trail {
            mark: 0,
            left: 0,
            stride: 1,
        }
    }

    /// Passes a page. False where it is the mark: the walk came back to it.
    pub fn passes(&mut self, page: u64) -> bool
        ensures met { result ≡ false → page ≡ self.old.mark }
        ensures marked { (self.new.mark ≡ self.old.mark) ⊎ (self.new.mark ≡ page) }
    {
        if page == self.mark {
            return false;
        }
        if self.left == 0 {
            self.mark = page;
            self.stride = self.stride.saturating_mul(2);
            self.left = self.stride;
        } else {
            self.left -= 1;
        }
        true
    }
}
