//! The order of keys that a split may cut.

ghost use Rattle.gx_class_ltree.specs.Sorting.{key_cmp, key_total};

use crate::LtreeKey;
use crate::parts::compare_parts;
use gx_gist::Ranked;
use std::cmp::Ordering;

impl<const N: usize> Ranked for LtreeKey<N> {
    ghost rank_cmp = { key_cmp };

    fn compare_rank(&self, other: &LtreeKey<N>) -> Ordering {
        compare_parts(&self.low, &other.low).then(compare_parts(&self.high, &other.high))
    }

    ghost ranks = { key_total N };
}
