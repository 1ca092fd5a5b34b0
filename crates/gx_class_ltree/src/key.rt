//! Keys.

use gx_ltree::Path;
use gx_sig::Sig;

/// The first labels of a path, and whether it goes on behind them.
#[derive(Debug, Drop)]
pub struct Part {
    pub path: Path,
    pub cut: bool,
}

/// The least and the greatest part of the paths below an item, and the signature of all their labels.
#[derive(Drop)]
pub struct LtreeKey<const N: usize> {
    pub low: Part,
    pub high: Part,
    pub sig: Sig<N>,
}
