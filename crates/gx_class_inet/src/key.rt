//! Keys.

/// What addresses of one family have in common: their least mask, and the number of their first
/// bits that are the same. The address has these bits, and zeros behind them.
#[derive(Clone, Copy, Debug, PartialEq, Eq)]
pub struct Net {
    pub v6: bool,
    pub mask: u8,
    pub common: u8,
    pub address: u128,
}

/// What the addresses below an item have in common, or that they are of both families.
#[derive(Clone, Copy, Debug, PartialEq, Eq)]
pub enum InetKey {
    Mixed,
    Family(Net),
}
