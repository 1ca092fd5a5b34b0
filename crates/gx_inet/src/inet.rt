//! The value.

/// An address of IPv4 or IPv6 with the number of its leading bits that name the network.
/// Valid where the mask is at most the family's width (32 or 128) and the address fits that width.
#[derive(Clone, Copy, Debug, PartialEq, Eq)]
pub struct Inet {
    pub v6: bool,
    pub mask: u8,
    pub address: u128,
}

/// The operators `= <> < <= > >= << <<= >> >>= &&`, in this order.
#[derive(Clone, Copy, Debug, PartialEq, Eq)]
pub enum InetOp {
    Equal,
    NotEqual,
    Less,
    LessEqual,
    Greater,
    GreaterEqual,
    Within,
    WithinEqual,
    Holds,
    HoldsEqual,
    Meets,
}
