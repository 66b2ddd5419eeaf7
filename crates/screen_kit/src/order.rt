//! What screens look at.
ghost use Rattle.std.specs.Prelude.{◌≡◌};
ghost use Rattle.screen_kit.specs.Repeat.{is_same};

use fix_orders::OrderKind;

/// The terms of a run that screens are armed with.
#[derive(Clone, Copy, Debug, PartialEq, Eq)]
pub struct Terms {
    /// How many of the orders before an order may not be the same: 0 to 64 by a limit file.
    pub repeat: u32,
}

/// An order as screens see it, with the terms of its symbol.
#[derive(Clone, Copy, Debug, PartialEq, Eq)]
pub struct Order {
    /// The account's place among the account rows, from 0.
    pub account: u32,
    /// The symbol's place among the symbol rows, from 0.
    pub symbol: u32,
    /// Side (54), its byte.
    pub side: u8,
    /// OrdType (40).
    pub kind: OrderKind,
    /// OrderQty (38) in whole units.
    pub quantity: u64,
    /// Price (44) in ten-thousandths of a currency unit; 0 of a market order.
    pub price: u64,
    /// The least price of the symbol, in ten-thousandths of a currency unit.
    pub low: u64,
    /// The largest price of the symbol, in ten-thousandths of a currency unit.
    pub high: u64,
    /// The largest quantity of an order in the symbol, in whole units.
    pub size: u64,
}

impl Order {
    /// Whether both have the same account, symbol, side, kind, quantity and price.
    pub(crate) fn is_same(&self, other: &Order) -> bool
        ensures { result ≡ is_same self.now other.now }
    {
        self.account == other.account
            && self.symbol == other.symbol
            && self.side == other.side
            && self.kind == other.kind
            && self.quantity == other.quantity
            && self.price == other.price
    }
}
