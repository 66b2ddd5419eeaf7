//! Sides and types of an order, by the bytes of FIX.
ghost use Rattle.std.specs.Prelude.{◌≡◌};
ghost use Rattle.fix_orders.specs.Sides.{side_of, byte_of, order_kind_of};

use crate::message::OrderKind;
use fix_fields::Spelling;

/// Side (54).
#[derive(Clone, Copy, Debug, PartialEq, Eq)]
pub enum Side {
    /// 54=1.
    Buy,
    /// 54=2.
    Sell,
    /// 54=5.
    SellShort,
    /// 54=6.
    SellShortExempt,
}

impl Side {
    /// The side of this text: `Range` where no side has it.
    pub fn read(text: &[u8]) -> Result<Side, Spelling>
        ensures { result ≡ side_of text.now }
    {
        match text {
            b"1" => Ok(Side::Buy),
            b"2" => Ok(Side::Sell),
            b"5" => Ok(Side::SellShort),
            b"6" => Ok(Side::SellShortExempt),
            _ => Err(Spelling::Range),
        }
    }

    /// The byte of Side (54).
    pub fn byte(self) -> u8
        ensures { result ≡ byte_of self }
    {
        match self {
            Side::Buy => b'1',
            Side::Sell => b'2',
            Side::SellShort => b'5',
            Side::SellShortExempt => b'6',
        }
    }
}

impl OrderKind {
    /// The order type of this text: `Range` where it isn't 1 or 2.
    pub fn read(text: &[u8]) -> Result<OrderKind, Spelling>
        ensures { result ≡ order_kind_of text.now }
    {
        match text {
            b"1" => Ok(OrderKind::Market),
            b"2" => Ok(OrderKind::Limit),
            _ => Err(Spelling::Range),
        }
    }
}
