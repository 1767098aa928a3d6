//! Values that a line has as one letter.
ghost use Rattle.std.specs.Prelude.{◌≡◌};
ghost use Rattle.fields.specs.Letters.{ReadAs};
ghost use Rattle.messages.specs.Codes.{side_letter, trade_side_letter, display_letter, customer_letter, side_letters, trade_side_letters, display_letters, customer_letters};
ghost use Rattle.messages.specs.Letters.{side_member, trade_side_member, display_member, customer_member};

use fields::letter::{Letter, Lettered, UnknownLetter};
use std::marker::PhantomData;

#[derive(Clone, Copy, PartialEq, Eq, Debug)]
pub enum Side {
    Buy,
    Sell,
}

/// A trade's line says buy, whatever the side of the order that rested.
#[derive(Clone, Copy, PartialEq, Eq, Debug)]
pub enum TradeSide {
    Buy,
}

/// Whether the order is part of the quote that the exchange gives the SIP, the securities
/// information processor, which joins the quotes of all exchanges.
#[derive(Clone, Copy, PartialEq, Eq, Debug)]
pub enum Display {
    Quoted,
    Unquoted,
}

#[derive(Clone, Copy, PartialEq, Eq, Debug)]
pub enum Customer {
    Retail,
    Blank,
}

pub const DISPLAY: Letter<Display> = Letter(PhantomData);

pub const CUSTOMER: Letter<Customer> = Letter(PhantomData);

impl TryFrom<u8> for Side {
    type Error = UnknownLetter;

    ghost try_from_gives = { ReadAs side_letters side_letter };

    fn try_from(byte: u8) -> Result<Side, UnknownLetter> {
        match byte {
            b'B' => Ok(Side::Buy),
            b'S' => Ok(Side::Sell),
            _ => Err(UnknownLetter(byte)),
        }
    }
}

impl From<Side> for u8 {
    ghost from_gives = { λ side byte. byte ≡ side_letter side };

    fn from(side: Side) -> u8 {
        match side {
            Side::Buy => b'B',
            Side::Sell => b'S',
        }
    }
}

impl Lettered for Side {
    ghost letters = { side_letters };

    ghost written = { side_letter };

    ghost member = { side_member };

    fn byte(&self) -> u8 {
        (*self).into()
    }

    ghost reads = { λ _ _ read. read };
}

impl TryFrom<u8> for TradeSide {
    type Error = UnknownLetter;

    ghost try_from_gives = { ReadAs trade_side_letters trade_side_letter };

    fn try_from(byte: u8) -> Result<TradeSide, UnknownLetter> {
        match byte {
            b'B' => Ok(TradeSide::Buy),
            _ => Err(UnknownLetter(byte)),
        }
    }
}

impl From<TradeSide> for u8 {
    ghost from_gives = { λ side byte. byte ≡ trade_side_letter side };

    fn from(side: TradeSide) -> u8 {
        match side {
            TradeSide::Buy => b'B',
        }
    }
}

impl Lettered for TradeSide {
    ghost letters = { trade_side_letters };

    ghost written = { trade_side_letter };

    ghost member = { trade_side_member };

    fn byte(&self) -> u8 {
        (*self).into()
    }

    ghost reads = { λ _ _ read. read };
}

impl TryFrom<u8> for Display {
    type Error = UnknownLetter;

    ghost try_from_gives = { ReadAs display_letters display_letter };

    fn try_from(byte: u8) -> Result<Display, UnknownLetter> {
        match byte {
            b'Y' => Ok(Display::Quoted),
            b'N' => Ok(Display::Unquoted),
            _ => Err(UnknownLetter(byte)),
        }
    }
}

impl From<Display> for u8 {
    ghost from_gives = { λ display byte. byte ≡ display_letter display };

    fn from(display: Display) -> u8 {
        match display {
            Display::Quoted => b'Y',
            Display::Unquoted => b'N',
        }
    }
}

impl Lettered for Display {
    ghost letters = { display_letters };

    ghost written = { display_letter };

    ghost member = { display_member };

    fn byte(&self) -> u8 {
        (*self).into()
    }

    ghost reads = { λ _ _ read. read };
}

impl TryFrom<u8> for Customer {
    type Error = UnknownLetter;

    ghost try_from_gives = { ReadAs customer_letters customer_letter };

    fn try_from(byte: u8) -> Result<Customer, UnknownLetter> {
        match byte {
            b'R' => Ok(Customer::Retail),
            b' ' => Ok(Customer::Blank),
            _ => Err(UnknownLetter(byte)),
        }
    }
}

impl From<Customer> for u8 {
    ghost from_gives = { λ customer byte. byte ≡ customer_letter customer };

    fn from(customer: Customer) -> u8 {
        match customer {
            Customer::Retail => b'R',
            Customer::Blank => b' ',
        }
    }
}

impl Lettered for Customer {
    ghost letters = { customer_letters };

    ghost written = { customer_letter };

    ghost member = { customer_member };

    fn byte(&self) -> u8 {
        (*self).into()
    }

    ghost reads = { λ _ _ read. read };
}
