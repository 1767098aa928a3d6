//! The lines that give the terms of an order. Those of one kind differ from those of another in the
//! letter, in how many bytes the symbol has, and in what follows the price.
ghost use Rattle.std.specs.Prelude.{◌≡◌, Ok, Err, MatchResult};
ghost use Rattle.layout.specs.Fields.{read_fields, check_fields, put_fields};
ghost use Rattle.layout.specs.Slots.{choice};
ghost use Rattle.fields.specs.Slots.{text_slot};
ghost use Rattle.messages.specs.Values.{terms_then};
ghost use Rattle.terms.specs.Terms.{terms_fields_then};

use crate::termed::Termed;
use fields::field::Field;
use fields::letter::Letter;
use fields::mark::Mark;
use fields::numeral::{ID, PRICE, SHARES, TIME};
use fields::padded::Text;
use fields::place::Place;
use fields::reading::Reading;
use layout::fault::FieldFault;
use messages::record::Terms;
use std::marker::PhantomData;

/// What a line of the kind with that letter says, which gives the symbol in that form; or the first
/// fault.
#[inline(always)]
pub fn read_terms<R: Termed>(line: &[u8], letter: u8, form: Text) -> Result<R, FieldFault>
    ensures { MatchResult result
        (λ r. read_fields letter (terms_fields_then letter (choice R.Side.letters) (text_slot form)
        (R.others (text_slot form))) line.now
        ≡ Ok (terms_then R.Side.written letter (R.terms r) (R.Termed.said r)))
        (λ e. read_fields letter (terms_fields_then letter (choice R.Side.letters) (text_slot form)
        (R.others (text_slot form))) line.now
        ≡ Err e) }
{
    let (time, rest) = TIME.read(line, Place { letter, offset: 0 })?;
    let (_, rest) = Mark { letter }.read(rest, Place { letter, offset: 8 })?;
    let (order, rest) = ID.read(rest, Place { letter, offset: 9 })?;
    let (side, rest) = Letter(PhantomData).read(rest, Place { letter, offset: 21 })?;
    let (shares, rest) = SHARES.read(rest, Place { letter, offset: 22 })?;
    let (symbol, rest) = form.read(rest, Place { letter, offset: 28 })?;
    let offset = 28 + form.width;
    let (price, rest) = PRICE.read(rest, Place { letter, offset })?;
    let terms = Terms {
        time,
        order,
        side,
        shares,
        symbol,
        price,
    };
    R::read_others(&terms, rest, letter, form)
}

/// The first field that no line of that kind could give, if there is one.
#[inline(always)]
pub fn check_terms<R: Termed>(said: &R, letter: u8, form: Text) -> Result<(), FieldFault>
    ensures { result
        ≡ check_fields letter (terms_fields_then letter (choice R.Side.letters) (text_slot form)
        (R.others (text_slot form)))
        (terms_then R.Side.written letter (R.terms said.now) (R.Termed.said said.now)) }
{
    let terms = said.terms();
    TIME.check(&terms.time, Place { letter, offset: 0 })?;
    ID.check(&terms.order, Place { letter, offset: 9 })?;
    // Every side has a letter.
    SHARES.check(&terms.shares, Place { letter, offset: 22 })?;
    form.check(&terms.symbol, Place { letter, offset: 28 })?;
    let offset = 28 + form.width;
    PRICE.check(&terms.price, Place { letter, offset })?;
    said.check_others(letter, form)
}

/// Writes each field over the bytes at its offset.
#[inline(always)]
pub fn put_terms<R: Termed>(said: &R, room: &mut [u8], letter: u8, form: Text)
    ensures { room.new
        ≡ put_fields (terms_fields_then letter (choice R.Side.letters) (text_slot form)
        (R.others (text_slot form)))
        (terms_then R.Side.written letter (R.terms said.now) (R.Termed.said said.now)) room.old }
{
    let terms = said.terms();
    TIME.put(room, 0, &terms.time);
    Mark { letter }.put(room, 8, &());
    ID.put(room, 9, &terms.order);
    Letter(PhantomData).put(room, 21, &terms.side);
    SHARES.put(room, 22, &terms.shares);
    form.put(room, 28, &terms.symbol);
    PRICE.put(room, 28 + form.width, &terms.price);
    said.put_others(room, form);
}
