//! What a record says beside the terms of an order.
ghost use Rattle.std.specs.Prelude.{◌≡◌, ℕ, ◌+◌, List, [], ◌∷◌, Ok, Err, MatchResult};
ghost use Rattle.layout.specs.Fields.{Field, read_fields, check_fields, put_fields};
ghost use Rattle.layout.specs.Slots.{Slot};
ghost use Rattle.fields.specs.Slots.{text_slot};
ghost use Rattle.messages.specs.declared.record.Terms.{Terms};
ghost use Rattle.messages.specs.Codes.{display_letter, customer_letter};
ghost use Rattle.terms.specs.Terms.{add_fields, long_add_fields, trade_fields};

use fields::field::Field;
use fields::letter::Lettered;
use fields::numeral::ID;
use fields::padded::{PARTICIPANT, Text};
use fields::place::Place;
use fields::reading::Reading;
use layout::fault::FieldFault;
use messages::code::{CUSTOMER, DISPLAY, Side, TradeSide};
use messages::record::{AddOrder, LongAdd, Terms, Trade};

/// A record with the terms of an order and others. A line gives the others after the price, which
/// ends later in the long form than in the short one.
pub trait Termed: Sized {
    type Side: Lettered + Copy;

    ghost terms: { Self → Terms Self.Side };

    // the fields after the terms, by the slot of the symbol
    ghost others: { Slot → List Field };

    // what it says in those
    ghost said: { Self → List ℕ };

    fn terms(&self) -> &Terms<Self::Side>
        ensures { result.now ≡ terms self.now };

    /// The record of these terms, and of the line from the first field after them on.
    fn read_others(
        given: &Terms<Self::Side>,
        line: &[u8],
        letter: u8,
        form: Text,
    ) -> Result<Self, FieldFault>
        ensures { MatchResult result
            (λ r. (terms r ≡ given.now)
            × (read_fields letter (others (text_slot form)) line.now ≡ Ok (said r)))
            (λ e. read_fields letter (others (text_slot form)) line.now ≡ Err e) };

    fn check_others(&self, letter: u8, form: Text) -> Result<(), FieldFault>
        ensures { result ≡ check_fields letter (others (text_slot form)) (said self.now) };

    fn put_others(&self, room: &mut [u8], form: Text)
        ensures { room.new ≡ put_fields (others (text_slot form)) (said self.now) room.old };
}

impl Termed for AddOrder {
    type Side = Side;

    ghost terms = { λ r. r.terms };

    ghost others = { add_fields };

    ghost said = { λ r. display_letter r.display ∷ [] };

    fn terms(&self) -> &Terms<Side> {
        &self.terms
    }

    fn read_others(
        given: &Terms<Side>,
        line: &[u8],
        letter: u8,
        form: Text,
    ) -> Result<AddOrder, FieldFault> {
        let offset = price_end(form);
        let (display, _) = DISPLAY.read(line, Place { letter, offset })?;
        Ok(AddOrder {
            terms: *given,
            display,
        })
    }

    // Every display has a letter.
    fn check_others(&self, _letter: u8, _form: Text) -> Result<(), FieldFault> {
        Ok(())
    }

    fn put_others(&self, room: &mut [u8], form: Text) {
        DISPLAY.put(room, price_end(form), &self.display);
    }
}

impl Termed for LongAdd {
    type Side = Side;

    ghost terms = { λ r. r.add.terms };

    ghost others = { long_add_fields };

    ghost said = { λ r.
        display_letter r.add.display ∷ r.participant ∷ customer_letter r.customer ∷ [] };

    fn terms(&self) -> &Terms<Side> {
        &self.add.terms
    }

    fn read_others(
        given: &Terms<Side>,
        line: &[u8],
        letter: u8,
        form: Text,
    ) -> Result<LongAdd, FieldFault> {
        let end = price_end(form);
        let (display, rest) = DISPLAY.read(
            line,
            Place {
                letter,
                offset: end,
            },
        )?;
        let (participant, rest) = PARTICIPANT.read(
            rest,
            Place {
                letter,
                offset: end + 1,
            },
        )?;
        let (customer, _) = CUSTOMER.read(
            rest,
            Place {
                letter,
                offset: end + 5,
            },
        )?;
        Ok(LongAdd {
            add: AddOrder {
                terms: *given,
                display,
            },
            participant,
            customer,
        })
    }

    fn check_others(&self, letter: u8, form: Text) -> Result<(), FieldFault> {
        let offset = price_end(form) + 1;
        PARTICIPANT.check(&self.participant, Place { letter, offset })
    }

    fn put_others(&self, room: &mut [u8], form: Text) {
        let end = price_end(form);
        self.add.put_others(room, form);
        PARTICIPANT.put(room, end + 1, &self.participant);
        CUSTOMER.put(room, end + 5, &self.customer);
    }
}

impl Termed for Trade {
    type Side = TradeSide;

    ghost terms = { λ r. r.terms };

    ghost others = { trade_fields };

    ghost said = { λ r. r.execution ∷ [] };

    fn terms(&self) -> &Terms<TradeSide> {
        &self.terms
    }

    fn read_others(
        given: &Terms<TradeSide>,
        line: &[u8],
        letter: u8,
        form: Text,
    ) -> Result<Trade, FieldFault> {
        let offset = price_end(form);
        let (execution, _) = ID.read(line, Place { letter, offset })?;
        Ok(Trade {
            terms: *given,
            execution,
        })
    }

    fn check_others(&self, letter: u8, form: Text) -> Result<(), FieldFault> {
        let offset = price_end(form);
        ID.check(&self.execution, Place { letter, offset })
    }

    fn put_others(&self, room: &mut [u8], form: Text) {
        ID.put(room, price_end(form), &self.execution);
    }
}

// Where the price ends: the other fields start there.
fn price_end(form: Text) -> u8
    ensures { result ≡ 38 + form.width }
{
    38 + form.width
}
