//! A type of letters whose values can neither be copied nor let go.
ghost use Rattle.std.specs.Prelude.{◌≡◌, [], ◌∷◌, refl};
ghost use Rattle.fields.specs.Letters.{ReadAs};

use super::{Letter, Lettered, UnknownLetter};
use crate::field::Field;
use crate::place::Place;
use crate::reading::Reading;
use std::marker::PhantomData;
use std::test::Fail;

enum Seal {
    Wax,
}

impl Seal {
    // Ends a value, as nothing else does.
    fn broken(self) -> bool {
        match self {
            Seal::Wax => true,
        }
    }
}

impl TryFrom<u8> for Seal {
    type Error = UnknownLetter;

    ghost try_from_gives = { ReadAs (87 ∷ []) (λ _. 87) };

    fn try_from(byte: u8) -> Result<Seal, UnknownLetter> {
        match byte {
            b'W' => Ok(Seal::Wax),
            _ => Err(UnknownLetter(byte)),
        }
    }
}

impl Lettered for Seal {
    ghost letters = { 87 ∷ [] };

    ghost written = { λ _. 87 };

    ghost member = { λ _. refl };

    fn byte(&self) -> u8 {
        b'W'
    }

    ghost reads = { λ _ _ read. read };
}

const SEAL: Letter<Seal> = Letter(PhantomData);

const PLACE: Place = Place {
    letter: b'A',
    offset: 3,
};

#[test]
fn a_value_is_read_checked_and_written(rt: HostRuntime) -> Result<(), Fail> {
    match SEAL.read(b"W rest", PLACE) {
        Ok((seal, rest)) => {
            let checked = SEAL.check(&seal, PLACE);
            let mut room = *b"....";
            SEAL.put(&mut room, 2, &seal);
            let broken = seal.broken();
            assert_eq!(rt; rest, b" rest".as_slice());
            assert_eq!(rt; checked, Ok(()));
            assert_eq!(rt; room, *b"..W.");
            assert!(rt; broken);
        }
        Err(_) => assert!(rt; false),
    }
    Ok(())
}
