// What can be joined in every order and bracketing.
ghost use Rattle.std.specs.Prelude.{◌≡◌};

pub trait Tally: Copy {
    // what no records give
    ghost none: { Self };

    // what two lots of records give together
    ghost joining: { Self → Self → Self };

    fn empty() -> Self
        ensures { result ≡ none };

    fn join(self, other: Self) -> Self
        ensures { result ≡ joining self other };

    ghost associative: { (x y z : Self) → joining (joining x y) z ≡ joining x (joining y z) };

    ghost commutative: { (x y : Self) → joining x y ≡ joining y x };

    ghost neutral: { (x : Self) → joining none x ≡ x };
}
