//! A test that picks some of the records.
ghost use Rattle.std.specs.Prelude.{◌≡◌, Bool};

/// A test of records, by the function that contracts name.
pub trait Pick<R> {
    ghost picked: { Self → R → Bool };

    fn picks(&self, item: R) -> bool
        ensures { result ≡ picked self.now item };
}
