//! Numbers that look random and are the same in every run.
ghost use Rattle.std.specs.Prelude.{◌≡◌};
ghost use Rattle.churn.specs.Loads.{random_after, random_number, seeded};

/// A source of numbers, by xorshift64*: its state goes through every number but 0 once, and so
/// does what it answers.
#[derive(Clone, Copy)]
pub struct Random {
    state: u64,
}

impl Random {
    /// From a seed that is not 0, and always the same.
    pub fn new() -> Random
        ensures { result ≡ seeded }
    {
        Random {
            state: 0x9E37_79B9_7F4A_7C15,
        }
    }

    /// The next number, of 64 bits.
    #[tactic(auto, unfolding(crate::specs::Loads::shifted))]
    pub fn next(&mut self) -> u64
        ensures says { result ≡ random_number self.old }
        ensures leaves { self.new ≡ random_after self.old }
    {
        let mut x = self.state;
        x ^= x >> 12;
        x ^= x << 25;
        x ^= x >> 27;
        self.state = x;
        x.wrapping_mul(0x2545_F491_4F6C_DD1D)
    }
}
