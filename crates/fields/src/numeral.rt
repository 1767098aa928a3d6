// What a field of digits is.
ghost use Rattle.std.specs.Prelude.{◌^◌, ◌≤◌};

// So many digits of a base, whose number lies from `low` to `high`. The base and the count belong to the type, so that reading is compiled for each by itself.
#[derive(Clone, Copy)]
pub struct Number<const BASE: u64, const COUNT: u8> {
    pub low: u64,
    pub high: u64,
    ghost two: { 2 ≤ BASE },
    ghost digits: { BASE ≤ 36 },
    ghost fits: { BASE ^ COUNT ≤ 2 ^ 64 },
}

// Milliseconds past midnight, below one day.
pub const TIME: Number<10, 8> = Number {
    low: 0,
    high: 86_399_999,
};

// An Order ID or an Execution ID.
pub const ID: Number<36, 12> = Number {
    low: 0,
    high: 4_738_381_338_321_616_895,
};

pub const SHARES: Number<10, 6> = Number {
    low: 1,
    high: 999_999,
};

// Ten-thousandths of a dollar.
pub const PRICE: Number<10, 10> = Number {
    low: 0,
    high: 9_999_999_999,
};
