//! How many slots so many hashed records are kept in.
ghost use Rattle.std.specs.Prelude.{◌≡◌, ◌≤◌};
ghost use Rattle.replaying.specs.Slots.{is_prime, prime_from, slots_for};

/// A third more than the room, so that searches stay short when it is full, and on to a prime, so
/// that symbols, whose numbers end in the bytes of spaces, have homes of their own.
pub fn slots(room: u64) -> u64
    ensures says { result ≡ slots_for room }
    ensures roomy { room ≤ result }
{
    prime_from(room.saturating_add(room / 3))
}

// The first prime at or above a number. Of one that no memory holds so many slots for, itself: to
// find a prime there would take long.
fn prime_from(least: u64) -> u64
    ensures says { result ≡ prime_from least }
    ensures least { least ≤ result }
{
    if least >= 1 << 40 {
        return least;
    }
    for number in least..least + 1000 {
        if is_prime(number) {
            return number;
        }
    }
    least
}

fn is_prime(number: u64) -> bool
    ensures { result ≡ is_prime number }
{
    if number < 2 {
        return false;
    }
    for divisor in 2..number {
        // A larger divisor would have a lesser one beside it.
        if number / divisor < divisor {
            return true;
        }
        if number % divisor == 0 {
            return false;
        }
    }
    true
}
