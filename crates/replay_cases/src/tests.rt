// Averages and command lines that are easily got wrong.
use options::mistake::{Mistake, Wrong};
use options::reading::read;
use options::setting::Setting;
use records::value::Value;
use reports::average::average;
use std::process::Abort;
use std::test::Fail;

// Shares at a price each, and what their average over so many shares comes to.
fn averages(rt: &impl Abort, value: Value, shares: u64, expected: Option<u128>) {
    assert!(rt; average(value, shares) == expected);
}

#[test]
fn a_half_is_rounded_up(rt: HostRuntime) -> Result<(), Fail> {
    averages(&rt, Value::product(1, 5), 2, Some(3));
    averages(&rt, Value::product(1, 7), 5, Some(1));
    averages(&rt, Value::product(1, 8), 5, Some(2));
    Ok(())
}

#[test]
fn no_shares_have_no_average(rt: HostRuntime) -> Result<(), Fail> {
    averages(&rt, Value::zero(), 0, None);
    averages(&rt, Value::product(1, 5), 0, None);
    Ok(())
}

#[test]
fn the_greatest_value_has_an_average(rt: HostRuntime) -> Result<(), Fail> {
    let value = Value::of_parts(u64::MAX, 9_999_999_999_999_999);
    averages(
        &rt,
        value,
        1,
        Some(184_467_440_737_095_516_159_999_999_999_999_999),
    );
    averages(&rt, value, u64::MAX, Some(10_000_000_000_000_000));
    Ok(())
}

// The mistake of a command line, and its place.
fn mistakes(rt: &impl Abort, words: &[&[u8]], place: usize, mistake: Mistake) {
    assert!(rt; read(words) == Err(Wrong { place, mistake }));
}

#[test]
fn a_word_that_an_option_awaits_is_its_own(rt: HostRuntime) -> Result<(), Fail> {
    mistakes(
        &rt,
        &[b"--orders", b"--help"],
        1,
        Mistake::Value(Setting::Orders),
    );
    mistakes(
        &rt,
        &[b"--front", b"--book"],
        2,
        Mistake::Missing(Setting::Book),
    );
    mistakes(&rt, &[b"day", b"--quiet", b"other"], 2, Mistake::SecondFile);
    Ok(())
}

#[test]
fn the_last_of_two_counts(rt: HostRuntime) -> Result<(), Fail> {
    let words: [&[u8]; 5] = [b"--orders", b"1", b"day", b"--orders", b"2"];
    let Ok(request) = read(&words) else {
        assert!(&rt; false);
        return Ok(());
    };
    assert!(&rt; request.options.room.orders == 2);
    assert!(&rt; request.file == Some(2));
    Ok(())
}
