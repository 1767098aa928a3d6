//! Words that are wrong, and those of every word that is right; one load on one store, and where
//! no order lives.
use crate::arguments::{Arguments, Sizes, read};
use crate::feed::Feed;
use crate::load::Load;
use crate::mistake::Mistake;
use crate::run::run_asked;
use options::options::Stores;
use std::process::Abort;
use std::test::Fail;
use words::kind::Kind;

fn mistakes(rt: &impl Abort, words: &[&[u8]], mistake: Mistake<'_>) {
    assert!(rt; read(words) == Err(mistake));
}

#[test]
fn each_wrong_word_is_told(rt: HostRuntime) -> Result<(), Fail> {
    mistakes(
        &rt,
        &[b"tree", b"all", b"1", b"1", b"1"],
        Mistake::Store(b"tree"),
    );
    mistakes(&rt, &[b"all", b"", b"1", b"1", b"1"], Mistake::Load(b""));
    mistakes(
        &rt,
        &[b"all", b"all", b"x", b"1", b"1"],
        Mistake::Size(b"x"),
    );
    mistakes(
        &rt,
        &[b"all", b"all", b"1", b"-1", b"1"],
        Mistake::Size(b"-1"),
    );
    mistakes(&rt, &[b"all", b"all", b"1", b"1", b""], Mistake::Size(b""));
    mistakes(
        &rt,
        &[b"all", b"all", b"1", b"1", b"1", b"times"],
        Mistake::Last(b"times"),
    );
    Ok(())
}

#[test]
fn words_are_five_or_six(rt: HostRuntime) -> Result<(), Fail> {
    mistakes(&rt, &[], Mistake::Count);
    mistakes(&rt, &[b"all", b"all", b"1", b"1"], Mistake::Count);
    mistakes(
        &rt,
        &[b"all", b"all", b"1", b"1", b"1", b"time", b"time"],
        Mistake::Count,
    );
    Ok(())
}

#[test]
fn all_names_are_known(rt: HostRuntime) -> Result<(), Fail> {
    let words: [&[u8]; 6] = [b"front-hashed", b"queue", b"3", b"2", b"1", b"time"];
    let asked = Arguments {
        timed: true,
        ..QUEUE
    };
    assert!(&rt; read(&words) == Ok(asked));
    Ok(())
}

#[test]
fn an_order_dies_at_once_where_none_lives(rt: HostRuntime) -> Result<(), Fail> {
    let mut feed = Feed::new(Load::Queue);
    assert!(&rt; feed.exchange(&mut [], 7) == 7);
    Ok(())
}

// The queue of two orders, of which the first dies for a third.
const QUEUE: Arguments = Arguments {
    store: Some(Stores {
        kind: Kind::Hashed,
        front: true,
    }),
    load: Some(Load::Queue),
    sizes: Sizes {
        slots: 3,
        live: 2,
        pairs: 1,
    },
    timed: false,
};

const COUNTS: &[u8] =
    b"(queue (added 3) (refused 0) (removed 1) (missed 0) (sum 10) (met 2) (swept 1) (kept 1) \
      (left 0))";

#[test]
fn one_load_runs_on_one_store(rt: HostRuntime) -> Result<(), Fail> {
    let mut printed = Vec::new(rt.alloc());
    run_asked(&rt, QUEUE, &mut printed)?;
    let mut lines = printed.as_slice().split(|byte| *byte == b'\n');
    let expected: [&[u8]; 3] = [b"(store front-hashed)", COUNTS, b""];
    for expected in expected {
        assert!(&rt; lines.next() == Some(expected));
    }
    assert!(&rt; lines.next().is_none());
    Ok(())
}

#[test]
fn each_part_is_timed(rt: HostRuntime) -> Result<(), Fail> {
    let asked = Arguments {
        timed: true,
        ..QUEUE
    };
    let mut printed = Vec::new(rt.alloc());
    run_asked(&rt, asked, &mut printed)?;
    let mut lines = printed.as_slice().split(|byte| *byte == b'\n');
    let starts: [&[u8]; 10] = [
        b"(store front-hashed)",
        b"(took fill (calls 2) (ns ",
        b"(took churn (calls 2) (ns ",
        b"(took walk (calls 2) (ns ",
        b"(took sweep (calls 2) (ns ",
        b"(took walk-kept (calls 1) (ns ",
        b"(took empty (calls 1) (ns ",
        b"(took walk-emptied (calls 0) (ns ",
        COUNTS,
        b"",
    ];
    for start in starts {
        let found = match lines.next() {
            Some(line) => line.starts_with(start),
            None => false,
        };
        assert!(&rt; found);
    }
    assert!(&rt; lines.next().is_none());
    Ok(())
}
