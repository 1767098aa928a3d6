//! What the program is asked.
ghost use Rattle.std.specs.Prelude.{◌≡◌, map};
ghost use Rattle.churn.specs.Arguments.{Answers, all_or, arguments_of, load_asked, size_asked, sizes_asked, store_asked, timed_by};

use crate::load::{Load, load_of};
use crate::mistake::Mistake;
use crate::stores::store_of;
use options::options::Stores;
use words::number::number;

/// How much of a load there is.
#[derive(Clone, Copy, PartialEq, Eq, Debug)]
pub struct Sizes {
    /// The most orders that a store holds.
    pub slots: usize,
    /// The orders that live at a time.
    pub live: usize,
    /// How often one is removed and one added.
    pub pairs: u64,
}

/// What is to be run.
#[derive(Clone, Copy, PartialEq, Eq, Debug)]
pub struct Arguments {
    /// None where all are asked for.
    pub store: Option<Stores>,
    /// None where all are asked for.
    pub load: Option<Load>,
    pub sizes: Sizes,
    /// How long each part took is to be told.
    pub timed: bool,
}

/// What the words ask for, or what is wrong with the first of them that is.
pub fn read<'a>(words: &[&'a [u8]]) -> Result<Arguments, Mistake<'a>>
    ensures { Answers (arguments_of (map (λ word. word.now) words.now)) result }
{
    match words {
        [store, load, slots, live, pairs, last @ ..] if last.len() < 2 => Ok(Arguments {
            store: one_store(store)?,
            load: one_load(load)?,
            sizes: three_sizes(slots, live, pairs)?,
            timed: timed(last)?,
        }),
        _ => Err(Mistake::Count),
    }
}

#[tactic(auto, unfolding(crate::specs::Arguments::store_asked))]
fn one_store<'a>(word: &'a [u8]) -> Result<Option<Stores>, Mistake<'a>>
    ensures { Answers (store_asked word.now) result }
{
    all_or(word, store_of(word)).ok_or(Mistake::Store(word))
}

#[tactic(auto, unfolding(crate::specs::Arguments::load_asked))]
fn one_load<'a>(word: &'a [u8]) -> Result<Option<Load>, Mistake<'a>>
    ensures { Answers (load_asked word.now) result }
{
    all_or(word, load_of(word)).ok_or(Mistake::Load(word))
}

// None by name, if the word asks for all.
fn all_or<T: Copy>(word: &[u8], one: Option<T>) -> Option<Option<T>>
    ensures { result ≡ all_or word.now one }
{
    match word {
        b"all" => Some(None),
        _ => Some(Some(one?)),
    }
}

#[tactic(auto, unfolding(crate::specs::Arguments::sizes_asked))]
fn three_sizes<'a>(slots: &'a [u8], live: &'a [u8], pairs: &'a [u8]) -> Result<Sizes, Mistake<'a>>
    ensures { Answers (sizes_asked slots.now live.now pairs.now) result }
{
    Ok(Sizes {
        slots: size(slots)? as usize,
        live: size(live)? as usize,
        pairs: size(pairs)?,
    })
}

fn size<'a>(word: &'a [u8]) -> Result<u64, Mistake<'a>>
    ensures { Answers (size_asked word.now) result }
{
    number(word).ok_or(Mistake::Size(word))
}

fn timed<'a>(words: &[&'a [u8]]) -> Result<bool, Mistake<'a>>
    ensures { Answers (timed_by (map (λ word. word.now) words.now)) result }
{
    match words.first() {
        None => Ok(false),
        Some(word) => match *word {
            b"time" => Ok(true),
            other => Err(Mistake::Last(other)),
        },
    }
}
