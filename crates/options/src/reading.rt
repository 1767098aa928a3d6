// Reading a command line, word by word.
ghost use Rattle.std.specs.Prelude.{◌≡◌, map, IfOk, IfErr};
ghost use Rattle.options.specs.Requests.{nothing_read, with_stores, with_shown, with_options, with_limit, set_to, word_read, one_read, read_to_end, request_of};
ghost use Rattle.options.specs.Settings.{HasLast, IsFirstMistake};

use crate::meaning::{Meaning, meant};
use crate::mistake::{Mistake, Wrong};
use crate::options::{Kind, Options, Room, Shown, Stores};
use crate::request::{Reading, Request};
use crate::setting::Setting;
use keys::key::symbol;
use words::kind::kind_of;
use words::number::number;

// What is asked for where nothing is said.
const DEFAULTS: Options = Options {
    stores: Stores {
        kind: Kind::Hashed,
        front: false,
    },
    room: Room {
        orders: 1_048_576,
        executions: 4_194_304,
        symbols: 16_384,
        day_limit: 1_000_000_000,
    },
    shown: Shown {
        answers: false,
        book: None,
        quiet: false,
        help: false,
    },
};

/// What the words of a command line, without the program's own, ask for, or the first mistake in
/// them, its kind and its place. The last of two settings of one option is the one that counts, a
/// flag is set just where its word stands, and the file is the one word that names one.
pub fn read(words: &[&[u8]]) -> Result<Request, Wrong>
    ensures value { result ≡ request_of (map (λ word. word.now) words.now) }
    ensures last { IfOk result (λ request.
        HasLast (map (λ word. word.now) words.now) request) }
    ensures first { IfErr result (λ wrong. IsFirstMistake (map (λ word. word.now) words.now) wrong) }
{
    read_words(words)
}

fn read_words(words: &[&[u8]]) -> Result<Request, Wrong>
    ensures { result ≡ request_of (map (λ word. word.now) words.now) }
{
    let mut reading = Reading::new();
    for (place, word) in words.iter().enumerate() {
        match reading.word(place, word) {
            Ok(next) => reading = next,
            Err(mistake) => return Err(Wrong { place, mistake }),
        }
    }
    reading.end(words.len())
}

impl Reading {
    fn new() -> Reading
        ensures { result ≡ nothing_read }
    {
        Reading {
            request: Request {
                options: DEFAULTS,
                file: None,
            },
            awaiting: None,
        }
    }

    // With one word more, which stands at a place.
    fn word(self, place: usize, word: &[u8]) -> Result<Reading, Mistake>
        ensures { result ≡ one_read place word.now self }
    {
        match self.awaiting {
            Some(setting) => {
                let options = set(self.request.options, setting, word)?;
                Ok(self.with(options))
            }
            None => self.alone(place, meant(word)),
        }
    }

    // With a word that sets nothing before it.
    fn alone(self, place: usize, meaning: Meaning) -> Result<Reading, Mistake>
        ensures { result ≡ word_read place meaning self }
    {
        let stores = self.request.options.stores;
        let shown = self.request.options.shown;
        match meaning {
            Meaning::Front => Ok(self.stored(Stores {
                front: true,
                ..stores
            })),
            Meaning::Answers => Ok(self.showing(Shown {
                answers: true,
                ..shown
            })),
            Meaning::Quiet => Ok(self.showing(Shown {
                quiet: true,
                ..shown
            })),
            Meaning::Help => Ok(self.showing(Shown {
                help: true,
                ..shown
            })),
            Meaning::Sets(setting) => Ok(Reading {
                request: self.request,
                awaiting: Some(setting),
            }),
            Meaning::Unknown => Err(Mistake::Unknown),
            Meaning::File => match self.request.file {
                Some(_) => Err(Mistake::SecondFile),
                None => Ok(Reading {
                    request: Request {
                        options: self.request.options,
                        file: Some(place),
                    },
                    awaiting: None,
                }),
            },
        }
    }

    fn stored(self, stores: Stores) -> Reading
        ensures { result ≡ with_options self (with_stores stores self.request.options) }
    {
        self.with(Options {
            stores,
            ..self.request.options
        })
    }

    fn showing(self, shown: Shown) -> Reading
        ensures { result ≡ with_options self (with_shown shown self.request.options) }
    {
        self.with(Options {
            shown,
            ..self.request.options
        })
    }

    // With other options, and no word awaited.
    fn with(self, options: Options) -> Reading
        ensures { result ≡ with_options self options }
    {
        Reading {
            request: Request {
                options,
                file: self.request.file,
            },
            awaiting: None,
        }
    }

    // What was asked, where no word more comes.
    fn end(self, place: usize) -> Result<Request, Wrong>
        ensures { result ≡ read_to_end place self }
    {
        match self.awaiting {
            Some(setting) => Err(Wrong {
                place,
                mistake: Mistake::Missing(setting),
            }),
            None => Ok(self.request),
        }
    }
}

// The options with one of them set to what a word says.
fn set(options: Options, setting: Setting, word: &[u8]) -> Result<Options, Mistake>
    ensures { result ≡ set_to setting word.now options }
{
    let wrong = Mistake::Value(setting);
    match setting {
        Setting::Store => {
            let kind = kind_of(word).ok_or(wrong)?;
            Ok(Options {
                stores: Stores {
                    kind,
                    ..options.stores
                },
                ..options
            })
        }
        Setting::Book => {
            let book = Some(symbol(word).ok_or(wrong)?);
            Ok(Options {
                shown: Shown {
                    book,
                    ..options.shown
                },
                ..options
            })
        }
        _ => {
            let most = number(word).ok_or(wrong)?;
            Ok(Options {
                room: roomy(options.room, setting, most),
                ..options
            })
        }
    }
}

// The room with one of its limits set.
fn roomy(room: Room, setting: Setting, most: u64) -> Room
    ensures { result ≡ with_limit setting most room }
{
    match setting {
        Setting::Orders => Room {
            orders: most,
            ..room
        },
        Setting::Executions => Room {
            executions: most,
            ..room
        },
        Setting::Symbols => Room {
            symbols: most,
            ..room
        },
        Setting::DayLimit => Room {
            day_limit: most,
            ..room
        },
        Setting::Store | Setting::Book => room,
    }
}
