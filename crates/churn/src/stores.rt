//! The stores that can be loaded.
ghost use Rattle.std.specs.Prelude.{◌≡◌};
ghost use Rattle.churn.specs.Names.{store_name, store_meant};

use options::options::Stores;
use words::kind::{Kind, kind_of};

/// Each store, in the order that they run in.
pub const STORES: [Stores; 6] = [
    Stores {
        kind: Kind::Row,
        front: false,
    },
    Stores {
        kind: Kind::Hashed,
        front: false,
    },
    Stores {
        kind: Kind::Spread,
        front: false,
    },
    Stores {
        kind: Kind::Row,
        front: true,
    },
    Stores {
        kind: Kind::Hashed,
        front: true,
    },
    Stores {
        kind: Kind::Spread,
        front: true,
    },
];

/// The name of a store.
pub fn store_name(store: Stores) -> &'static str
    ensures { result.now ≡ store_name store }
{
    match (store.front, store.kind) {
        (false, Kind::Row) => "row",
        (false, Kind::Hashed) => "hashed",
        (false, Kind::Spread) => "spread",
        (true, Kind::Row) => "front-row",
        (true, Kind::Hashed) => "front-hashed",
        (true, Kind::Spread) => "front-spread",
    }
}

/// The store of a name.
pub fn store_of(word: &[u8]) -> Option<Stores>
    ensures { result ≡ store_meant word.now }
{
    match word.strip_prefix(b"front-") {
        Some(name) => Some(Stores {
            kind: kind_of(name)?,
            front: true,
        }),
        None => Some(Stores {
            kind: kind_of(word)?,
            front: false,
        }),
    }
}
