//! The rows of a reply.
ghost use Rattle.std.specs.Prelude.{◌≡◌, take};
ghost use Rattle.day_rules.specs.Places.{most_rows};

use records::symbol_row::SymbolRow;
use std::marker::Model;

// The most rows of a reply.
const MOST: usize = 64;

/// Rows by rising symbol number, 64 at most, held in place. Contracts see their list.
#[derive(Clone, Copy, PartialEq, Eq, Debug)]
pub struct FirstRows {
    // blank behind the first so many
    places: [SymbolRow; MOST],
    count: usize,
}

impl Model for FirstRows {
    ghost use Rattle.std.specs.Prelude.{List, length, take};
    ghost use Rattle.records.specs.declared.symbol_row.SymbolRow.{SymbolRow};
    ghost use Rattle.day_rules.specs.Places.{BlankBehind, filled_up};
    ghost use Rattle.day_rules.specs.PlacesLemmas.{filled_back, length_taken};

    ghost Value = { List SymbolRow };

    ghost view = { λ a. take a.count a.places };

    ghost invariant = { λ a. BlankBehind a.count a.places };

    ghost inverse = { λ rs. record { places = filled_up rs; count = length rs } };

    ghost inverse_ok = { λ a h. λ i. record {
      places = filled_back a.count a.places h i;
      count = length_taken a.count a.places h i;
    } };
}

impl FirstRows {
    /// The most rows.
    pub const MOST: usize = MOST;

    /// The first 64 of a slice's rows, or all where it has fewer.
    pub fn of(rows: &[SymbolRow]) -> FirstRows
        ensures { result ≡ take most_rows rows.now }
    {
        let count = rows.len().min(MOST);
        let mut places = [SymbolRow::BLANK; MOST];
        places[..count].copy_from_slice(&rows[..count]);
        FirstRows { places, count }
    }

    /// The rows.
    pub fn rows(&self) -> &[SymbolRow]
        ensures { result.now ≡ self.now }
    {
        &self.places[..self.count]
    }
}
