//! Selectivities: which share of rows makes conditions true, in millionths.

use costs::{ALL, Filtered, per_million};

/// So many millionths of a number, rounded up. No selectivity is more than all.
pub fn part_of(number: u64, selectivity: u64) -> u64 {
    per_million(number, selectivity.min(ALL))
}

/// Of so many rows those that pass a condition, a millionth at least.
pub fn passing_rows(rows: u64, selectivity: u64) -> u64 {
    Filtered {
        rows,
        share: selectivity.min(ALL),
    }
    .kept()
}

/// The selectivity of several conditions together, as if they were asked of a million rows. Where a list would keep less than a millionth more than once, that is
/// this crate's own estimate: how many rows those before it leave isn't known.
#[derive(Clone, Copy, Drop)]
pub struct CombinedSelectivity {
    of_a_million: Filtered,
}

impl CombinedSelectivity {
    pub const ALL: CombinedSelectivity = CombinedSelectivity {
        of_a_million: Filtered {
            rows: ALL,
            share: ALL,
        },
    };

    /// That of these conditions and one more.
    pub fn also(self, selectivity: u64) -> CombinedSelectivity {
        let before = Filtered {
            share: self.of_a_million.share.min(ALL),
            ..self.of_a_million
        };
        CombinedSelectivity {
            of_a_million: before.also(selectivity.min(ALL)),
        }
    }

    /// How many of so many rows pass.
    pub fn of(self, rows: u64) -> u64 {
        let Filtered {
            rows: before,
            share: last,
        } = self.of_a_million;
        passing_rows(part_of(rows, before), last)
    }
}
