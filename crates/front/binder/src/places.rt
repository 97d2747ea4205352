//! Places of a row, one after the other, among which one is found by its hash.

ghost use Rattle.std.specs.Prelude.{◌≡◌, ◌==◌, ◌++◌, ◌∷◌, [], length, IfOk};
ghost use Rattle.std.specs.List.{list_any};

use std::alloc::{AllocError, Global};
use std::collections::HashSet;
use std::marker::Model;
use values::Items;

#[derive(Drop)]
pub struct Places {
    places: Items<usize>,
    found: HashSet<usize>,
}

impl Model for Places {
    ghost use Rattle.std.specs.Prelude.{◌≡◌, ◌==◌, ℕ, List, nat_eq};
    ghost use Rattle.std.specs.List.{list_any};
    ghost use Rattle.std.specs.HashSet as hash;

    ghost Value = { List ℕ };

    ghost view = { λ p. p.places };

    ghost invariant = { λ p. (q : ℕ) → hash.contains nat_eq p.found q ≡ list_any (λ k. k == q) p.places };
}

impl Places {
    pub fn new(alloc: Global) -> Places
        ensures { result ≡ [] }
    {
        Places {
            places: Items::new(alloc),
            found: HashSet::new(alloc),
        }
    }

    pub fn len(&self) -> usize
        ensures { result ≡ length self.now }
    {
        self.places.len()
    }

    pub fn has(&self, place: usize) -> bool
        ensures { result ≡ list_any (λ k. k == place) self.now }
    {
        self.found.contains(&place)
    }

    pub fn with(self, place: usize) -> Result<Places, AllocError>
        ensures { IfOk result (λ places. places ≡ self ++ place ∷ []) }
    {
        let Places {
            mut places,
            mut found,
        } = self;
        places.push(place)?;
        found.insert(place)?;
        Ok(Places { places, found })
    }

    pub fn into_items(self) -> Items<usize>
        ensures { result ≡ self }
    {
        self.places
    }
}
