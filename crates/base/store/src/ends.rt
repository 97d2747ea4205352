//! Places in a text, in 4 bytes each as long as they fit.

ghost use Rattle.std.specs.Prelude.{◌≡◌, ◌∷◌, ◌++◌, ◌<◌, [], length, slice_index, IfOk, MatchOption, OnErr, OnOk};

use std::alloc::{AllocError, Global};
use std::marker::Model;
use values::Items;

/// Places of 32 bits, or of 64.
#[derive(Drop)]
pub enum Places {
    Short(Items<u32>),
    Long(Items<usize>),
}

/// A list of places. All are kept in 8 bytes each once there is one that doesn't fit 32 bits.
#[derive(Drop)]
pub struct Ends {
    places: Places,
}

impl Model for Ends {
    ghost use Rattle.std.specs.Prelude.{List, ℕ};
    ghost use Rattle.store.specs.Texts.{places_of};

    ghost Value = { List ℕ };

    ghost view = { λ e. places_of e.places };
}

/// The same places, of 64 bits.
fn widened(alloc: Global, short: &[u32]) -> Result<Items<usize>, AllocError>
    ensures { IfOk result (λ long. long ≡ short.now) }
{
    let mut long = Vec::with_capacity(alloc, short.len())?;
    for end in short {
        long.push(*end as usize)?;
    }
    Ok(Items::from_vec(long))
}

impl Ends {
    pub fn new(alloc: Global) -> Ends
        ensures { result ≡ [] }
    {
        Ends {
            places: Places::Short(Items::new(alloc)),
        }
    }

    pub fn len(&self) -> usize
        ensures { result ≡ length self.now }
    {
        match &self.places {
            Places::Short(ends) => ends.len(),
            Places::Long(ends) => ends.len(),
        }
    }

    pub fn at(&self, number: usize) -> usize
        requires { number < length self.now }
        ensures { result ≡ slice_index self.now number }
    {
        match &self.places {
            Places::Short(ends) => ends.as_slice()[number] as usize,
            Places::Long(ends) => ends.as_slice()[number],
        }
    }

    /// A place that doesn't fit, after short ones.
    #[cold]
    #[inline(never)]
    fn push_wide(&mut self, alloc: Global, end: usize) -> Result<(), AllocError>
        ensures ok { OnOk result (self.new ≡ self.old ++ end ∷ []) }
        ensures err { OnErr result (self.new ≡ self.old) }
    {
        let mut long = match &mut self.places {
            Places::Short(ends) => widened(alloc, ends.as_slice())?,
            Places::Long(ends) => return ends.push(end),
        };
        long.push(end)?;
        self.places = Places::Long(long);
        Ok(())
    }

    #[inline(always)]
    pub fn push(&mut self, alloc: Global, end: usize) -> Result<(), AllocError>
        ensures ok { OnOk result (self.new ≡ self.old ++ end ∷ []) }
        ensures err { OnErr result (self.new ≡ self.old) }
    {
        if end <= 4_294_967_295 {
            if let Places::Short(ends) = &mut self.places {
                return ends.push(end as u32);
            }
        }
        self.push_wide(alloc, end)
    }

    pub fn pop(&mut self) -> Option<usize>
        ensures { MatchOption result ((self.old ≡ []) × (self.new ≡ [])) (λ last. self.old ≡ self.new ++ last ∷ []) }
    {
        match &mut self.places {
            Places::Short(ends) => match ends.pop() {
                Some(last) => Some(last as usize),
                None => None,
            },
            Places::Long(ends) => ends.pop(),
        }
    }
}
