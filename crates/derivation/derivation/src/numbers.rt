//! Lists of the numbers of lines or of classes. Most have one number.

ghost use Rattle.std.specs.Prelude.{◌≡◌, ◌++◌, ◌∷◌, [], length, take, IfOk, OnErr, OnOk};

use std::alloc::{AllocError, Global};
use std::marker::Model;
use std::slice;

/// How they are kept.
#[derive(Drop)]
enum Listed {
    Nothing,
    One(u32),
    Several(Box<Vec<u32>>),
}

/// The numbers of lines or of classes, in their order. One number has no block of its own.
pub struct Numbers {
    numbers: Listed,
}

// By hand, so that crates above drop numbers by one call.
impl Drop for Numbers {
    fn drop(self) {
        let Numbers { numbers: _ } = self;
    }
}

impl Model for Numbers {
    ghost use Rattle.std.specs.Prelude.{ℕ, List};
    ghost use Rattle.derivation.specs.Numbers.{listed};

    ghost Value = { List ℕ };

    ghost view = { λ l. listed l.numbers };
}

impl Numbers {
    pub fn none() -> Numbers
        ensures { result ≡ [] }
    {
        Numbers {
            numbers: Listed::Nothing,
        }
    }

    pub fn one(number: u32) -> Numbers
        ensures { result ≡ number ∷ [] }
    {
        Numbers {
            numbers: Listed::One(number),
        }
    }

    /// Several numbers, in a block of their own.
    fn several(alloc: Global, numbers: Vec<u32>) -> Result<Numbers, AllocError>
        ensures { IfOk result (λ l. l ≡ numbers.items) }
    {
        Ok(Numbers {
            numbers: Listed::Several(Box::new(alloc, numbers)?),
        })
    }

    pub fn from_slice(alloc: Global, numbers: &[u32]) -> Result<Numbers, AllocError>
        ensures { IfOk result (λ l. l ≡ numbers.now) }
    {
        match numbers {
            [] => Ok(Numbers::none()),
            [number] => Ok(Numbers::one(*number)),
            _ => Numbers::several(alloc, Vec::from_slice(alloc, numbers)?),
        }
    }

    pub fn as_slice(&self) -> &[u32]
        ensures { result.now ≡ self.now }
    {
        match &self.numbers {
            Listed::Nothing => &[],
            Listed::One(number) => slice::from_ref(number),
            Listed::Several(numbers) => numbers.as_slice(),
        }
    }

    pub fn len(&self) -> usize
        ensures { result ≡ length self.now }
    {
        self.as_slice().len()
    }

    pub fn copy(&self, alloc: Global) -> Result<Numbers, AllocError>
        ensures { IfOk result (λ l. l ≡ self.now) }
    {
        Numbers::from_slice(alloc, self.as_slice())
    }

    /// These numbers and the others, in a block of their own.
    fn joined(&self, alloc: Global, others: &Numbers) -> Result<Numbers, AllocError>
        ensures { IfOk result (λ l. l ≡ self.now ++ others.now) }
    {
        let mut numbers = Vec::from_slice(alloc, self.as_slice())?;
        numbers.extend_from_slice(others.as_slice())?;
        Numbers::several(alloc, numbers)
    }

    pub fn extend(&mut self, alloc: Global, others: &Numbers) -> Result<(), AllocError>
        ensures more { OnOk result (self.new ≡ self.old ++ others.now) }
        ensures refused { OnErr result (self.new ≡ self.old) }
    {
        if let Listed::Several(numbers) = &mut self.numbers {
            return numbers.extend_from_slice(others.as_slice());
        }
        *self = self.joined(alloc, others)?;
        Ok(())
    }

    pub fn truncate(&mut self, count: usize)
        ensures { self.new ≡ take count self.old }
    {
        match &mut self.numbers {
            Listed::Several(numbers) => numbers.truncate(count),
            Listed::One(_) if count == 0 => self.numbers = Listed::Nothing,
            Listed::One(_) | Listed::Nothing => {}
        }
    }
}
