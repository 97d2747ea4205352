//! Numbers of rows and groups, by 4 bytes each.

ghost use Rattle.std.specs.Prelude.{◌≡◌, ◌<◌, ◌++◌, ◌∷◌, [], length, replicate, set, slice_index_or, IfOk, OnOk};
ghost use Rattle.grouping.specs.RowNumbers.{numbers_in};

use std::alloc::{AllocError, Global};

/// Numbers one after the other. They take 4 bytes each while all are below 2^32, else 8.
#[derive(Drop)]
pub enum RowNumbers {
    Short(Vec<u32>),
    Long(Vec<usize>),
}

/// The numbers by 8 bytes each.
fn long(alloc: Global, numbers: &[u32]) -> Result<Vec<usize>, AllocError>
    ensures { IfOk result (λ long. long.items ≡ numbers.now) }
{
    let mut long = Vec::with_capacity(alloc, numbers.len())?;
    for number in numbers {
        long.push(*number as usize)?;
    }
    Ok(long)
}

impl RowNumbers {
    /// No numbers.
    pub fn new(alloc: Global) -> RowNumbers
        ensures { numbers_in result ≡ [] }
    {
        RowNumbers::Short(Vec::new(alloc))
    }

    /// No numbers, with room for so many.
    pub fn with_capacity(alloc: Global, capacity: usize) -> Result<RowNumbers, AllocError>
        ensures { IfOk result (λ numbers. numbers_in numbers ≡ []) }
    {
        Ok(RowNumbers::Short(Vec::with_capacity(alloc, capacity)?))
    }

    /// So many zeros.
    pub fn zeros(alloc: Global, count: usize) -> Result<RowNumbers, AllocError>
        ensures { IfOk result (λ numbers. numbers_in numbers ≡ replicate count 0) }
    {
        Ok(RowNumbers::Short(vec![in alloc; 0; count]?))
    }

    pub fn len(&self) -> usize
        ensures { result ≡ length (numbers_in self.now) }
    {
        match self {
            RowNumbers::Short(numbers) => numbers.len(),
            RowNumbers::Long(numbers) => numbers.len(),
        }
    }

    #[inline(always)]
    pub fn number(&self, at: usize) -> usize
        requires { at < length (numbers_in self.now) }
        ensures { result ≡ slice_index_or (numbers_in self.now) at 0 }
    {
        match self {
            RowNumbers::Short(numbers) => numbers[at] as usize,
            RowNumbers::Long(numbers) => numbers[at],
        }
    }

    /// Puts a number behind the others.
    pub fn push(&mut self, alloc: Global, number: usize) -> Result<(), AllocError>
        ensures { OnOk result (numbers_in self.new ≡ numbers_in self.old ++ number ∷ []) }
    {
        match self {
            RowNumbers::Short(numbers) => {
                if number < 4_294_967_296 {
                    return Ok(numbers.push(number as u32)?);
                }
                let mut long = long(alloc, numbers.as_slice())?;
                long.push(number)?;
                *self = RowNumbers::Long(long);
                Ok(())
            }
            RowNumbers::Long(numbers) => Ok(numbers.push(number)?),
        }
    }

    /// Puts a number in the place of another.
    pub fn set(&mut self, alloc: Global, at: usize, number: usize) -> Result<(), AllocError>
        requires { at < length (numbers_in self.old) }
        ensures { OnOk result (numbers_in self.new ≡ set (numbers_in self.old) at number) }
    {
        match self {
            RowNumbers::Short(numbers) => {
                if number < 4_294_967_296 {
                    numbers[at] = number as u32;
                    return Ok(());
                }
                let mut long = long(alloc, numbers.as_slice())?;
                long[at] = number;
                *self = RowNumbers::Long(long);
            }
            RowNumbers::Long(numbers) => numbers[at] = number,
        }
        Ok(())
    }

    pub fn into_vec(self, alloc: Global) -> Result<Vec<usize>, AllocError>
        ensures { IfOk result (λ numbers. numbers.items ≡ numbers_in self) }
    {
        match self {
            RowNumbers::Short(numbers) => long(alloc, numbers.as_slice()),
            RowNumbers::Long(numbers) => Ok(numbers),
        }
    }
}
