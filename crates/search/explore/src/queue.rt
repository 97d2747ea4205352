//! Bindings that are still to be tried, and those that were.

use algebra::LineId;
use bindings::{Binding, BoundLines};
use std::alloc::{AllocError, Global};

/// A binding, and whether it is known to give nothing new.
#[derive(Clone, Copy)]
struct Offered {
    binding: Binding,
    has_given: bool,
}

/// A binding that was taken out, and its place among the bindings.
#[derive(Clone, Copy)]
pub(crate) struct Next {
    pub binding: Binding,
    place: usize,
}

/// Bindings of one rank over so many columns, by their places in the order in which they came.
#[derive(Drop)]
struct Waiting {
    places: Vec<usize>,
    /// So many of them were taken out.
    taken: usize,
}

/// Bindings of one rank.
#[derive(Drop)]
struct Rank {
    /// By how many columns they are about.
    by_width: Vec<Waiting>,
    /// None waits that is about fewer columns.
    lowest: usize,
}

/// Bindings that are still to be tried: those of a lower rank first, of one rank those over fewer columns, and of these the earlier ones. So none
/// waits for ever.
#[derive(Drop)]
pub(crate) struct Queue {
    bindings: Vec<Offered>,
    /// For each line where the bindings begin of which it is the latest.
    starts: Vec<usize>,
    /// Those that weren't taken out, by their ranks.
    waiting: Vec<Rank>,
}

impl Waiting {
    fn take(&mut self) -> Option<usize> {
        let place = self.places.get(self.taken).copied()?;
        self.taken = self.taken.saturating_add(1);
        Some(place)
    }
}

impl Rank {
    fn none(alloc: Global) -> Rank {
        Rank {
            by_width: Vec::new(alloc),
            lowest: 0,
        }
    }

    fn add(&mut self, alloc: Global, width: usize, place: usize) -> Result<(), AllocError> {
        for _ in self.by_width.len()..width.saturating_add(1) {
            self.by_width.push(Waiting {
                places: Vec::new(alloc),
                taken: 0,
            })?;
        }
        if let Some(waiting) = self.by_width.get_mut(width) {
            waiting.places.push(place)?;
        }
        self.lowest = self.lowest.min(width);
        Ok(())
    }

    fn take(&mut self) -> Option<usize> {
        for width in self.lowest..self.by_width.len() {
            self.lowest = width;
            if let Some(waiting) = self.by_width.get_mut(width) {
                let place = waiting.take();
                if place.is_some() {
                    return place;
                }
            }
        }
        None
    }
}

fn are_same_lines(first: BoundLines, second: BoundLines) -> bool {
    match (first, second) {
        (BoundLines::One(a), BoundLines::One(b)) => a == b,
        (BoundLines::Two(a, b), BoundLines::Two(c, d)) => a == c && b == d,
        (BoundLines::Three(a, b, c), BoundLines::Three(d, e, f)) => a == d && b == e && c == f,
        _ => false,
    }
}

fn are_same(first: Binding, second: Binding) -> bool {
    first.rule == second.rule
        && first.pick == second.pick
        && are_same_lines(first.lines, second.lines)
}

impl Queue {
    pub(crate) fn new(alloc: Global) -> Queue {
        Queue {
            bindings: Vec::new(alloc),
            starts: Vec::new(alloc),
            waiting: Vec::new(alloc),
        }
    }

    /// Begins with the bindings of which the next line is the latest.
    pub(crate) fn begin_line(&mut self) -> Result<(), AllocError> {
        self.starts.push(self.bindings.len())?;
        Ok(())
    }

    pub(crate) fn add(
        &mut self,
        alloc: Global,
        binding: Binding,
        rank: usize,
        width: usize,
    ) -> Result<(), AllocError> {
        let place = self.bindings.len();
        self.bindings.push(Offered {
            binding,
            has_given: false,
        })?;
        for _ in self.waiting.len()..rank.saturating_add(1) {
            self.waiting.push(Rank::none(alloc))?;
        }
        match self.waiting.get_mut(rank) {
            Some(waiting) => waiting.add(alloc, width, place),
            None => Ok(()),
        }
    }

    /// Adds a binding that needn't be tried, since what it gives is there.
    pub(crate) fn add_given(&mut self, binding: Binding) -> Result<(), AllocError> {
        self.bindings.push(Offered {
            binding,
            has_given: true,
        })?;
        Ok(())
    }

    /// The place of the next binding, which is taken out.
    fn next_place(&mut self) -> Option<usize> {
        for waiting in self.waiting.iter_mut() {
            let place = waiting.take();
            if place.is_some() {
                return place;
            }
        }
        None
    }

    /// The next binding, which is taken out.
    pub(crate) fn next(&mut self) -> Option<Next> {
        let place = self.next_place()?;
        let offered = self.bindings.get(place)?;
        Some(Next {
            binding: offered.binding,
            place,
        })
    }

    /// Notes that what a binding gives is there.
    pub(crate) fn note_given(&mut self, next: Next) {
        if let Some(offered) = self.bindings.get_mut(next.place) {
            offered.has_given = true;
        }
    }

    /// The bindings of which a line is the latest.
    fn of_line(&self, latest: LineId) -> &[Offered] {
        let Some(start) = self.starts.get(latest as usize) else {
            return &[];
        };
        let behind = (latest as usize).saturating_add(1);
        let end = match self.starts.get(behind) {
            Some(end) => *end,
            None => self.bindings.len(),
        };
        match self.bindings.as_slice().get(*start..end) {
            Some(offered) => offered,
            None => &[],
        }
    }

    /// Whether what a binding gives is there, of which this line is the latest.
    pub(crate) fn has_given(&self, latest: LineId, binding: Binding) -> bool {
        self.of_line(latest).iter().any(|offered| offered.has_given
            && are_same(offered.binding, binding))
    }
}
