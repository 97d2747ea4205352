//! The lines of a frame, one after another.

ghost use Rattle.std.specs.Prelude.{◌≡◌, ◌∷◌, [], reverse, OnOk};
ghost use Rattle.frame.specs.Frames as spec;

use algebra::{ClassId, Expr};
use std::alloc::{AllocError, Global};
use std::marker::Model;
use values::Items;

/// The most lines that have numbers of 32 bits. No query within its limits has so many.
const MOST_LINES: usize = 4_294_967_295;

/// Lines, each founding a class, and no more than have numbers. Contracts see the last one first.
#[derive(Drop)]
pub struct Lines {
    lines: Items<Expr>,
}

impl Model for Lines {
    ghost use Rattle.std.specs.Prelude.{List, reverse};
    ghost use Rattle.algebra.specs.declared.expr.Expr.{Expr};

    ghost Value = { List Expr };

    ghost use Rattle.algebra.specs.contracts.expr.Expr as e;
    ghost use Rattle.std.specs.Coded.{codes};

    ghost coded = { Prim.hlevel (codes, e.the_row.coded) };

    ghost view = { λ l. reverse l.lines };

    ghost use Rattle.std.specs.Prelude.{◌≤◌, length};

    ghost invariant = { λ l. length l.lines ≤ 4294967295 };
}

impl Lines {
    pub fn new(alloc: Global) -> Lines
        ensures { result ≡ [] }
    {
        Lines {
            lines: Items::new(alloc),
        }
    }

    pub fn push(&mut self, line: Expr) -> Result<(), AllocError>
        ensures { OnOk result (self.new ≡ line ∷ self.old) }
    {
        if self.lines.len() == MOST_LINES {
            return Err(AllocError);
        }
        self.lines.push(line)
    }

    /// The class that the last line founds.
    pub fn last(&self) -> ClassId
        ensures { result ≡ spec.last self.now }
    {
        self.lines.len().saturating_sub(1) as u32
    }

    /// The lines, the first one first.
    pub fn into_items(self) -> Items<Expr>
        ensures { result ≡ reverse self }
    {
        self.lines
    }
}
