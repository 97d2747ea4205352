//! What may be picked of a selection.

ghost use Rattle.std.specs.Prelude.{◌≡◌, IfOk};
ghost use Rattle.closure.specs.Lines as spec;

use algebra::{ClassId, Expr};
use query::ids::id_of;
use std::alloc::{AllocError, Global};

/// How many conjuncts an expression has.
pub(crate) fn conjunct_count(expr: &Expr) -> Result<u32, AllocError>
    ensures { IfOk result (λ count. count ≡ spec.conjunct_count expr.now) }
{
    match expr {
        Expr::Select(conjuncts, _) => id_of(conjuncts.as_slice().len()),
        _ => Ok(0),
    }
}

/// The classes that its conjuncts name.
pub(crate) fn classes_named(alloc: Global, expr: &Expr) -> Result<Vec<ClassId>, AllocError>
    ensures { IfOk result (λ classes. classes.items ≡ spec.named_by expr.now) }
{
    match expr {
        Expr::Select(conjuncts, _) => conjuncts.classes(alloc),
        _ => Ok(Vec::new(alloc)),
    }
}
