//! The columns of its environment that an expression reads.

ghost use Rattle.std.specs.Prelude.{◌≡◌, ◌==◌, ◌++◌, ◌&&◌, not, ℕ, OnOk, IfOk, option_to_list};
ghost use Rattle.std.specs.List.{list_any};
ghost use Rattle.algebra.specs.Columns.{has, columns_at};
ghost use Rattle.algebra.specs.GivenColumns.{HasAlso, given_columns, given_free};
ghost use Rattle.algebra.specs.Expressions as spec;

use algebra::{ClassColumns, ClassId, Columns, Expr};
use query::ColumnId;
use std::alloc::{AllocError, Global};

/// The columns that the conditions of an expression mention.
fn mentioned(alloc: Global, expr: &Expr, classes: ClassColumns<'_>) -> Result<Columns, AllocError>
    ensures { IfOk result (λ found. (k : ℕ) → has found k ≡ spec.mentioned (given_columns classes.entry) (given_free classes.entry) (spec.conditions expr.now) k) }
{
    match expr {
        Expr::Select(c, _) | Expr::Join(c, _, _) | Expr::LeftJoin(c, _, _) | Expr::Semi(c, _, _) =>
            { c.mentioned(alloc, classes) }
        Expr::Anti(ordinary, null_aware, _, _) => ordinary
            .mentioned(alloc, classes)?
            .union(alloc, &null_aware.mentioned(alloc, classes)?),
        Expr::Get(_) | Expr::Keep(_, _) | Expr::Distinct(_) | Expr::Group(_, _, _) => Ok(
            Columns::from_vec(Vec::new(alloc)),
        ),
    }
}

/// Whether the class, if there is one, has the column.
fn has_column(class: Option<ClassId>, classes: ClassColumns<'_>, column: ColumnId) -> bool
    ensures { result ≡ list_any (λ g. has (given_columns classes.entry g) column) (option_to_list class) }
{
    match class {
        Some(class) => classes.has(class, column),
        None => false,
    }
}

/// Whether one of the classes, if there are some, has the column.
fn have_column(
    inputs: (Option<ClassId>, Option<ClassId>),
    classes: ClassColumns<'_>,
    column: ColumnId,
) -> bool
    ensures { result ≡ list_any (λ g. has (given_columns classes.entry g) column) (option_to_list inputs.0 ++ option_to_list inputs.1) }
{
    has_column(inputs.0, classes, column) || has_column(inputs.1, classes, column)
}

/// Adds the column, unless one of the classes has it.
fn add_lacking(
    column: ColumnId,
    inputs: (Option<ClassId>, Option<ClassId>),
    classes: ClassColumns<'_>,
    free: &mut Vec<ColumnId>,
) -> Result<(), AllocError>
    ensures { OnOk result (HasAlso free.new.items free.old.items (λ k. (column == k) && not (list_any (λ g. has (given_columns classes.entry g) column) (option_to_list inputs.0 ++ option_to_list inputs.1)))) }
{
    if !have_column(inputs, classes, column) {
        free.push(column)?;
    }
    Ok(())
}

/// Adds those of the columns that none of the classes has.
fn add_all_lacking(
    columns: &[ColumnId],
    inputs: (Option<ClassId>, Option<ClassId>),
    classes: ClassColumns<'_>,
    free: &mut Vec<ColumnId>,
) -> Result<(), AllocError>
    ensures { OnOk result (HasAlso free.new.items free.old.items (λ k. has columns.now k && not (list_any (λ g. has (given_columns classes.entry g) k) (option_to_list inputs.0 ++ option_to_list inputs.1)))) }
{
    for column in columns {
        add_lacking(*column, inputs, classes, free)?;
    }
    Ok(())
}

/// Adds the free columns of the class, if there is one.
fn add_free(
    class: Option<ClassId>,
    classes: ClassColumns<'_>,
    free: &mut Vec<ColumnId>,
) -> Result<(), AllocError>
    ensures { OnOk result (HasAlso free.new.items free.old.items (λ k. list_any (λ g. given_free classes.entry g k) (option_to_list class))) }
{
    if let Some(class) = class {
        if let Some(own) = classes.free.get(class as usize) {
            free.extend_from_slice(own.as_slice())?;
        }
    }
    Ok(())
}

/// The free columns of an expression over the classes.
pub fn free_columns(
    alloc: Global,
    expr: &Expr,
    classes: ClassColumns<'_>,
) -> Result<Columns, AllocError>
    ensures { IfOk result (λ free. (k : ℕ) → has free k ≡ spec.free_of (given_columns classes.entry) (given_free classes.entry) expr.now k) }
{
    let inputs = expr.children();
    let mut free = Vec::new(alloc);
    add_free(inputs.0, classes, &mut free)?;
    add_free(inputs.1, classes, &mut free)?;
    let mentioned = mentioned(alloc, expr, classes)?;
    add_all_lacking(mentioned.as_slice(), inputs, classes, &mut free)?;
    Ok(Columns::from_vec(free))
}
