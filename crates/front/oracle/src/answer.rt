//! The answer of a query.

ghost use Rattle.std.specs.Prelude.{◌≡◌, IfOk};
ghost use Rattle.query.specs.Answer as spec;
ghost use Rattle.query.specs.Rows.{tables_in};

use crate::environment::{Env, value_at};
use crate::evaluate::rows;
use crate::rows::Row;
use query::{Query, SortKey};
use std::alloc::{AllocError, Global};
use std::cmp::Ordering;
use store::Database;
use values::{Value, directed_order, first_decided};

/// The order of two rows at a key.
fn key_order(key: &SortKey, a: &[Value], b: &[Value]) -> Ordering
    ensures { result ≡ spec.key_order key.now a.now b.now }
{
    let (a, b) = (value_at(a, key.item), value_at(b, key.item));
    directed_order(key.descending, a, b)
}

/// The order of two rows at the keys: a later key decides where the earlier ones don't.
fn keys_order(keys: &[SortKey], a: &[Value], b: &[Value]) -> Ordering
    ensures { result ≡ spec.keys_order keys.now a.now b.now }
{
    first_decided(keys, |key| key_order(key, a, b))
}

/// An answer of the query over the database, by nested loops.
pub fn meaning(
    alloc: Global,
    query: &Query,
    database: &Database<'_>,
) -> Result<Vec<Row>, AllocError>
    ensures { IfOk result (λ rows. spec.IsAnswer query.now (tables_in database.now) rows.items) }
{
    let mut answer = rows(alloc, &query.block, database, &Env::Empty)?;
    let keys = query.order.as_slice();
    answer.sort_by(|a, b| keys_order(keys, a.as_slice(), b.as_slice()))?;
    Ok(answer)
}
