//! Relations: rows under a heading.

ghost use Rattle.std.specs.Prelude.{◌<◌, length};
ghost use Rattle.std.specs.List.{AllByRecursion};
ghost use Rattle.std.proofs.Props.{props};

use crate::headings::Heading;
use crate::rows::Rows;

/// Rows, and where their columns stand.
#[derive(Drop)]
pub struct Relation<'t> {
    pub heading: Heading,
    pub rows: Rows<'t>,
    ghost placed: { AllByRecursion (λ place. place.part < length rows.parts.items) heading.places.items } by { Prim.hlevel props },
}
