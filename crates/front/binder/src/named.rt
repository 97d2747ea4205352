//! The outputs of a SELECT, found by their names and by the columns that they are.

ghost use Rattle.std.specs.Prelude.{◌≡◌, IfOk, position};
ghost use Rattle.binder.specs.Named as view;
ghost use Rattle.binder.specs.Ordering as spec;

use crate::output::Output;
use query::{ColumnId, Item};
use std::alloc::{AllocError, Global};
use std::collections::HashMap;
use std::marker::Model;

/// What an item has in common with those that are the same column.
#[derive(Clone, Copy, PartialEq, Eq, Hash)]
pub enum Identity {
    /// A level, and a place of its row.
    Column(usize, usize),
    /// The number of an aggregate.
    Aggregate(ColumnId),
}

/// What an output name means, if it means anything.
#[derive(Clone, Copy)]
pub enum Sense {
    One(Item),
    Several,
}

/// The outputs, which contracts see as their list.
#[derive(Drop)]
pub struct Named<'o> {
    outputs: &'o [Output],
    /// The place of the first output of each column.
    firsts: HashMap<Identity, usize>,
    senses: HashMap<&'o str, Sense>,
}

impl<'o> Model for Named<'o> {
    ghost use Rattle.std.specs.Prelude.{List};
    ghost use Rattle.binder.specs.declared.output.Output.{Output};

    ghost Value = { List Output };

    ghost view = { λ n. n.outputs.now };

    ghost use Rattle.binder.specs.Named.{HasFirsts, HasSenses};

    ghost invariant = { λ n. HasFirsts n.outputs.now n.firsts × HasSenses n.outputs.now n.senses };
}

impl<'o> Named<'o> {
    pub fn new(alloc: Global, outputs: &'o [Output]) -> Result<Named<'o>, AllocError>
        ensures { IfOk result (λ named. named ≡ outputs.entry.now) }
    {
        Ok(Named {
            outputs,
            firsts: firsts(alloc, outputs)?,
            senses: senses(alloc, outputs)?,
        })
    }

    /// The place of the first output that is this column.
    pub fn first_place(&self, item: Item) -> Option<usize>
        ensures { result ≡ position (λ o. spec.same_item o.item item) self.now }
    {
        self.firsts.get(&identity_of(item)).copied()
    }

    /// What the name means.
    pub fn sense(&self, name: &str) -> Option<Sense>
        ensures { result ≡ view.sense_of (view.items_named name.now self.now) }
    {
        self.senses.get(name).copied()
    }
}

/// Whether two items are one column.
fn same_item(a: Item, b: Item) -> bool
    ensures { result ≡ spec.same_item a b }
{
    match (a, b) {
        (Item::Column(a), Item::Column(b)) => a.level == b.level && a.place == b.place,
        (Item::Aggregate(a, _), Item::Aggregate(b, _)) => a == b,
        _ => false,
    }
}

fn identity_of(item: Item) -> Identity
    ensures { result ≡ view.identity_of item }
{
    match item {
        Item::Column(column) => Identity::Column(column.level, column.place),
        Item::Aggregate(number, _) => Identity::Aggregate(number),
    }
}

/// The place of the first output of each column: from the last to the first, an earlier one takes the place of a later.
fn firsts(alloc: Global, outputs: &[Output]) -> Result<HashMap<Identity, usize>, AllocError>
    ensures { IfOk result (view.HasFirsts outputs.now) }
{
    let mut firsts = HashMap::new(alloc);
    for i in (0..outputs.len()).rev() {
        firsts.insert(identity_of(outputs[i].item), i)?;
    }
    Ok(firsts)
}

fn one_more(sense: Option<Sense>, item: Item) -> Sense
    ensures { result ≡ view.one_more sense item }
{
    match sense {
        None => Sense::One(item),
        Some(Sense::One(first)) if same_item(first, item) => Sense::One(first),
        Some(_) => Sense::Several,
    }
}

fn senses<'o>(alloc: Global, outputs: &'o [Output]) -> Result<HashMap<&'o str, Sense>, AllocError>
    ensures { IfOk result (view.HasSenses outputs.entry.now) }
{
    let mut senses = HashMap::new(alloc);
    for output in outputs {
        let name = output.name.as_str();
        let sense = one_more(senses.get(name).copied(), output.item);
        senses.insert(name, sense)?;
    }
    Ok(senses)
}
