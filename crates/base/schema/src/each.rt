//! Items read one after the other.

ghost use Rattle.std.specs.Prelude.{Result};
ghost use Rattle.values.specs.Faults.{Gives};
ghost use Rattle.schema.specs.Each as spec;
ghost use Rattle.schema.specs.declared.fault.SchemaRefusal.{SchemaRefusal};

use crate::fault::SchemaFault;
use std::alloc::Global;
use values::Items;

/// What reads an item of a list.
pub trait ReadsItem<A> {
    type Output: Drop;

    ghost item_in: { Self → A → Result Self.Output SchemaRefusal };

    fn read_item(&self, alloc: Global, item: &A) -> Result<Self::Output, SchemaFault>
        ensures { Gives (λ x. x) result (item_in self.now item.now) };
}

/// Each item, up to the first fault.
pub fn each<A, T: ReadsItem<A>>(
    alloc: Global,
    reader: &T,
    items: &[A],
) -> Result<Items<T::Output>, SchemaFault>
    ensures { Gives (λ x. x) result (spec.each (T.item_in reader.now) items.now) }
{
    let mut outputs = Items::new(alloc);
    for item in items {
        outputs.push(reader.read_item(alloc, item)?)?;
    }
    Ok(outputs)
}
