//! Parts of JSON that are wanted there, or the refusal that they aren't, which the caller hands in.

ghost use Rattle.std.specs.Prelude.{map};
ghost use Rattle.serde_json.specs.View.{view};
ghost use Rattle.values.specs.Faults.{Gives};
ghost use Rattle.json_parts.specs.Parts as spec;

use serde_json::Value;
use std::alloc::Global;
use values::Fault;

/// What bytes are as JSON.
#[tactic(auto, unfolding(crate::specs::Parts::json_in))]
pub fn json_of<R: Copy>(alloc: Global, bytes: &[u8], no_json: R) -> Result<Value, Fault<R>>
    ensures { Gives view result (spec.json_in no_json bytes.now) }
{
    match Value::from_slice(alloc, bytes) {
        Ok(value) => Ok(value),
        Err(error) => {
            if error.is_memory() {
                Err(Fault::Memory)
            } else {
                Err(Fault::Refused(no_json))
            }
        }
    }
}

/// Whether it is an object of so many members.
#[tactic(auto, unfolding(crate::specs::Parts::keys_in))]
pub fn has_keys<R: Copy>(value: &Value, count: usize, shape: R) -> Result<(), Fault<R>>
    ensures { Gives (λ _. tt) result (spec.keys_in shape count (view value.now)) }
{
    let Some(members) = value.as_object() else {
        return Err(Fault::Refused(shape));
    };
    if members.len() != count {
        return Err(Fault::Refused(shape));
    }
    Ok(())
}

/// The member at this name.
pub fn member_of<'v, R: Copy>(value: &'v Value, name: &str, shape: R) -> Result<&'v Value, Fault<R>>
    ensures { Gives (λ v. view v.now) result (spec.member_in shape name.now (view value.now)) }
{
    match value.get(name) {
        Some(found) => Ok(found),
        None => Err(Fault::Refused(shape)),
    }
}

/// The items of the array that it is.
#[tactic(auto, unfolding(crate::specs::Parts::items_in))]
pub fn items_of<R: Copy>(value: &Value, shape: R) -> Result<&[Value], Fault<R>>
    ensures { Gives (λ v. map view v.now) result (spec.items_in shape (view value.now)) }
{
    match value.as_array() {
        Some(items) => Ok(items.as_slice()),
        None => Err(Fault::Refused(shape)),
    }
}
